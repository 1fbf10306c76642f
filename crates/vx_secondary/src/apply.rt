// The logging and applying of updates that wait.
ghost use Rattle.std.specs.Prelude.{◌≡◌, ◌<◌, ◌≤◌, ℕ, Some, None, Err, OnOk, IfOk, IfErr, drop, length, take};
ghost use Rattle.vx_history.specs.Receiving.{received_step};
ghost use Rattle.vx_history.specs.declared.receiver.REvent.TheVariants.{Applied as HearApplied};
ghost use Rattle.vx_model.specs.declared.no.No.TheVariants.{Halted};
ghost use Rattle.vx_rvg.specs.Views.{last_of};
ghost use Rattle.vx_secondary.specs.Logging.{EndsAfter, LogsAll, Step};
ghost use Rattle.vx_secondary.specs.Receivers.{Wait, receiver_of, writes_of_updates};

use crate::logging::log_oldest;
use crate::rule::action_of;
use crate::{Secondary, Waiting};
use vx_disk::Shelf;
use vx_model::No;
use vx_model::limits::MOST_WAITING;
use vx_receiver::{RAction, REvent};
use vx_rvg::Rvg;

// Logs the oldest of the updates that wait, and brings all that is logged into the volumes.
fn log_and_apply<S: Shelf>(rvg: &mut Rvg<S>, waiting: &mut Waiting, count: u32) -> Result<(), No>
    requires running { rvg.old.core.halted ≡ None }
    requires waits { Wait rvg.old.core (S.meaning rvg.old.shelf).size waiting.old }
    requires some { count ≤ length waiting.old }
    ensures step { Step (writes_of_updates (take count waiting.old)) rvg.old.core rvg.new.core (S.meaning rvg.old.shelf) (S.meaning rvg.new.shelf) }
    ensures logs { OnOk result (LogsAll (writes_of_updates (take count waiting.old)) rvg.old.core rvg.new.core (S.meaning rvg.old.shelf) (S.meaning rvg.new.shelf)) }
    ensures left { OnOk result (waiting.new ≡ drop count waiting.old) }
    ensures applied { OnOk result (last_of rvg.new.core ≤ rvg.new.core.applied) }
    ensures ends { IfErr result (EndsAfter count waiting.old waiting.new rvg.old.core rvg.new.core (S.meaning rvg.old.shelf) (S.meaning rvg.new.shelf)) }
    ensures waits { Wait rvg.new.core (S.meaning rvg.new.shelf).size waiting.new }
{
    log_oldest(rvg, waiting, count)?;
    // For its bound.
    let _ring = rvg.ring();
    let last = rvg.head();
    rvg.apply(last)?;
    Ok(())
}

impl<S: Shelf> Secondary<S> {
    /// Logs the oldest of the updates that wait, so many of them or all, durably and in their order, and brings all that is logged into
    /// the volumes. Answers what is then to be done: the number of the last one is acknowledged from disk, or nothing where none waited.
    ///
    /// Refusals: 20 where a call answered 7 before, which changes nothing; 7 where a device call failed: then the group is halted; 6
    /// where the shelf is down; 19 where the log has no number or stamp left. After 7, 6 and 19 the first of them are logged, maybe
    /// none or all, and wait no longer; the next one may be found by a start.
    pub fn apply(&mut self, count: u64) -> Result<RAction, No>
        ensures halted { (disk : ℕ) → self.old.rvg.core.halted ≡ Some disk → (result ≡ Err (Halted disk)) × (self.new.rvg ≡ self.old.rvg) × (self.new.waiting ≡ self.old.waiting) }
        ensures action { IfOk result (λ a. a ≡ (received_step (receiver_of self.old.rvg.core self.old.waiting) (HearApplied count)).action) }
        ensures left { OnOk result (self.new.waiting ≡ drop count self.old.waiting) }
        ensures logs { OnOk result (LogsAll (writes_of_updates (take count self.old.waiting)) self.old.rvg.core self.new.rvg.core (S.meaning self.old.rvg.shelf) (S.meaning self.new.rvg.shelf)) }
        ensures applied { OnOk result (0 < count → 0 < length self.old.waiting → last_of self.new.rvg.core ≤ self.new.rvg.core.applied) }
        ensures ends { self.old.rvg.core.halted ≡ None
            → IfErr result (EndsAfter count self.old.waiting self.new.waiting self.old.rvg.core self.new.rvg.core (S.meaning self.old.rvg.shelf) (S.meaning self.new.rvg.shelf)) }
        ensures step { Step (writes_of_updates (take count self.old.waiting)) self.old.rvg.core self.new.rvg.core (S.meaning self.old.rvg.shelf) (S.meaning self.new.rvg.shelf) }
        ensures nothing { drop count self.old.waiting ≡ self.old.waiting → self.new.rvg ≡ self.old.rvg }
    {
        if let Some(disk) = self.rvg.halted() {
            return Err(No::Halted { disk });
        }
        let few = count.min(MOST_WAITING) as u32;
        let event = REvent::Applied { count: few };
        let action = action_of(&self.rvg, &self.waiting, &event);
        let count = few.min(self.waiting.len());
        if count == 0 {
            return Ok(action);
        }
        log_and_apply(&mut self.rvg, &mut self.waiting, count)?;
        Ok(action)
    }
}
