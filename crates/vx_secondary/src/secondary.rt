// A group that receives the writes of another.
ghost use Rattle.std.specs.Prelude.{◌≡◌, [], Some, None, Ok, Err, ℕ, IfErr, IfOk};
ghost use Rattle.vx_history.specs.Receiving.{received_step};
ghost use Rattle.vx_history.specs.declared.receiver.REvent.TheVariants.{Update as HearUpdate};
ghost use Rattle.vx_model.specs.declared.no.No.TheVariants.{Halted};
ghost use Rattle.vx_secondary.specs.Answers.{KeepIs, TakeIs, TakesNext};
ghost use Rattle.vx_secondary.specs.Receivers.{Wait, receiver_of};

use crate::Waiting;
use crate::rule::{action_of, can_log};
use std::alloc::Global;
use vx_disk::Shelf;
use vx_model::{Line, No, OutOfMemory, Update};
use vx_receiver::{RAction, REvent};
use vx_rvg::Rvg;

/// A replicated volume group that receives, and the updates that wait in memory behind its last durable write.
#[derive(Drop)]
pub struct Secondary<S: Shelf> {
    pub rvg: Rvg<S>,
    pub waiting: Waiting,
    pub ghost waits: { Wait rvg.core (S.meaning rvg.shelf).size waiting },
}

impl<S: Shelf> Secondary<S> {
    /// A receiver behind which nothing waits. It takes the memory in which updates wait; without it the group comes back.
    pub fn new(alloc: Global, rvg: Rvg<S>) -> Result<Secondary<S>, (Rvg<S>, OutOfMemory)>
        ensures made { IfOk result (λ s. (s.rvg ≡ rvg) × (s.waiting ≡ [])) }
        ensures back { IfErr result (λ e. e.0 ≡ rvg) }
    {
        match Waiting::new(alloc) {
            Ok(waiting) => Ok(Secondary { rvg, waiting }),
            Err(error) => Err((rvg, error)),
        }
    }

    /// What the rule of receivers says of an update of this line and number, as the header of each of its packets names them.
    pub fn rule_for(&self, line: &Line, number: u64) -> RAction
        ensures { result ≡ (received_step (receiver_of self.now.rvg.core self.now.waiting) (HearUpdate line.now number)).action }
    {
        let event = REvent::Update {
            line: *line,
            number,
        };
        action_of(&self.rvg, &self.waiting, &event)
    }

    /// Takes an update by the rule of receivers: the next number of its line waits behind the others, while fewer than 16 wait, and any
    /// other changes nothing. It makes no device call.
    ///
    /// Refusals, which change nothing: 20 where a call answered 7 before; 3 where the update would be taken and is no write that the
    /// group can log, as its volume is not there, or its blocks end past it or do not fit the log's ring.
    pub fn take(&mut self, update: &Update) -> Result<RAction, No>
        ensures halted { (disk : ℕ) → self.old.rvg.core.halted ≡ Some disk → (result ≡ Err (Halted disk)) × (self.new.waiting ≡ self.old.waiting) }
        ensures takes { self.old.rvg.core.halted ≡ None
            → TakeIs self.old.rvg.core (S.meaning self.old.rvg.shelf).size self.old.waiting update.now result self.new.waiting }
        ensures group { self.new.rvg ≡ self.old.rvg }
    {
        if let Some(disk) = self.rvg.halted() {
            return Err(No::Halted { disk });
        }
        let event = REvent::Update {
            line: update.line,
            number: update.number,
        };
        match action_of(&self.rvg, &self.waiting, &event) {
            RAction::Take { ack } => self.keep(update, ack),
            action => Ok(action),
        }
    }

    // An update that the rule takes waits, if the group can log it.
    fn keep(&mut self, update: &Update, ack: u64) -> Result<RAction, No>
        requires takes { TakesNext self.old.rvg.core self.old.waiting update.now ack }
        ensures keeps { KeepIs self.old.rvg.core (S.meaning self.old.rvg.shelf).size self.old.waiting update.now ack result self.new.waiting }
        ensures group { self.new.rvg ≡ self.old.rvg }
    {
        if !can_log(&self.rvg, update) {
            return Err(No::Range);
        }
        self.waiting.push(update);
        Ok(RAction::Take { ack })
    }

    /// A receiver behind whose group these updates wait.
    pub fn together(rvg: Rvg<S>, waiting: Waiting) -> Secondary<S>
        requires { Wait rvg.core (S.meaning rvg.shelf).size waiting }
        ensures group { result.rvg ≡ rvg }
        ensures waiting { result.waiting ≡ waiting }
    {
        Secondary { rvg, waiting }
    }

    /// The group, and what waits.
    pub fn apart(self) -> (Rvg<S>, Waiting)
        ensures group { result.0 ≡ self.rvg }
        ensures waiting { result.1 ≡ self.waiting }
        ensures waits { Wait self.rvg.core (S.meaning self.rvg.shelf).size self.waiting }
    {
        let Secondary { rvg, waiting } = self;
        (rvg, waiting)
    }

    /// The group alone. What waits is dropped.
    pub fn into_rvg(self) -> Rvg<S>
        ensures { result ≡ self.rvg }
    {
        self.rvg
    }
}
