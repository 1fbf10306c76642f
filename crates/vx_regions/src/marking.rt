// The mark of a receiver behind a replay.
ghost use Rattle.std.specs.Prelude.{◌≡◌, ◌+◌, ◌≤◌, ℕ, Some, None, Ok, Err, OnOk, IfErr, false, true};
ghost use Rattle.vx_model.specs.declared.no.No.TheVariants.{Halted};
ghost use Rattle.vx_disk.specs.Moves.{Moves, Run};
ghost use Rattle.vx_history.specs.Receiving.{is_log_phase, marked_by};
ghost use Rattle.vx_regions.specs.Copies.{consistent_state, is_inconsistent, mark_is_due};
ghost use Rattle.vx_rvg.specs.Saves.{with_new_state};
ghost use Rattle.vx_rvg.specs.Stands.{Rests, Saving};
ghost use Rattle.vx_rvg.specs.Views.{last_of};
ghost use Rattle.vx_secondary.specs.Logging.{EndsLogging};
ghost use Rattle.vx_secondary.specs.Receivers.{receiver_of};

use vx_disk::Shelf;
use vx_history::is_in_log;
use vx_model::{Mark, No};
use vx_rvg::Rvg;
use vx_secondary::Secondary;

fn is_inconsistent(mark: &Mark) -> bool
    ensures { result ≡ is_inconsistent mark.now }
{
    match mark {
        Mark::Consistent => false,
        Mark::Inconsistent => true,
    }
}

// Whether the group has all up to the end of its replay, and its log does not keep yet that it is consistent.
fn is_due<S: Shelf>(rvg: &Rvg<S>) -> bool
    ensures { result ≡ mark_is_due rvg.now.core.log.header.state (last_of rvg.now.core) }
{
    let state = rvg.state();
    is_in_log(&state.phase) && state.end <= rvg.head() && is_inconsistent(&state.mark)
}

/// Keeps, durably, that a receiver is consistent, where it goes by its log behind a replay and its log has all up to the replay's end. It
/// writes nothing where it is not so, or where the log keeps that already.
///
/// Refusals: 20 where a call answered 7 before, 19 exactly where a header is to be written and no stamp is left; these change nothing. 7
/// where a device call failed: then the group is halted. 6 where the shelf is down.
pub fn settle_mark<S: Shelf>(secondary: &mut Secondary<S>) -> Result<(), No>
    ensures halted { (disk : ℕ) → secondary.old.rvg.core.halted ≡ Some disk → (result ≡ Err (Halted disk)) × (secondary.new.rvg ≡ secondary.old.rvg) }
    ensures unchanged { secondary.old.rvg.core.halted ≡ None → mark_is_due secondary.old.rvg.core.log.header.state (last_of secondary.old.rvg.core) ≡ false
        → (result ≡ Ok tt) × (secondary.new.rvg ≡ secondary.old.rvg) }
    ensures state { OnOk result (receiver_of secondary.new.rvg.core secondary.new.waiting ≡ marked_by (receiver_of secondary.old.rvg.core secondary.old.waiting) (last_of secondary.old.rvg.core)) }
    ensures stands { OnOk result (Rests secondary.old.rvg.core secondary.new.rvg.core (S.meaning secondary.old.rvg.shelf) (S.meaning secondary.new.rvg.shelf)) }
    ensures moves { Moves (Run secondary.old.rvg.core.units.srl 0 (secondary.old.rvg.core.log.ring + 2))
        (Saving secondary.old.rvg.core (with_new_state secondary.old.rvg.core (consistent_state secondary.old.rvg.core.log.header.state)) (S.meaning secondary.old.rvg.shelf))
        (S.meaning secondary.old.rvg.shelf) (S.meaning secondary.new.rvg.shelf) }
    ensures ends { secondary.old.rvg.core.halted ≡ None → IfErr result (EndsLogging 0 secondary.old.rvg.core secondary.new.rvg.core (S.meaning secondary.old.rvg.shelf) (S.meaning secondary.new.rvg.shelf)) }
    ensures waiting { secondary.new.waiting ≡ secondary.old.waiting }
{
    if let Some(disk) = secondary.rvg.halted() {
        return Err(No::Halted { disk });
    }
    if !is_due(&secondary.rvg) {
        return Ok(());
    }
    let mut state = secondary.rvg.state().copy();
    state.mark = Mark::Consistent;
    match secondary.rvg.change(&state, None) {
        Ok(()) => Ok(()),
        Err(no) => Err(no),
    }
}
