// The begin and the end of a replay at the site that receives it.
ghost use Rattle.std.specs.Prelude.{◌≡◌, ◌≤◌, ℕ, [], Some, None, Ok, Err, OnOk, IfOk, IfErr};
ghost use Rattle.vx_model.specs.declared.limits.TheConstants.{MOST_NUMBER, MOST_WAITING};
ghost use Rattle.vx_model.specs.declared.no.No.TheVariants.{Halted};
ghost use Rattle.vx_disk.specs.Moves.{Moves};
ghost use Rattle.vx_replay.specs.Secondary.{begun, closed};
ghost use Rattle.vx_replay.specs.declared.event.QAction.TheVariants.{Begin, Close};
ghost use Rattle.vx_replay.specs.declared.event.QEvent.TheVariants.{Done as HearDone, Start as HearStart};
ghost use Rattle.vx_regions.specs.Copies.{BeginsCopy, BegunCopy, replay_heard, told_state};
ghost use Rattle.vx_rvg.specs.Saves.{RestartIs, change_blocks, restart_refusal, with_restart};
ghost use Rattle.vx_rvg.specs.Stands.{Retains, Saving};
ghost use Rattle.vx_secondary.specs.Logging.{EndsAfter};
ghost use Rattle.vx_secondary.specs.Receivers.{receiver_of, writes_of_updates};

use crate::told::state_of;
use vx_disk::Shelf;
use vx_history::RState;
use vx_model::limits::MOST_WAITING;
use vx_model::{Line, No};
use vx_replay::{QAction, QEvent};
use vx_secondary::{Secondary, receiver};

// Logs all that waits and brings all that is logged into the volumes, and then keeps that a replay begins.
fn begin<S: Shelf>(secondary: &mut Secondary<S>, told: &RState) -> Result<QAction, No>
    requires running { secondary.old.rvg.core.halted ≡ None }
    requires few { told.now.replay ≤ MOST_NUMBER }
    requires begins { told.now ≡ begun (receiver_of secondary.old.rvg.core secondary.old.waiting) told.now.replay }
    ensures action { IfOk result (λ a. a ≡ Begin) }
    ensures state { OnOk result (receiver_of secondary.new.rvg.core secondary.new.waiting ≡ told.now) }
    ensures begun { OnOk result (BegunCopy (writes_of_updates secondary.old.waiting) (told_state secondary.old.rvg.core.log.header.state told.now) secondary.old.rvg.core secondary.new.rvg.core (S.meaning secondary.old.rvg.shelf) (S.meaning secondary.new.rvg.shelf)) }
    ensures left { OnOk result (secondary.new.waiting ≡ []) }
    ensures ends { IfErr result (EndsAfter MOST_WAITING secondary.old.waiting secondary.new.waiting secondary.old.rvg.core secondary.new.rvg.core (S.meaning secondary.old.rvg.shelf) (S.meaning secondary.new.rvg.shelf)) }
    ensures begins { BeginsCopy (writes_of_updates secondary.old.waiting) (told_state secondary.old.rvg.core.log.header.state told.now) secondary.old.rvg.core secondary.new.rvg.core (S.meaning secondary.old.rvg.shelf) (S.meaning secondary.new.rvg.shelf) }
{
    if let Err(no) = secondary.apply(MOST_WAITING) {
        return Err(no);
    }
    let state = state_of(&secondary.rvg, told);
    match secondary.rvg.change(&state, None) {
        Ok(()) => Ok(QAction::Begin),
        Err(no) => Err(no),
    }
}

// Brings all that is logged into the volumes, and keeps that every region came: the log is emptied behind the replay's start. What waits
// is given up.
fn close<S: Shelf>(secondary: &mut Secondary<S>, told: &RState) -> Result<QAction, No>
    requires running { secondary.old.rvg.core.halted ≡ None }
    requires replay { told.now.replay ≤ MOST_NUMBER }
    requires start { told.now.last ≤ MOST_NUMBER }
    requires end { told.now.end ≤ MOST_NUMBER }
    requires closes { told.now ≡ closed (receiver_of secondary.old.rvg.core secondary.old.waiting) told.now.last told.now.end }
    ensures action { IfOk result (λ a. a ≡ Close) }
    ensures state { OnOk result (receiver_of secondary.new.rvg.core secondary.new.waiting ≡ told.now) }
    ensures emptied { OnOk result (secondary.new.rvg.core ≡ with_restart secondary.old.rvg.core (told_state secondary.old.rvg.core.log.header.state told.now) told.now.last) }
    ensures ends { IfErr result (λ why. RestartIs (restart_refusal secondary.old.rvg.core told.now.last) secondary.old.rvg.core (with_restart secondary.old.rvg.core (told_state secondary.old.rvg.core.log.header.state told.now) told.now.last)
        (S.meaning secondary.old.rvg.shelf) (S.meaning secondary.new.rvg.shelf) secondary.new.rvg.core (Err why)) }
    ensures stands { OnOk result (Retains secondary.old.rvg.core secondary.new.rvg.core (S.meaning secondary.old.rvg.shelf) (S.meaning secondary.new.rvg.shelf)) }
    ensures moves { Moves (change_blocks (Some told.now.last) secondary.old.rvg.core (S.meaning secondary.old.rvg.shelf))
        (Saving secondary.old.rvg.core (with_restart secondary.old.rvg.core (told_state secondary.old.rvg.core.log.header.state told.now) told.now.last) (S.meaning secondary.old.rvg.shelf))
        (S.meaning secondary.old.rvg.shelf) (S.meaning secondary.new.rvg.shelf) }
    ensures left { OnOk result (secondary.new.waiting ≡ []) }
    ensures waiting { IfErr result (λ why. secondary.new.waiting ≡ secondary.old.waiting) }
{
    let state = state_of(&secondary.rvg, told);
    match secondary.rvg.change(&state, Some(told.last)) {
        Ok(()) => {
            secondary.waiting.clear();
            Ok(QAction::Close)
        }
        Err(no) => Err(no),
    }
}

/// Takes the start of a replay of this line and id, by the rule of a replay's receiver. Where it begins, all that waits is logged and
/// brought into the volumes, and then the log keeps, durably, that the site is inconsistent and takes regions of this replay. Any other
/// answer changes nothing.
///
/// Refusals: 20 where a call answered 7 before, which changes nothing; 7 where a device call failed: then the group is halted; 6 where
/// the shelf is down; 19 where the log has no number or stamp left. After 7, 6 and 19 the first of what waited is logged, maybe none or
/// all, and waits no longer; the replay is begun only behind all of it.
pub fn begin_replay<S: Shelf>(
    secondary: &mut Secondary<S>,
    line: &Line,
    id: u64,
    start: u64,
) -> Result<QAction, No>
    requires few { id ≤ MOST_NUMBER }
    ensures halted { (disk : ℕ) → secondary.old.rvg.core.halted ≡ Some disk → (result ≡ Err (Halted disk)) × (secondary.new.rvg ≡ secondary.old.rvg) × (secondary.new.waiting ≡ secondary.old.waiting) }
    ensures action { IfOk result (λ a. a ≡ (replay_heard secondary.old.rvg.core secondary.old.waiting (HearStart line.now id start)).action) }
    ensures unchanged { secondary.old.rvg.core.halted ≡ None → ((replay_heard secondary.old.rvg.core secondary.old.waiting (HearStart line.now id start)).action ≡ Begin → ⊥)
        → (result ≡ Ok (replay_heard secondary.old.rvg.core secondary.old.waiting (HearStart line.now id start)).action) × (secondary.new.rvg ≡ secondary.old.rvg) × (secondary.new.waiting ≡ secondary.old.waiting) }
    ensures state { OnOk result (receiver_of secondary.new.rvg.core secondary.new.waiting ≡ (replay_heard secondary.old.rvg.core secondary.old.waiting (HearStart line.now id start)).state) }
    ensures begun { (replay_heard secondary.old.rvg.core secondary.old.waiting (HearStart line.now id start)).action ≡ Begin
        → OnOk result (BegunCopy (writes_of_updates secondary.old.waiting) (told_state secondary.old.rvg.core.log.header.state (replay_heard secondary.old.rvg.core secondary.old.waiting (HearStart line.now id start)).state)
        secondary.old.rvg.core secondary.new.rvg.core (S.meaning secondary.old.rvg.shelf) (S.meaning secondary.new.rvg.shelf)) }
    ensures left { (replay_heard secondary.old.rvg.core secondary.old.waiting (HearStart line.now id start)).action ≡ Begin → OnOk result (secondary.new.waiting ≡ []) }
    ensures ends { secondary.old.rvg.core.halted ≡ None
        → IfErr result (EndsAfter MOST_WAITING secondary.old.waiting secondary.new.waiting secondary.old.rvg.core secondary.new.rvg.core (S.meaning secondary.old.rvg.shelf) (S.meaning secondary.new.rvg.shelf)) }
    ensures begins { BeginsCopy (writes_of_updates secondary.old.waiting) (told_state secondary.old.rvg.core.log.header.state (replay_heard secondary.old.rvg.core secondary.old.waiting (HearStart line.now id start)).state)
        secondary.old.rvg.core secondary.new.rvg.core (S.meaning secondary.old.rvg.shelf) (S.meaning secondary.new.rvg.shelf) }
{
    if let Some(disk) = secondary.rvg.halted() {
        return Err(No::Halted { disk });
    }
    let mut told = receiver(&secondary.rvg, &secondary.waiting);
    let event = QEvent::Start {
        line: *line,
        id,
        start,
    };
    match vx_replay::secondary(&mut told, &event) {
        QAction::Begin => begin(secondary, &told),
        action => Ok(action),
    }
}

/// Takes the end of a replay's copying, of this line and id, by the rule of a replay's receiver. Where every region came, all that is logged
/// is brought into the volumes, and by one header, durably, the log is emptied behind the replay's start and keeps that the site goes on
/// by its log, and that it is consistent where the replay's end is not above its start. What waits is given up. Any other answer changes
/// nothing.
///
/// Refusals: 20 where a call answered 7 before, 19 exactly where no stamp, run or number is left; these change nothing. 7 where a device
/// call failed: then a start finds the group from before the call or the one behind it, and the group is halted. 6 where the shelf is
/// down.
pub fn close_replay<S: Shelf>(
    secondary: &mut Secondary<S>,
    line: &Line,
    id: u64,
    start: u64,
    end: u64,
) -> Result<QAction, No>
    requires replay { id ≤ MOST_NUMBER }
    requires start { start ≤ MOST_NUMBER }
    requires end { end ≤ MOST_NUMBER }
    ensures halted { (disk : ℕ) → secondary.old.rvg.core.halted ≡ Some disk → (result ≡ Err (Halted disk)) × (secondary.new.rvg ≡ secondary.old.rvg) × (secondary.new.waiting ≡ secondary.old.waiting) }
    ensures action { IfOk result (λ a. a ≡ (replay_heard secondary.old.rvg.core secondary.old.waiting (HearDone line.now id start end)).action) }
    ensures unchanged { secondary.old.rvg.core.halted ≡ None → ((replay_heard secondary.old.rvg.core secondary.old.waiting (HearDone line.now id start end)).action ≡ Close → ⊥)
        → (result ≡ Ok (replay_heard secondary.old.rvg.core secondary.old.waiting (HearDone line.now id start end)).action) × (secondary.new.rvg ≡ secondary.old.rvg) × (secondary.new.waiting ≡ secondary.old.waiting) }
    ensures state { OnOk result (receiver_of secondary.new.rvg.core secondary.new.waiting ≡ (replay_heard secondary.old.rvg.core secondary.old.waiting (HearDone line.now id start end)).state) }
    ensures emptied { (replay_heard secondary.old.rvg.core secondary.old.waiting (HearDone line.now id start end)).action ≡ Close
        → OnOk result (secondary.new.rvg.core ≡ with_restart secondary.old.rvg.core (told_state secondary.old.rvg.core.log.header.state (replay_heard secondary.old.rvg.core secondary.old.waiting (HearDone line.now id start end)).state) start) }
    ensures ends { secondary.old.rvg.core.halted ≡ None
        → IfErr result (λ why. RestartIs (restart_refusal secondary.old.rvg.core start) secondary.old.rvg.core
        (with_restart secondary.old.rvg.core (told_state secondary.old.rvg.core.log.header.state (replay_heard secondary.old.rvg.core secondary.old.waiting (HearDone line.now id start end)).state) start)
        (S.meaning secondary.old.rvg.shelf) (S.meaning secondary.new.rvg.shelf) secondary.new.rvg.core (Err why)) }
    ensures stands { (replay_heard secondary.old.rvg.core secondary.old.waiting (HearDone line.now id start end)).action ≡ Close
        → OnOk result (Retains secondary.old.rvg.core secondary.new.rvg.core (S.meaning secondary.old.rvg.shelf) (S.meaning secondary.new.rvg.shelf)) }
    ensures moves { Moves (change_blocks (Some start) secondary.old.rvg.core (S.meaning secondary.old.rvg.shelf))
        (Saving secondary.old.rvg.core (with_restart secondary.old.rvg.core (told_state secondary.old.rvg.core.log.header.state (replay_heard secondary.old.rvg.core secondary.old.waiting (HearDone line.now id start end)).state) start) (S.meaning secondary.old.rvg.shelf))
        (S.meaning secondary.old.rvg.shelf) (S.meaning secondary.new.rvg.shelf) }
    ensures left { (replay_heard secondary.old.rvg.core secondary.old.waiting (HearDone line.now id start end)).action ≡ Close → OnOk result (secondary.new.waiting ≡ []) }
    ensures waiting { IfErr result (λ why. secondary.new.waiting ≡ secondary.old.waiting) }
{
    if let Some(disk) = secondary.rvg.halted() {
        return Err(No::Halted { disk });
    }
    let mut told = receiver(&secondary.rvg, &secondary.waiting);
    let event = QEvent::Done {
        line: *line,
        id,
        start,
        end,
    };
    match vx_replay::secondary(&mut told, &event) {
        QAction::Close => close(secondary, &told),
        action => Ok(action),
    }
}
