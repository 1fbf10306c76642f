// What the messages of a replay make of the site that receives.
ghost use Rattle.std.specs.Prelude.{◌≡◌};
ghost use Rattle.vx_replay.specs.Secondary.{copies as copies_is, done_came, fills as fills_is, phase_copies, region_came, secondary_step, start_came};

use crate::{QAction, QEvent};
use vx_history::{RState, is_in_log};
use vx_model::{Line, Mark, SPhase, is_same_line};

/// What the message makes of the receiver, and what is then to be done.
///
/// A replay of the receiver's line begins where it is a later one, from a number that is not below the receiver's last one: the receiver
/// is inconsistent from then on, and takes the replay's regions. Behind them it stands at the replay's start with an empty log, and is
/// consistent at once where the replay's end is reached. What it has taken is answered again; any other message is ignored.
pub fn secondary(state: &mut RState, event: &QEvent) -> QAction
    ensures action { result ≡ (secondary_step state.old event.now).action }
    ensures state { state.new ≡ (secondary_step state.old event.now).state }
{
    match event {
        QEvent::Start { line, id, start } => hear_start(state, line, *id, *start),
        QEvent::Region { line, id } => hear_region(state, line, *id),
        QEvent::Done {
            line,
            id,
            start,
            end,
        } => hear_done(state, line, *id, *start, *end),
    }
}

fn hear_start(state: &mut RState, line: &Line, id: u64, start: u64) -> QAction
    ensures action { result ≡ (start_came state.old line.now id start).action }
    ensures state { state.new ≡ (start_came state.old line.now id start).state }
{
    if is_same_line(line, &state.line) && state.replay < id && state.last <= start {
        state.waiting = 0;
        state.mark = Mark::Inconsistent;
        state.phase = SPhase::Regions;
        state.replay = id;
        state.end = 0;
        return QAction::Begin;
    }
    if copies(state, line, id) {
        QAction::Again
    } else {
        QAction::Ignored
    }
}

fn hear_region(state: &RState, line: &Line, id: u64) -> QAction
    ensures { result ≡ (region_came state.now line.now id).action }
{
    if copies(state, line, id) {
        QAction::Store
    } else {
        QAction::Ignored
    }
}

fn hear_done(state: &mut RState, line: &Line, id: u64, start: u64, end: u64) -> QAction
    ensures action { result ≡ (done_came state.old line.now id start end).action }
    ensures state { state.new ≡ (done_came state.old line.now id start end).state }
{
    if copies(state, line, id) {
        state.last = start;
        state.waiting = 0;
        state.phase = SPhase::Log;
        state.end = end;
        if end <= start {
            state.mark = Mark::Consistent;
        }
        return QAction::Close;
    }
    if fills(state, line, id) {
        QAction::Again
    } else {
        QAction::Ignored
    }
}

// It stores the regions of this replay of its line.
fn copies(state: &RState, line: &Line, id: u64) -> bool
    ensures { result ≡ copies_is state.now line.now id }
{
    is_same_line(line, &state.line) && id == state.replay && is_copying(&state.phase)
}

// It has the regions of this replay of its line.
fn fills(state: &RState, line: &Line, id: u64) -> bool
    ensures { result ≡ fills_is state.now line.now id }
{
    is_same_line(line, &state.line) && id == state.replay && is_in_log(&state.phase)
}

fn is_copying(phase: &SPhase) -> bool
    ensures { result ≡ phase_copies phase.now }
{
    match phase {
        SPhase::Regions => true,
        SPhase::Quiet | SPhase::Log | SPhase::ForkKept => false,
    }
}
