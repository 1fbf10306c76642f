// What the events of a receiver make of it.
ghost use Rattle.std.specs.Prelude.{◌≡◌};
ghost use Rattle.vx_history.specs.Receiving.{received_step, update_heard, records_applied, marked_by, site_restarted};

use crate::{RAction, REvent, RState};
use vx_history::{is_in_log, takes_updates};
use vx_model::limits::MOST_WAITING;
use vx_model::{Line, Mark, is_same_line};

/// What the event makes of the receiver, and what is then to be done: an acknowledgement, or nothing.
///
/// An update of the receiver's line is taken where its number is one above the last received, fewer than `MOST_WAITING` received records wait,
/// and the receiver is in no replay or in its phase Log. One that it has already is acknowledged again. Any other is ignored.
pub fn step(state: &mut RState, event: &REvent) -> RAction
    ensures action { result ≡ (received_step state.old event.now).action }
    ensures state { state.new ≡ (received_step state.old event.now).state }
{
    match event {
        REvent::Update { line, number } => hear_update(state, line, *number),
        REvent::Applied { count } => apply_records(state, *count),
        REvent::Restart { last, session } => {
            restart(state, *last, *session);
            RAction::Nothing
        }
    }
}

fn hear_update(state: &mut RState, line: &Line, number: u64) -> RAction
    ensures action { result ≡ (update_heard state.old line.now number).action }
    ensures state { state.new ≡ (update_heard state.old line.now number).state }
{
    if !is_same_line(line, &state.line) {
        return RAction::Ignored;
    }
    if number <= state.last {
        return RAction::IgnoredAck { number: state.last };
    }
    if number - state.last != 1
        || u64::from(state.waiting) >= MOST_WAITING
        || !takes_updates(&state.phase)
    {
        return RAction::Ignored;
    }
    state.last = number;
    state.waiting += 1;
    RAction::Take { ack: number }
}

fn apply_records(state: &mut RState, count: u32) -> RAction
    ensures action { result ≡ (records_applied state.old count).action }
    ensures state { state.new ≡ (records_applied state.old count).state }
{
    if count == 0 || state.waiting == 0 {
        return RAction::Nothing;
    }
    state.waiting = state.waiting.saturating_sub(count);
    let applied = state.last.saturating_sub(u64::from(state.waiting));
    mark_by(state, applied);
    RAction::DataAck { number: applied }
}

fn restart(state: &mut RState, last: u64, session: u64)
    ensures { state.new ≡ site_restarted state.old last session }
{
    state.last = last;
    state.waiting = 0;
    state.session = session;
    mark_by(state, last);
}

// Consistent, where a replay's records are applied up to its end.
fn mark_by(state: &mut RState, applied: u64)
    ensures { state.new ≡ marked_by state.old applied }
{
    if is_in_log(&state.phase) && state.end <= applied {
        state.mark = Mark::Consistent;
    }
}
