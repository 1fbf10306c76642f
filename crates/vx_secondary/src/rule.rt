// A receiver in the form in which its rule takes it.
ghost use Rattle.std.specs.Prelude.{◌≡◌};
ghost use Rattle.vx_history.specs.Receiving.{received_step};
ghost use Rattle.vx_secondary.specs.Receivers.{can_log as can_log_is, receiver_of};

use crate::Waiting;
use vx_disk::Shelf;
use vx_model::Update;
use vx_model::limits::BLOCK;
use vx_receiver::{RAction, REvent, RState};
use vx_rvg::Rvg;

/// The group with its waiting updates, as the rule of receivers sees it.
pub fn receiver<S: Shelf>(rvg: &Rvg<S>, waiting: &Waiting) -> RState
    ensures { result ≡ receiver_of rvg.now.core waiting.now }
{
    // For its bound.
    let _ring = rvg.ring();
    let state = rvg.state();
    let count = waiting.len();
    RState {
        line: state.line,
        last: rvg.head() + u64::from(count),
        waiting: count,
        session: rvg.session(),
        mark: state.mark,
        phase: state.phase,
        replay: state.replay,
        end: state.end,
    }
}

/// What the rule of receivers says of an event.
pub(crate) fn action_of<S: Shelf>(rvg: &Rvg<S>, waiting: &Waiting, event: &REvent) -> RAction
    ensures { result ≡ (received_step (receiver_of rvg.now.core waiting.now) event.now).action }
{
    let mut state = receiver(rvg, waiting);
    vx_receiver::step(&mut state, event)
}

/// Whether the group can log the write of an update.
pub(crate) fn can_log<S: Shelf>(rvg: &Rvg<S>, update: &Update) -> bool
    ensures { result ≡ can_log_is rvg.now.core (S.meaning rvg.now.shelf).size update.now }
{
    if update.vol >= rvg.volumes() {
        return false;
    }
    let count = (update.bytes.as_bytes().len() / BLOCK) as u64;
    let size = rvg.size(update.vol);
    count < rvg.ring() && count <= size && update.block <= size - count
}
