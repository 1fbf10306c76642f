// What the log of a receiver keeps of a replay.
ghost use Rattle.std.specs.Prelude.{◌≡◌, ◌≤◌};
ghost use Rattle.vx_model.specs.declared.limits.TheConstants.{MOST_NUMBER};
ghost use Rattle.vx_regions.specs.Copies.{told_state};
ghost use Rattle.vx_srlfmt.specs.Headers.{CanSpellState};

use vx_disk::Shelf;
use vx_history::RState;
use vx_model::State;
use vx_rvg::Rvg;

/// What the log keeps of its site, with the marks of this receiver.
pub(crate) fn state_of<S: Shelf>(rvg: &Rvg<S>, told: &RState) -> State
    requires replay { told.now.replay ≤ MOST_NUMBER }
    requires end { told.now.end ≤ MOST_NUMBER }
    ensures is { result ≡ told_state rvg.now.core.log.header.state told.now }
    ensures spelled { CanSpellState result }
{
    let mut state = rvg.state().copy();
    state.mark = told.mark;
    state.phase = told.phase;
    state.replay = told.replay;
    state.end = told.end;
    state
}
