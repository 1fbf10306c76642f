// The disks of a site that come to the line of another one.
ghost use Rattle.std.specs.Prelude.{◌≡◌, [], ℕ, IsFalse, OnOk};
ghost use Rattle.vx_disk.specs.Burns.{FallsShort, MakesCalls};
ghost use Rattle.vx_disk.specs.Causes.{Works};
ghost use Rattle.vx_history.specs.Events.{joined};
ghost use Rattle.vx_history.specs.World.{Node};
ghost use Rattle.vx_disk.specs.Spends.{Spends};
ghost use Rattle.vx_srlfmt.specs.Headers.{CanSpellState};
ghost use Rattle.vx_diskset.specs.Asked.{HeadUnder, LeavesFuse};
ghost use Rattle.vx_diskset.specs.Burning.{NoMore, OffIf};
ghost use Rattle.vx_diskset.specs.DiskSets.{Later};
ghost use Rattle.vx_diskset.specs.Holds.{KeptBeside, state_with};
ghost use Rattle.vx_diskset.specs.Keeps.{done_by};
ghost use Rattle.vx_diskset.specs.Stands.{IsUpAt, SiteStands};
ghost use Rattle.vx_joins.specs.Joins.{CanJoin, JoinedAs, JoinedAt};

use std::mem;
use vx_disk::Rack;
use vx_diskset::DiskSet;
use vx_grouped::is_off;
use vx_model::{No, State};
use vx_rvg::Rvg;
use vx_secondary::{Secondary, Waiting};

// Brings a group to another line, behind an empty log. A shelf that is down behind it answers so.
fn join_group<R: Rack>(rvg: &mut Rvg<R>, state: &State) -> Result<(), No>
    requires state { CanSpellState state.now }
    ensures joined { (beside : KeptBeside) (a : Node) (p : ℕ) (n : Node) → IsUpAt beside n rvg.old.core (R.meaning rvg.old.shelf) → CanJoin beside n → state.now ≡ state_with (joined a p n) []
        → JoinedAs beside a p n (R.meaning rvg.old.shelf) rvg.new.core (R.meaning rvg.new.shelf) result }
    // The header is all that it writes, as nothing is logged.
    ensures calls { OnOk result ((beside : KeptBeside) (n : Node) → IsUpAt beside n rvg.old.core (R.meaning rvg.old.shelf) → CanJoin beside n → MakesCalls 2 (R.meaning rvg.old.shelf) (R.meaning rvg.new.shelf)) }
    ensures short { (beside : KeptBeside) (n : Node) → IsUpAt beside n rvg.old.core (R.meaning rvg.old.shelf) → CanJoin beside n → FallsShort 2 (R.meaning rvg.old.shelf) (R.meaning rvg.new.shelf) }
    ensures spends { Spends (R.meaning rvg.old.shelf) (R.meaning rvg.new.shelf) }
    ensures works { OnOk result (Works (R.meaning rvg.old.shelf).disks rvg.old.core.log.unit) }
    ensures off { IsFalse (R.meaning rvg.old.shelf).down → OffIf result (R.meaning rvg.new.shelf).down }
    ensures later { Later (DiskSet.Up rvg.old) (DiskSet.Up rvg.new) }
{
    // For its bound.
    let _ring = rvg.ring();
    let answer = rvg.change(state, Some(0));
    if rvg.shelf.is_down() {
        return Err(No::Down);
    }
    answer
}

// The same of the disks of a site that is up, which crash where the fuse ran out.
fn join_up<R: Rack>(rvg: Rvg<R>, state: &State, waiting: Waiting) -> (DiskSet<R>, Result<(), No>)
    requires state { CanSpellState state.now }
    requires empty { waiting ≡ [] }
    ensures joined { (beside : KeptBeside) (a : Node) (p : ℕ) (n : Node) → SiteStands beside n (DiskSet.Up rvg) → CanJoin beside n → state.now ≡ state_with (joined a p n) [] → JoinedAt beside a p n (DiskSet.Up rvg) result.0 result.1 }
    ensures called { (beside : KeptBeside) (n : Node) → SiteStands beside n (DiskSet.Up rvg) → LeavesFuse NoMore (done_by result.1) (DiskSet.Up rvg) result.0 }
    ensures headed { (beside : KeptBeside) (n : Node) → SiteStands beside n (DiskSet.Up rvg) → CanJoin beside n → HeadUnder 2 (done_by result.1) (DiskSet.Up rvg) result.0 }
    ensures later { Later (DiskSet.Up rvg) result.0 }
{
    let mut rvg = rvg;
    match join_group(&mut rvg, state) {
        Ok(()) => (DiskSet::Receives(Secondary::together(rvg, waiting)), Ok(())),
        Err(no) => {
            if is_off(&no) {
                return (DiskSet::Up(rvg).crash(u64::MAX), Err(no));
            }
            (DiskSet::Up(rvg), Err(no))
        }
    }
}

/// Brings the disks of a site to the line of another one, as its secondary: the content of its volumes stays, and its log is empty, of that
/// line. `state` is what its log then keeps of it, and `waiting` has room for the updates that will wait behind it. A site whose fuse runs
/// out crashes.
///
/// It takes an origin that is up and runs, with nothing logged and no links. Refusals: 19 where no number is left, which changes nothing;
/// 7 where a disk failed: then the site is halted, and may have come to the line on its disks or not; 6 where its fuse ran out: then it
/// crashed, on that line or on its own.
pub fn join<R: Rack>(disks: &mut DiskSet<R>, state: &State, waiting: Waiting) -> Result<(), No>
    requires state { CanSpellState state.now }
    requires empty { waiting ≡ [] }
    ensures joined { (beside : KeptBeside) (a : Node) (p : ℕ) (n : Node) → SiteStands beside n disks.old → CanJoin beside n → state.now ≡ state_with (joined a p n) [] → JoinedAt beside a p n disks.old disks.new result }
    ensures called { (beside : KeptBeside) (n : Node) → SiteStands beside n disks.old → LeavesFuse NoMore (done_by result) disks.old disks.new }
    ensures headed { (beside : KeptBeside) (n : Node) → SiteStands beside n disks.old → CanJoin beside n → HeadUnder 2 (done_by result) disks.old disks.new }
    ensures later { Later disks.old disks.new }
{
    match mem::replace(disks, DiskSet::Gone) {
        DiskSet::Up(rvg) => {
            let (after, answer) = join_up(rvg, state, waiting);
            *disks = after;
            answer
        }
        other => {
            *disks = other;
            Err(No::Role)
        }
    }
}
