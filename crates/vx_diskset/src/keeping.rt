// The header of the log of a site, with another state: its role, its mark, its links.
ghost use Rattle.std.specs.Prelude.{◌≡◌, ℕ, IsFalse, List, OnOk};
ghost use Rattle.vx_model.specs.declared.call.Update.{Update};
ghost use Rattle.vx_model.specs.declared.state.State.{State};
ghost use Rattle.vx_disk.specs.Burns.{FallsShort, MakesCalls};
ghost use Rattle.vx_disk.specs.Causes.{Works};
ghost use Rattle.vx_history.specs.World.{Node};
ghost use Rattle.vx_disk.specs.Spends.{Spends};
ghost use Rattle.vx_srlfmt.specs.Headers.{CanSpellState};
ghost use Rattle.vx_secondary.specs.Receivers.{Wait};
ghost use Rattle.vx_diskset.specs.Asked.{HeadUnder, IsRawSet, LeavesFuse};
ghost use Rattle.vx_diskset.specs.Burning.{NoMore, OffIf};
ghost use Rattle.vx_diskset.specs.DiskSets.{Later};
ghost use Rattle.vx_diskset.specs.Holds.{KeptBeside};
ghost use Rattle.vx_diskset.specs.Keeps.{CanKeep, KeptAt, KeptUp, done_by};
ghost use Rattle.vx_diskset.specs.Shelves.{KeptAs, LaterOn, MovesOn};
ghost use Rattle.vx_diskset.specs.Stands.{IsUpAt, KeepsRole, SiteStands};

use crate::DiskSet;
use vx_disk::{Rack, Shelf};
use vx_grouped::is_off;
use vx_model::{No, State};
use vx_rvg::Rvg;

// Makes a state of the log's line durable. A shelf that is down behind it answers so.
pub(crate) fn keep_group<S: Shelf>(rvg: &mut Rvg<S>, state: &State) -> Result<(), No>
    requires state { CanSpellState state.now }
    ensures kept { (beside : KeptBeside) (n : Node) → IsUpAt beside n rvg.old.core (S.meaning rvg.old.shelf) → CanKeep beside n state.now → KeptAs beside n state.now (S.meaning rvg.old.shelf) rvg.new.core (S.meaning rvg.new.shelf) result }
    ensures waiting { (us : List Update) → Wait rvg.old.core (S.meaning rvg.old.shelf).size us → Wait rvg.new.core (S.meaning rvg.new.shelf).size us }
    ensures units { rvg.new.core.units ≡ rvg.old.core.units }
    ensures calls { OnOk result (MakesCalls 2 (S.meaning rvg.old.shelf) (S.meaning rvg.new.shelf)) }
    ensures short { FallsShort 2 (S.meaning rvg.old.shelf) (S.meaning rvg.new.shelf) }
    ensures spends { Spends (S.meaning rvg.old.shelf) (S.meaning rvg.new.shelf) }
    ensures works { OnOk result (Works (S.meaning rvg.old.shelf).disks rvg.old.core.log.unit) }
    ensures off { IsFalse (S.meaning rvg.old.shelf).down → OffIf result (S.meaning rvg.new.shelf).down }
    ensures later { LaterOn (S.meaning rvg.old.shelf) (S.meaning rvg.new.shelf) }
    ensures moves { MovesOn rvg.old.core (S.meaning rvg.old.shelf) (S.meaning rvg.new.shelf) }
{
    if rvg.state().line != state.line {
        return Err(No::Role);
    }
    let answer = rvg.set_state(state);
    if rvg.shelf.is_down() {
        return Err(No::Down);
    }
    answer
}

impl<R: Rack> DiskSet<R> {
    /// Makes a state of the site's line durable in the header of its log: its role, its mark and its links. A site whose fuse runs out crashes.
    ///
    /// Refusals: 19 where no number is left, which changes nothing; 7 where a disk failed: then the site is halted, and may have the state on
    /// its disks or not; 6 where its fuse ran out: then it crashed, with the state or without it.
    pub fn keep(&mut self, state: &State) -> Result<(), No>
        requires state { CanSpellState state.now }
        ensures kept { (beside : KeptBeside) (n : Node) → SiteStands beside n self.old → IsRawSet self.old → CanKeep beside n state.now → KeptAt beside n state.now self.old self.new result }
        ensures called { (beside : KeptBeside) (n : Node) → SiteStands beside n self.old → LeavesFuse NoMore (done_by result) self.old self.new }
        ensures headed { (beside : KeptBeside) (n : Node) → SiteStands beside n self.old → HeadUnder 2 (done_by result) self.old self.new }
        ensures role { KeepsRole self.old self.new }
        ensures later { Later self.old self.new }
    {
        match self.keep_up(state) {
            Ok(()) => Ok(()),
            Err(no) => {
                if is_off(&no) {
                    self.fall();
                    return Err(no);
                }
                Err(no)
            }
        }
    }

    // The same, before it crashes.
    fn keep_up(&mut self, state: &State) -> Result<(), No>
        requires state { CanSpellState state.now }
        ensures kept { (beside : KeptBeside) (n : Node) → SiteStands beside n self.old → IsRawSet self.old → CanKeep beside n state.now → KeptUp beside n state.now self.old self.new result }
        ensures called { (beside : KeptBeside) (n : Node) → SiteStands beside n self.old → LeavesFuse NoMore (done_by result) self.old self.new }
        ensures headed { (beside : KeptBeside) (n : Node) → SiteStands beside n self.old → HeadUnder 2 (done_by result) self.old self.new }
        ensures role { KeepsRole self.old self.new }
        ensures later { Later self.old self.new }
    {
        match self {
            DiskSet::Up(rvg) => keep_group(rvg, state),
            DiskSet::Receives(site) => keep_group(&mut site.rvg, state),
            DiskSet::Over(_) => Err(No::Role),
            DiskSet::Bare(_)
            | DiskSet::Spoiled(_)
            | DiskSet::Down(_)
            | DiskSet::OfGroup(_)
            | DiskSet::Gone => Err(No::Role),
        }
    }
}
