// Room in the log of a receiver.
ghost use Rattle.std.specs.Prelude.{◌≡◌, ◌+◌, ◌<◌, ◌≤◌, [], None, OnOk, IfErr};
ghost use Rattle.vx_rvg.specs.Views.{last_of};
ghost use Rattle.vx_srl.specs.Views.{free_of};
ghost use Rattle.vx_secondary.specs.Logging.{EndsLogging, LogsAll, Step};

use vx_disk::Shelf;
use vx_model::No;
use vx_rvg::Rvg;

/// Makes room in the log for a write of so many blocks: all that it holds is brought into the volumes, and then given up.
pub(crate) fn make_room<S: Shelf>(rvg: &mut Rvg<S>, count: u64) -> Result<(), No>
    requires running { rvg.old.core.halted ≡ None }
    requires fits { count + 1 ≤ rvg.old.core.log.ring }
    ensures step { Step [] rvg.old.core rvg.new.core (S.meaning rvg.old.shelf) (S.meaning rvg.new.shelf) }
    ensures logs { OnOk result (LogsAll [] rvg.old.core rvg.new.core (S.meaning rvg.old.shelf) (S.meaning rvg.new.shelf)) }
    ensures room { OnOk result (count < free_of rvg.new.core.log) }
    ensures ends { IfErr result (EndsLogging 0 rvg.old.core rvg.new.core (S.meaning rvg.old.shelf) (S.meaning rvg.new.shelf)) }
{
    // For its bound.
    let _ring = rvg.ring();
    if rvg.free() > count {
        return Ok(());
    }
    let last = rvg.head();
    rvg.apply(last)?;
    give_up(rvg, last)
}

// Gives up all records of the log, which are in the volumes.
fn give_up<S: Shelf>(rvg: &mut Rvg<S>, last: u64) -> Result<(), No>
    requires running { rvg.old.core.halted ≡ None }
    requires is_last { last ≡ last_of rvg.old.core }
    requires applied { last ≤ rvg.old.core.applied }
    ensures step { Step [] rvg.old.core rvg.new.core (S.meaning rvg.old.shelf) (S.meaning rvg.new.shelf) }
    ensures logs { OnOk result (LogsAll [] rvg.old.core rvg.new.core (S.meaning rvg.old.shelf) (S.meaning rvg.new.shelf)) }
    ensures room { OnOk result (free_of rvg.new.core.log ≡ rvg.old.core.log.ring) }
    ensures ends { IfErr result (EndsLogging 0 rvg.old.core rvg.new.core (S.meaning rvg.old.shelf) (S.meaning rvg.new.shelf)) }
{
    // For its bound.
    let _ring = rvg.ring();
    rvg.reclaim(last)?;
    if rvg.shelf.is_down() {
        return Err(No::Down);
    }
    Ok(())
}
