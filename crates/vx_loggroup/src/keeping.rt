// A read of a group with logs.
ghost use Rattle.std.specs.Prelude.{◌≡◌, ◌/◌, OnOk, length};
ghost use Rattle.vx_disk.specs.Causes.{Cause, CountsOnly};
ghost use Rattle.vx_disk.specs.Shelf.{Fits, Goes, Nothing, Read};
ghost use Rattle.vx_group.specs.Turns.{ReadsInTurn};
ghost use Rattle.vx_group.specs.Holding.{wide};
ghost use Rattle.vx_group.specs.Stands.{inner_meaning};
ghost use Rattle.vx_loggroup.specs.LoggedVolumes.{LoggedStands};
ghost use Rattle.vx_model.specs.declared.limits.TheConstants.{BLOCK};

use vx_disk::{Shelf, ShelfError};
use vx_group::{GroupCore, read_in};
use vx_logs::Logs;
use vx_model::limits::MOST_VOLUMES;

/// Reads a run of blocks of a volume, from one plex that is ACTIVE.
pub fn read_whole<S: Shelf>(
    shelf: &mut S,
    core: &mut GroupCore,
    logs: &Vec<Logs>,
    alike: &[bool; MOST_VOLUMES],
    stopped: bool,
    vol: u32,
    block: u64,
    into: &mut [u8],
) -> Result<(), ShelfError>
    requires stands { LoggedStands core.old logs.now.items alike.now stopped (S.meaning shelf.old) }
    requires fits { Fits (inner_meaning (wide core.old) (S.meaning shelf.old)) vol block (length into.old) }
    ensures stands { LoggedStands core.new logs.now.items alike.now stopped (S.meaning shelf.new) }
    ensures goes { Goes Nothing (inner_meaning (wide core.old) (S.meaning shelf.old)) (inner_meaning (wide core.new) (S.meaning shelf.new)) }
    ensures ok { OnOk result (Read (inner_meaning (wide core.old) (S.meaning shelf.old)) vol block into.new) }
    ensures down { (S.meaning shelf.new).down ≡ (S.meaning shelf.old).down }
    ensures shown { OnOk result (Read (inner_meaning core.old.inner (S.meaning shelf.old)) vol block into.new) }
    ensures same { core.new.inner.config ≡ core.old.inner.config }
    ensures held { core.new.held ≡ core.old.held }
    ensures settled { core.new.inner.unsettled ≡ core.old.inner.unsettled }
    ensures trusted { (core.new.inner.committed ≡ core.old.inner.committed) × (core.new.inner.agreed ≡ core.old.inner.agreed) }
    ensures below { Goes Nothing (S.meaning shelf.old) (S.meaning shelf.new) }
    ensures counts { CountsOnly vol result (inner_meaning (wide core.old) (S.meaning shelf.old)).faults (inner_meaning (wide core.new) (S.meaning shelf.new)).faults }
    ensures turn { ReadsInTurn core.old.inner.config vol core.old.inner.next core.new.inner.next block (length into.old / BLOCK) into.new (S.meaning shelf.old) (S.meaning shelf.new) result }
    ensures unsure { core.new.inner.unsure ≡ core.old.inner.unsure }
    ensures cause { Cause (inner_meaning (wide core.old) (S.meaning shelf.old)) (inner_meaning (wide core.new) (S.meaning shelf.new)) vol result }
{
    read_in(shelf, core, vol, block, into)
}
