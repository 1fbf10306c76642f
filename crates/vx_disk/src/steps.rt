// A write and a flush.
ghost use Rattle.std.specs.Prelude.{length, OnOk};
ghost use Rattle.vx_disk.specs.Burns.{MakesCalls};
ghost use Rattle.vx_disk.specs.Causes.{Cause, Names};
ghost use Rattle.vx_disk.specs.Shelf.{Fits, Goes, Written, HoldsAll, KeepsAll};
ghost use Rattle.vx_disk.specs.Spends.{Spends};

use crate::{Shelf, ShelfError};

/// Writes a run of whole blocks of one unit, and makes it durable. After an error each of the blocks may hold its old or its
/// new value.
pub fn put<S: Shelf>(shelf: &mut S, unit: u32, block: u64, bytes: &[u8]) -> Result<(), ShelfError>
    requires { Fits (S.meaning shelf.old) unit block (length bytes.now) }
    ensures goes { Goes (Written unit block bytes.now) (S.meaning shelf.old) (S.meaning shelf.new) }
    ensures kept { OnOk result (KeepsAll (S.meaning shelf.new) unit block bytes.now) }
    ensures holds { OnOk result (HoldsAll (S.meaning shelf.new) unit block bytes.now) }
    ensures cause { Cause (S.meaning shelf.old) (S.meaning shelf.new) unit result }
    ensures calls { OnOk result (MakesCalls 2 (S.meaning shelf.old) (S.meaning shelf.new)) }
    ensures spends { Spends (S.meaning shelf.old) (S.meaning shelf.new) }
    ensures names { Names (S.meaning shelf.old).disks unit result }
{
    shelf.write(unit, block, bytes)?;
    shelf.flush(unit)
}
