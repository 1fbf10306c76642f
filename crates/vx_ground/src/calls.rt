// Calls on a group of which a failed one names a disk by a number of 32 bits.
ghost use Rattle.std.specs.Prelude.{◌≡◌, ◌<◌, OnOk, length, true};
ghost use Rattle.vx_disk.specs.Causes.{Calls, Cause, Names, OnDisks, Works};
ghost use Rattle.vx_disk.specs.Shelf.{DisksFlushed, DisksWrote, Fits, Flushed, Goes, Nothing, Written, Wrote};
ghost use Rattle.vx_group.specs.Finds.{GroupFinds};
ghost use Rattle.vx_group.specs.Holding.{wide};
ghost use Rattle.vx_group.specs.Loses.{LosesPlexes};
ghost use Rattle.vx_group.specs.Stands.{inner_meaning};
ghost use Rattle.vx_ground.specs.Accounts.{FewDisk};

use crate::numbers::few_disk;
use vx_disk::{Shelf, ShelfError};
use vx_loggroup::LoggedGroup;

/// Writes to a volume of the group.
pub(crate) fn write_few<S: Shelf>(
    group: &mut LoggedGroup<S>,
    unit: u32,
    block: u64,
    bytes: &[u8],
) -> Result<(), ShelfError>
    requires fits { Fits (inner_meaning (wide group.old.core) (S.meaning group.old.shelf)) unit block (length bytes.now) }
    ensures goes { Goes (Written unit block bytes.now) (inner_meaning (wide group.old.core) (S.meaning group.old.shelf)) (inner_meaning (wide group.new.core) (S.meaning group.new.shelf)) }
    ensures ok { OnOk result (Wrote unit block bytes.now (inner_meaning (wide group.old.core) (S.meaning group.old.shelf)) (inner_meaning (wide group.new.core) (S.meaning group.new.shelf))) }
    ensures cause { Cause (inner_meaning (wide group.old.core) (S.meaning group.old.shelf)) (inner_meaning (wide group.new.core) (S.meaning group.new.shelf)) unit result }
    ensures names { Names (inner_meaning (wide group.old.core) (S.meaning group.old.shelf)).disks unit result }
    ensures works { OnOk result (Works (inner_meaning (wide group.old.core) (S.meaning group.old.shelf)).disks unit) }
    ensures disks { OnDisks (inner_meaning (wide group.old.core) (S.meaning group.old.shelf)).disks (inner_meaning (wide group.new.core) (S.meaning group.new.shelf)).disks (λ o n. Calls (inner_meaning (wide group.old.core) (S.meaning group.old.shelf)) (DisksWrote unit block bytes.now) o n result) }
    ensures loses { LosesPlexes group.old.core.inner.config group.new.core.inner.config (S.meaning group.old.shelf) (S.meaning group.new.shelf) }
    ensures trust { OnOk result (group.old.core.inner.committed ≡ true → group.new.core.inner.committed ≡ true) }
    ensures finds { GroupFinds group.old.core group.new.core (S.meaning group.old.shelf) (S.meaning group.new.shelf) }
    ensures few { FewDisk result }
{
    let answer = group.write(unit, block, bytes);
    few_disk(&answer);
    answer
}

/// Flushes a volume of the group.
pub(crate) fn flush_few<S: Shelf>(group: &mut LoggedGroup<S>, unit: u32) -> Result<(), ShelfError>
    requires there { unit < (inner_meaning (wide group.old.core) (S.meaning group.old.shelf)).units }
    ensures goes { Goes Nothing (inner_meaning (wide group.old.core) (S.meaning group.old.shelf)) (inner_meaning (wide group.new.core) (S.meaning group.new.shelf)) }
    ensures ok { OnOk result (Flushed unit (inner_meaning (wide group.old.core) (S.meaning group.old.shelf)) (inner_meaning (wide group.new.core) (S.meaning group.new.shelf))) }
    ensures cause { Cause (inner_meaning (wide group.old.core) (S.meaning group.old.shelf)) (inner_meaning (wide group.new.core) (S.meaning group.new.shelf)) unit result }
    ensures names { Names (inner_meaning (wide group.old.core) (S.meaning group.old.shelf)).disks unit result }
    ensures works { OnOk result (Works (inner_meaning (wide group.old.core) (S.meaning group.old.shelf)).disks unit) }
    ensures disks { OnDisks (inner_meaning (wide group.old.core) (S.meaning group.old.shelf)).disks (inner_meaning (wide group.new.core) (S.meaning group.new.shelf)).disks (λ o n. Calls (inner_meaning (wide group.old.core) (S.meaning group.old.shelf)) (DisksFlushed unit) o n result) }
    ensures loses { LosesPlexes group.old.core.inner.config group.new.core.inner.config (S.meaning group.old.shelf) (S.meaning group.new.shelf) }
    ensures trust { OnOk result (group.old.core.inner.committed ≡ true → group.new.core.inner.committed ≡ true) }
    ensures finds { GroupFinds group.old.core group.new.core (S.meaning group.old.shelf) (S.meaning group.new.shelf) }
    ensures few { FewDisk result }
{
    let answer = group.flush(unit);
    few_disk(&answer);
    answer
}
