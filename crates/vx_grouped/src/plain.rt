// Writes and reads of a volume of a group.
ghost use Rattle.std.specs.Prelude.{◌≡◌, Err, IfErr, OnOk, length, true, ℕ};
ghost use Rattle.vx_disk.specs.Causes.{DeviceCause};
ghost use Rattle.vx_disk.specs.Racks.{IsRack};
ghost use Rattle.vx_disk.specs.Shelf.{Fits, Goes, Nothing, Written};
ghost use Rattle.vx_group.specs.GivesUp.{EachBlamed};
ghost use Rattle.vx_group.specs.Holding.{wide};
ghost use Rattle.vx_group.specs.Loses.{LosesPlexes};
ghost use Rattle.vx_group.specs.Stands.{inner_meaning};
ghost use Rattle.vx_grouped.specs.CoreMoves.{BothOn};
ghost use Rattle.vx_grouped.specs.Ends.{WriteLeaves, plain_write};
ghost use Rattle.vx_grouped.specs.GroupNotes.{IsGroupAt};
ghost use Rattle.vx_grouped.specs.Plain.{HoldsPlain, ReadsPlain};
ghost use Rattle.vx_grouped.specs.PlainMaps.{WritesMaps, map_parts};
ghost use Rattle.vx_history.specs.Groups.{GroupNode};
ghost use Rattle.vx_history.specs.World.{Node};
ghost use Rattle.vx_model.specs.declared.no.No.TheVariants.{Device};

use vx_disk::{Shelf, refusal};
use vx_loggroup::LoggedGroup;
use vx_model::No;
use vx_model::limits::BLOCK;

/// Writes whole blocks to a volume of a group over a rack, and makes them durable.
///
/// Answers 7 only where the count of the disk that it names rose, and 6 only where the shelf is then down: each block of the write is then as it
/// was or as it was to be. Nothing else is answered. Plexes may be detached, of which a disk failed.
pub fn write_plain<S: Shelf>(
    group: &mut LoggedGroup<S>,
    vol: u32,
    block: u64,
    bytes: &[u8],
) -> Result<(), No>
    requires rack { (s : S) → IsRack (S.meaning s) }
    requires fits { Fits (inner_meaning (wide group.old.core) (S.meaning group.old.shelf)) vol block (length bytes.now) }
    ensures leaves { (n : Node) (note : GroupNode) → IsGroupAt n note group.old.core (S.meaning group.old.shelf) → WriteLeaves n note (plain_write vol block bytes.now) group.new.core (S.meaning group.new.shelf) result }
    ensures goes { Goes (Written vol block bytes.now) (inner_meaning (wide group.old.core) (S.meaning group.old.shelf)) (inner_meaning (wide group.new.core) (S.meaning group.new.shelf)) }
    ensures loses { LosesPlexes group.old.core.inner.config group.new.core.inner.config (S.meaning group.old.shelf) (S.meaning group.new.shelf) }
    ensures on { BothOn group.old.core.inner.config group.new.core.inner.config (S.meaning group.old.shelf).units }
    ensures trust { OnOk result (group.old.core.inner.committed ≡ true → group.new.core.inner.committed ≡ true) }
    ensures agreed { IfErr result (λ no. group.old.core.inner.committed ≡ true → group.new.core.inner.agreed ≡ true) }
    ensures cause { IfErr result (DeviceCause (S.meaning group.old.shelf) (S.meaning group.new.shelf)) }
    ensures maps { WritesMaps (plain_write vol block bytes.now) (map_parts group.old.core.inner.config group.old.logs.items group.old.alike group.old.stopped) (S.meaning group.old.shelf) (map_parts group.new.core.inner.config group.new.logs.items group.new.alike group.new.stopped) (S.meaning group.new.shelf) result }
{
    match group.write(vol, block, bytes) {
        Ok(()) => {}
        Err(error) => return Err(refusal(error)),
    }
    match group.flush_run(vol, block, (bytes.len() / BLOCK) as u64) {
        Ok(()) => Ok(()),
        Err(error) => Err(refusal(error)),
    }
}

/// Reads whole blocks of a volume: of each a value that it may have. What is noted of the group stays.
///
/// Answers 7 only where the count of the disk that it names rose, and where a call on a disk of each plex failed that takes part; 6 only where the shelf is
/// down; nothing else.
pub fn read_plain<S: Shelf>(
    group: &mut LoggedGroup<S>,
    vol: u32,
    block: u64,
    into: &mut [u8],
) -> Result<(), No>
    requires fits { Fits (inner_meaning (wide group.old.core) (S.meaning group.old.shelf)) vol block (length into.old) }
    ensures reads { (note : GroupNode) → HoldsPlain note (inner_meaning (wide group.old.core) (S.meaning group.old.shelf)) → OnOk result (ReadsPlain note (S.meaning group.old.shelf) vol block into.new) }
    ensures stays { (n : Node) (note : GroupNode) → IsGroupAt n note group.old.core (S.meaning group.old.shelf) → IsGroupAt n note group.new.core (S.meaning group.new.shelf) }
    ensures goes { Goes Nothing (inner_meaning (wide group.old.core) (S.meaning group.old.shelf)) (inner_meaning (wide group.new.core) (S.meaning group.new.shelf)) }
    ensures same { group.new.core.inner.config ≡ group.old.core.inner.config }
    ensures below { Goes Nothing (S.meaning group.old.shelf) (S.meaning group.new.shelf) }
    ensures gives_up { (disk : ℕ) → result ≡ Err (Device disk) → EachBlamed group.old.core.inner.config vol (S.meaning group.old.shelf) (S.meaning group.new.shelf) }
    ensures cause { IfErr result (DeviceCause (S.meaning group.old.shelf) (S.meaning group.new.shelf)) }
    ensures maps { map_parts group.new.core.inner.config group.new.logs.items group.new.alike group.new.stopped ≡ map_parts group.old.core.inner.config group.old.logs.items group.old.alike group.old.stopped }
{
    match group.read(vol, block, into) {
        Ok(()) => Ok(()),
        Err(failed) => Err(refusal(failed)),
    }
}
