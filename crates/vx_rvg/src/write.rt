// The logging of a write: it is staged, and sealed at once.
ghost use Rattle.std.specs.Prelude.{◌≡◌, ◌+◌, ◌<◌, ◌≤◌, [], ◌∷◌, length, None, IfErr, IsFalse, IsSome, OnOk};
ghost use Rattle.vx_disk.specs.Moves.{Moves, Run};
ghost use Rattle.vx_model.specs.Content.{Write, blocks_in};
ghost use Rattle.vx_ringio.specs.Bodies.{IsBlocks};
ghost use Rattle.vx_disk.specs.Burns.{FallsShort, MakesCalls};
ghost use Rattle.vx_disk.specs.Causes.{BlamesUnit, Works};
ghost use Rattle.vx_disk.specs.Spends.{MakesAtLeast, Spends};
ghost use Rattle.vx_srl.specs.Views.{BodyFits, free_of, blocks_needed, most_number};
ghost use Rattle.vx_rvg.specs.Groups.{WriteIs, Writes, no_of, write_refusal};
ghost use Rattle.vx_rvg.specs.Holdings.{Holding, with_writes};
ghost use Rattle.vx_rvg.specs.Stands.{Stands, Writing};
ghost use Rattle.vx_rvg.specs.Views.{IsSound, last_of, unit_of, volume_size};

use crate::RvgCore;
use crate::seal::seal_records;
use crate::stage::stage_record;
use vx_disk::Shelf;
use vx_model::No;
use vx_model::limits::BLOCK;
use vx_srl::SrlNo;

// A refusal of the log. One for want of room does not come where the record fits.
pub(crate) fn refused(why: SrlNo) -> No
    ensures { result ≡ no_of why }
{
    match why {
        SrlNo::Other(no) => no,
        SrlNo::NoRoom { need: _, free: _ } => No::Size,
        SrlNo::Overrun { low: _ } => No::Size,
    }
}

/// Logs a write, and keeps its blocks until they are applied. A device call that fails halts the group.
pub(crate) fn commit<S: Shelf>(
    shelf: &mut S,
    core: &mut RvgCore,
    vol: u32,
    start: u64,
    bytes: &[u8],
) -> Result<u64, No>
    requires sound { IsSound core.old (S.meaning shelf.old) }
    requires some { 0 < core.old.log.header.low }
    requires running { core.old.halted ≡ None }
    requires up { IsFalse (S.meaning shelf.old).down }
    requires volume { vol < length core.old.units.vols }
    requires blocks { IsBlocks bytes.now }
    requires room { blocks_needed bytes.now ≤ free_of core.old.log }
    requires within { start + blocks_in bytes.now ≤ volume_size core.old.units.vols (S.meaning shelf.old) vol }
    requires number { last_of core.old < most_number }
    ensures writes { Writes core.old vol start bytes.now (S.meaning shelf.old) (S.meaning shelf.new) core.new result }
    ensures sound { IsSound core.new (S.meaning shelf.new) }
    ensures stands { OnOk result ((h : Holding) → Stands core.old h (S.meaning shelf.old)
        → Stands core.new (with_writes (record { volume = vol; start = start; bytes = bytes.now } ∷ []) h) (S.meaning shelf.new)) }
    ensures moves { Moves (Run core.old.units.srl 0 (core.old.log.ring + 2))
        (Writing core.old (record { volume = vol; start = start; bytes = bytes.now } ∷ []) (S.meaning shelf.old))
        (S.meaning shelf.old) (S.meaning shelf.new) }
    ensures calls { OnOk result (BodyFits core.old.log bytes.now → MakesCalls 4 (S.meaning shelf.old) (S.meaning shelf.new)) }
    ensures short { BodyFits core.old.log bytes.now → FallsShort 4 (S.meaning shelf.old) (S.meaning shelf.new) }
    ensures blames { IfErr result (BlamesUnit (S.meaning shelf.old).disks core.old.log.unit) }
    ensures least { OnOk result (MakesAtLeast 4 (S.meaning shelf.old) (S.meaning shelf.new)) }
    ensures spends { Spends (S.meaning shelf.old) (S.meaning shelf.new) }
    ensures works { OnOk result (Works (S.meaning shelf.old).disks core.old.log.unit) }
{
    let before = core.pending.len();
    if let Err(no) = stage_record(shelf, core, vol, start, bytes) {
        return Err(no);
    }
    match seal_records(shelf, core) {
        Ok(number) => Ok(number),
        Err(no) => {
            core.pending.keep_oldest(before);
            Err(no)
        }
    }
}

/// Logs a write whose regions are marked in no map.
pub(crate) fn write_plain<S: Shelf>(
    shelf: &mut S,
    core: &mut RvgCore,
    vol: u32,
    start: u64,
    bytes: &[u8],
) -> Result<u64, No>
    requires sound { IsSound core.old (S.meaning shelf.old) }
    requires volume { vol < length core.old.units.vols }
    requires blocks { IsBlocks bytes.now }
    requires room { write_refusal core.old ((S.meaning shelf.old).size (unit_of core.old.units.vols vol)) start (blocks_in bytes.now) ≡ None → blocks_needed bytes.now ≤ free_of core.old.log }
    ensures answers { WriteIs (write_refusal core.old ((S.meaning shelf.old).size (unit_of core.old.units.vols vol)) start (blocks_in bytes.now))
        core.old vol start bytes.now (S.meaning shelf.old) (S.meaning shelf.new) core.new result }
    ensures unchanged { IsSome (write_refusal core.old ((S.meaning shelf.old).size (unit_of core.old.units.vols vol)) start (blocks_in bytes.now)) → shelf.new ≡ shelf.old }
    ensures sound { IsSound core.new (S.meaning shelf.new) }
    ensures maps { core.new.maps ≡ core.old.maps }
    ensures stands { OnOk result ((h : Holding) → Stands core.old h (S.meaning shelf.old)
        → Stands core.new (with_writes (record { volume = vol; start = start; bytes = bytes.now } ∷ []) h) (S.meaning shelf.new)) }
    ensures moves { Moves (Run core.old.units.srl 0 (core.old.log.ring + 2))
        (Writing core.old (record { volume = vol; start = start; bytes = bytes.now } ∷ []) (S.meaning shelf.old)) (S.meaning shelf.old) (S.meaning shelf.new) }
    ensures calls { OnOk result (BodyFits core.old.log bytes.now → MakesCalls 4 (S.meaning shelf.old) (S.meaning shelf.new)) }
    ensures short { BodyFits core.old.log bytes.now → FallsShort 4 (S.meaning shelf.old) (S.meaning shelf.new) }
    ensures blames { IfErr result (BlamesUnit (S.meaning shelf.old).disks core.old.log.unit) }
    ensures least { OnOk result (MakesAtLeast 4 (S.meaning shelf.old) (S.meaning shelf.new)) }
    ensures spends { Spends (S.meaning shelf.old) (S.meaning shelf.new) }
    ensures works { OnOk result (Works (S.meaning shelf.old).disks core.old.log.unit) }
{
    let unit = core.unit(vol);
    let size = shelf.size(unit);
    if let Some(no) = core.write_refusal(size, start, (bytes.len() / BLOCK) as u64) {
        return Err(no);
    }
    if shelf.is_down() {
        return Err(No::Down);
    }
    commit(shelf, core, vol, start, bytes)
}
