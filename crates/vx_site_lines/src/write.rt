// What a line that writes blocks does.
ghost use Rattle.std.specs.Prelude.{◌≡◌, ◌≤◌, ◌<◌, ◌*◌, ◌%◌, false, true, length, min, replicate};
ghost use Rattle.vx_history.specs.Doubts.{Doubted};
ghost use Rattle.vx_script.specs.declared.line.ScriptLine.{ScriptLine};
ghost use Rattle.vx_script.specs.declared.line.ScriptLine.TheVariants.{Write as WriteLine, Put as PutLine};
ghost use Rattle.vx_events.specs.Facts.{site_number};
ghost use Rattle.vx_events.specs.RvgOver.{is_plain_kind, kind_named};
ghost use Rattle.vx_events.specs.RvgSteps.{is_for_rvg, over_rvg_at};
ghost use Rattle.vx_events.specs.StepsOver.{is_for_group};
ghost use Rattle.vx_yard.specs.OfSites.{AsAsked, HasCalled, OfSite};
ghost use Rattle.vx_diskset.specs.Asked.{WritesUnder};
ghost use Rattle.vx_yard.specs.Working.{IsFree, IsUngroupedAt};
ghost use Rattle.vx_yard.specs.AboveLines.{LeadsAbove};
ghost use Rattle.vx_yard.specs.Standing.{Leads, StandsFor};
ghost use Rattle.vx_yard.specs.Writes.{IsWriteFree, IsWriteLine};
ghost use Rattle.vx_yard.specs.Yards.{IsYardKept, IsTold, in_files};

use crate::noting::{note_unwritten, note_written};
use std::alloc::Global;
use vx_disk::Rack;
use vx_events::Said;
use vx_linked::hold_of_site;
use vx_model::limits::{BLOCK, MOST_CALL_BLOCKS, MOST_CALL_BYTES};
use vx_model::{Block, Name};
use vx_yard::Yard;
use vx_yard::load::let_go_if_down;

/// Writes whole blocks to a volume of a site. What its links do not need any more may be given up for it.
fn write_blocks<R: Rack>(
    yard: &mut Yard<R>,
    alloc: Global,
    name: &Name,
    volume: &Name,
    start: u64,
    bytes: &[u8],
) -> Said
    requires some { 0 < length bytes.now }
    requires few { length bytes.now ≤ MOST_CALL_BYTES }
    requires whole { length bytes.now % BLOCK ≡ 0 }
    requires kept { IsYardKept yard.old }
    requires free { IsWriteFree yard.old name.now volume.now start bytes.now }
    ensures leads { (d : Doubted) (line : ScriptLine) → StandsFor d yard.old → IsUngroupedAt d.world name.now → IsWriteLine line name.now volume.now start bytes.now → IsFree yard.old line → Leads d line result yard.old yard.new }
    ensures above { (d : Doubted) (line : ScriptLine) → StandsFor d yard.old → over_rvg_at d.world name.now ≡ true → is_plain_kind (kind_named (d.world.nodes (site_number d.world name.now)) volume.now) ≡ false
        → IsWriteLine line name.now volume.now start bytes.now → IsFree yard.old line → LeadsAbove d line result yard.old yard.new }
    ensures called { (d : Doubted) → StandsFor d yard.old → IsUngroupedAt d.world name.now → OfSite (WritesUnder bytes.now result) (site_number d.world name.now) yard.old yard.new }
    ensures told { IsTold yard.new → IsTold yard.old }
    ensures files { in_files yard.new ≡ in_files yard.old }
{
    let site = yard.site_of(name);
    let place = yard.volume_of(site, volume);
    let count = (bytes.len() / BLOCK) as u64;
    let next = yard.disk_sets[site].last().saturating_add(1);
    let hold = hold_of_site(&yard.facts[site]);
    match yard.disk_sets[site].write_keeping(place as u32, start, bytes, hold) {
        Ok(number) => note_written(&mut yard.facts[site], number, count),
        Err(no) => {
            let_go_if_down(&mut yard.assemblies, site, &no);
            note_unwritten(alloc, &mut yard.facts[site], next, count, no)
        }
    }
}

/// Writes blocks that are filled with one byte.
pub fn write_line<R: Rack>(
    yard: &mut Yard<R>,
    alloc: Global,
    name: &Name,
    volume: &Name,
    start: u64,
    count: u64,
    fill: u8,
    bytes: &[u8],
) -> Said
    requires bytes { bytes.now ≡ replicate (BLOCK * min count MOST_CALL_BLOCKS) fill }
    requires kept { IsYardKept yard.old }
    requires free { IsFree yard.old (WriteLine name.now volume.now start count fill) }
    ensures leads { (d : Doubted) → StandsFor d yard.old → is_for_group d.world (WriteLine name.now volume.now start count fill) ≡ false → is_for_rvg d.world (WriteLine name.now volume.now start count fill) ≡ false → Leads d (WriteLine name.now volume.now start count fill) result yard.old yard.new }
    ensures above { (d : Doubted) → StandsFor d yard.old → over_rvg_at d.world name.now ≡ true → is_plain_kind (kind_named (d.world.nodes (site_number d.world name.now)) volume.now) ≡ false
        → LeadsAbove d (WriteLine name.now volume.now start count fill) result yard.old yard.new }
    ensures asked { (d : Doubted) → StandsFor d yard.old → is_for_group d.world (WriteLine name.now volume.now start count fill) ≡ false → is_for_rvg d.world (WriteLine name.now volume.now start count fill) ≡ false → AsAsked d.world (WriteLine name.now volume.now start count fill) yard.old yard.new }
    ensures called { (d : Doubted) → StandsFor d yard.old → is_for_group d.world (WriteLine name.now volume.now start count fill) ≡ false → is_for_rvg d.world (WriteLine name.now volume.now start count fill) ≡ false → HasCalled d.world (WriteLine name.now volume.now start count fill) result yard.old yard.new }
    ensures told { IsTold yard.new → IsTold yard.old }
    ensures files { in_files yard.new ≡ in_files yard.old }
{
    if count < 1 || count > MOST_CALL_BLOCKS {
        unreachable!();
    }
    write_blocks(yard, alloc, name, volume, start, bytes)
}

/// Writes one block of these bytes.
pub fn put_line<R: Rack>(
    yard: &mut Yard<R>,
    alloc: Global,
    name: &Name,
    volume: &Name,
    start: u64,
    bytes: &Block,
) -> Said
    requires kept { IsYardKept yard.old }
    requires free { IsFree yard.old (PutLine name.now volume.now start bytes.now) }
    ensures leads { (d : Doubted) → StandsFor d yard.old → is_for_group d.world (PutLine name.now volume.now start bytes.now) ≡ false → is_for_rvg d.world (PutLine name.now volume.now start bytes.now) ≡ false → Leads d (PutLine name.now volume.now start bytes.now) result yard.old yard.new }
    ensures above { (d : Doubted) → StandsFor d yard.old → over_rvg_at d.world name.now ≡ true → is_plain_kind (kind_named (d.world.nodes (site_number d.world name.now)) volume.now) ≡ false
        → LeadsAbove d (PutLine name.now volume.now start bytes.now) result yard.old yard.new }
    ensures asked { (d : Doubted) → StandsFor d yard.old → is_for_group d.world (PutLine name.now volume.now start bytes.now) ≡ false → is_for_rvg d.world (PutLine name.now volume.now start bytes.now) ≡ false → AsAsked d.world (PutLine name.now volume.now start bytes.now) yard.old yard.new }
    ensures called { (d : Doubted) → StandsFor d yard.old → is_for_group d.world (PutLine name.now volume.now start bytes.now) ≡ false → is_for_rvg d.world (PutLine name.now volume.now start bytes.now) ≡ false → HasCalled d.world (PutLine name.now volume.now start bytes.now) result yard.old yard.new }
    ensures told { IsTold yard.new → IsTold yard.old }
    ensures files { in_files yard.new ≡ in_files yard.old }
{
    write_blocks(yard, alloc, name, volume, start, bytes.as_bytes())
}
