// The lines that read blocks.
ghost use Rattle.std.specs.Prelude.{◌≡◌, ◌≤◌, ◌<◌, ◌*◌, ℕ, Some, length, false, true};
ghost use Rattle.vx_history.specs.Doubts.{Doubted};
ghost use Rattle.vx_history.specs.World.{Node};
ghost use Rattle.vx_model.specs.Sites.{is_origin};
ghost use Rattle.vx_order.specs.declared.facts.VolumeKind.TheVariants.{Data};
ghost use Rattle.vx_script.specs.declared.line.ScriptLine.{ScriptLine};
ghost use Rattle.vx_script.specs.declared.line.ScriptLine.TheVariants.{Read as ReadLine, Show as ShowLine};
ghost use Rattle.vx_events.specs.Facts.{seat_of, site_number};
ghost use Rattle.vx_events.specs.RvgOver.{kind_named};
ghost use Rattle.vx_events.specs.RvgSteps.{is_for_rvg, over_rvg_at};
ghost use Rattle.vx_events.specs.StepsOver.{is_for_group};
ghost use Rattle.vx_yard.specs.OfSites.{AsAsked, OfSite};
ghost use Rattle.vx_diskset.specs.Asked.{IsRawSet, LeavesAlone};
ghost use Rattle.vx_diskset.specs.DiskSets.{CanRead, Later};
ghost use Rattle.vx_diskset.specs.Fetching.{GaveAt};
ghost use Rattle.vx_diskset.specs.Holds.{KeptBeside};
ghost use Rattle.vx_diskset.specs.Noted.{NotesOn};
ghost use Rattle.vx_diskset.specs.Stands.{KeepsRole, SiteStands};
ghost use Rattle.vx_site_lines.specs.Fetching.{IsFetchFree, IsReadLine, IsBlockRoom};
ghost use Rattle.vx_yard.specs.AboveLines.{LeadsAbove};
ghost use Rattle.vx_yard.specs.Standing.{Leads, StandsFor};
ghost use Rattle.vx_yard.specs.Working.{IsFree, IsUngroupedAt};
ghost use Rattle.vx_yard.specs.Yards.{IsYardKept, IsTold, in_files};

use crate::shown::show_received;
use vx_disk::Rack;
use vx_diskset::DiskSet;
use vx_events::Said;
use vx_model::limits::{BLOCK, MOST_CALL_BLOCKS};
use vx_model::{Bytes, Name, No};
use vx_yard::Yard;
use vx_yard::receiving::receives;

// So many blocks of a volume, by its number, read into a place for them.
fn blocks_of<R: Rack>(
    disk_set: &mut DiskSet<R>,
    volume: u32,
    start: u64,
    count: u64,
    mut room: Vec<u8>,
) -> Result<Bytes, No>
    requires some { 0 < count }
    requires few { count ≤ MOST_CALL_BLOCKS }
    requires room { length room.items ≡ BLOCK * count }
    ensures read { (beside : KeptBeside) (n : Node) → SiteStands beside n disk_set.old → CanRead n volume start count → GaveAt beside n volume start count disk_set.old disk_set.new result }
    ensures role { KeepsRole disk_set.old disk_set.new }
    ensures notes { NotesOn disk_set.old disk_set.new }
    ensures still { IsRawSet disk_set.old → LeavesAlone disk_set.old disk_set.new }
    ensures later { Later disk_set.old disk_set.new }
{
    disk_set.read(volume, start, &mut room)?;
    Ok(Bytes::new(room))
}

/// Reads blocks of a volume, as a `read` line asks.
pub fn read_line<R: Rack>(
    yard: &mut Yard<R>,
    name: &Name,
    volume: &Name,
    start: u64,
    count: u64,
    room: Vec<u8>,
) -> Said
    requires room { IsBlockRoom count room.items }
    requires kept { IsYardKept yard.old }
    requires free { IsFree yard.old (ReadLine name.now volume.now start count) }
    ensures leads { (d : Doubted) → StandsFor d yard.old → is_for_group d.world (ReadLine name.now volume.now start count) ≡ false → is_for_rvg d.world (ReadLine name.now volume.now start count) ≡ false → Leads d (ReadLine name.now volume.now start count) result yard.old yard.new }
    ensures above { (d : Doubted) → StandsFor d yard.old → over_rvg_at d.world name.now ≡ true → kind_named (d.world.nodes (site_number d.world name.now)) volume.now ≡ Data → LeadsAbove d (ReadLine name.now volume.now start count) result yard.old yard.new }
    ensures asked { (d : Doubted) → StandsFor d yard.old → is_for_group d.world (ReadLine name.now volume.now start count) ≡ false → is_for_rvg d.world (ReadLine name.now volume.now start count) ≡ false → AsAsked d.world (ReadLine name.now volume.now start count) yard.old yard.new }
    ensures told { IsTold yard.new → IsTold yard.old }
    ensures files { in_files yard.new ≡ in_files yard.old }
{
    fetch(yard, name, volume, start, count, room)
}

/// Reads blocks of a volume, as a `show` line asks: at a site that receives with all writes that came to it.
pub fn show_line<R: Rack>(
    yard: &mut Yard<R>,
    name: &Name,
    volume: &Name,
    start: u64,
    count: u64,
    room: Vec<u8>,
) -> Said
    requires room { IsBlockRoom count room.items }
    requires kept { IsYardKept yard.old }
    requires free { IsFree yard.old (ShowLine name.now volume.now start count) }
    ensures leads { (d : Doubted) → StandsFor d yard.old → is_for_group d.world (ShowLine name.now volume.now start count) ≡ false → is_for_rvg d.world (ShowLine name.now volume.now start count) ≡ false → Leads d (ShowLine name.now volume.now start count) result yard.old yard.new }
    ensures above { (d : Doubted) → StandsFor d yard.old → over_rvg_at d.world name.now ≡ true → kind_named (d.world.nodes (site_number d.world name.now)) volume.now ≡ Data → LeadsAbove d (ShowLine name.now volume.now start count) result yard.old yard.new }
    ensures asked { (d : Doubted) → StandsFor d yard.old → is_for_group d.world (ShowLine name.now volume.now start count) ≡ false → is_for_rvg d.world (ShowLine name.now volume.now start count) ≡ false → AsAsked d.world (ShowLine name.now volume.now start count) yard.old yard.new }
    ensures told { IsTold yard.new → IsTold yard.old }
    ensures files { in_files yard.new ≡ in_files yard.old }
{
    let site = yard.site_of(name);
    if receives(&yard.disk_sets[site]) {
        return show_received(yard, name, volume, start, count, room);
    }
    fetch(yard, name, volume, start, count, room)
}

// Reads blocks of a volume of a site where writes arise. The tests of the line left no other case than that all of it is there.
fn fetch<R: Rack>(
    yard: &mut Yard<R>,
    name: &Name,
    volume: &Name,
    start: u64,
    count: u64,
    room: Vec<u8>,
) -> Said
    requires room { IsBlockRoom count room.items }
    requires kept { IsYardKept yard.old }
    requires free { IsFetchFree yard.old name.now volume.now start count }
    ensures leads { (d : Doubted) (line : ScriptLine) → StandsFor d yard.old → IsUngroupedAt d.world name.now → IsReadLine line name.now volume.now start count → IsFree yard.old line
        → ((s : ℕ) → seat_of yard.old.facts.items name.now ≡ Some s → is_origin (d.world.nodes s).role ≡ true) → Leads d line result yard.old yard.new }
    ensures above { (d : Doubted) (line : ScriptLine) → StandsFor d yard.old → over_rvg_at d.world name.now ≡ true → kind_named (d.world.nodes (site_number d.world name.now)) volume.now ≡ Data → IsReadLine line name.now volume.now start count
        → IsFree yard.old line → ((s : ℕ) → seat_of yard.old.facts.items name.now ≡ Some s → is_origin (d.world.nodes s).role ≡ true) → LeadsAbove d line result yard.old yard.new }
    ensures asked { (d : Doubted) → StandsFor d yard.old → IsUngroupedAt d.world name.now → OfSite LeavesAlone (site_number d.world name.now) yard.old yard.new }
    ensures told { IsTold yard.new → IsTold yard.old }
    ensures files { in_files yard.new ≡ in_files yard.old }
{
    let site = yard.site_of(name);
    let place = yard.volume_of(site, volume);
    if count == 0 || count > MOST_CALL_BLOCKS {
        unreachable!();
    }
    match blocks_of(&mut yard.disk_sets[site], place as u32, start, count, room) {
        Ok(blocks) => Said::Got(blocks),
        Err(no) => Said::Refused(no),
    }
}
