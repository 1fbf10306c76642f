// Blocks that a site which receives shows.
ghost use Rattle.std.specs.Prelude.{◌≡◌, ◌≤◌, ◌<◌, ◌*◌, ℕ, Some, true, false, length};
ghost use Rattle.vx_diskset.specs.Asked.{IsRawSet, LeavesAlone};
ghost use Rattle.vx_diskset.specs.DiskSets.{CanRead, Later};
ghost use Rattle.vx_diskset.specs.Holds.{KeptBeside};
ghost use Rattle.vx_diskset.specs.Noted.{NotesOn};
ghost use Rattle.vx_diskset.specs.Stands.{KeepsRole, SiteStands};
ghost use Rattle.vx_events.specs.Facts.{seat_of, site_number};
ghost use Rattle.vx_events.specs.RvgOver.{kind_named};
ghost use Rattle.vx_events.specs.RvgSteps.{over_rvg_at};
ghost use Rattle.vx_history.specs.Doubts.{Doubted};
ghost use Rattle.vx_history.specs.World.{Node};
ghost use Rattle.vx_model.specs.Sites.{is_origin};
ghost use Rattle.vx_order.specs.declared.facts.VolumeKind.TheVariants.{Data};
ghost use Rattle.vx_script.specs.declared.line.ScriptLine.TheVariants.{Show as ShowLine};
ghost use Rattle.vx_site_lines.specs.Fetching.{IsBlockRoom};
ghost use Rattle.vx_yard.specs.OfSites.{OfSite};
ghost use Rattle.vx_site_lines.specs.Shown.{GaveShownAt};
ghost use Rattle.vx_yard.specs.AboveLines.{LeadsAbove};
ghost use Rattle.vx_yard.specs.Standing.{Leads, StandsFor};
ghost use Rattle.vx_yard.specs.Working.{IsFree, IsUngroupedAt};
ghost use Rattle.vx_yard.specs.Yards.{IsYardKept, IsTold, in_files};

use vx_disk::Rack;
use vx_diskset::DiskSet;
use vx_events::Said;
use vx_model::limits::{BLOCK, MOST_CALL_BLOCKS};
use vx_model::{Bytes, Name, No};
use vx_yard::Yard;

// So many blocks of a volume, by its number, with all writes that came to the site, read into a place for them.
fn shown_of<R: Rack>(
    disk_set: &mut DiskSet<R>,
    volume: u32,
    start: u64,
    count: u64,
    mut room: Vec<u8>,
) -> Result<Bytes, No>
    requires some { 0 < count }
    requires few { count ≤ MOST_CALL_BLOCKS }
    requires room { length room.items ≡ BLOCK * count }
    ensures shows { (beside : KeptBeside) (n : Node) → SiteStands beside n disk_set.old → CanRead n volume start count → GaveShownAt beside n volume start count disk_set.old disk_set.new result }
    ensures role { KeepsRole disk_set.old disk_set.new }
    ensures notes { NotesOn disk_set.old disk_set.new }
    ensures still { IsRawSet disk_set.old → LeavesAlone disk_set.old disk_set.new }
    ensures later { Later disk_set.old disk_set.new }
{
    disk_set.show(volume, start, &mut room)?;
    Ok(Bytes::new(room))
}

/// Shows blocks of a volume of a site that receives: its content with all writes that came to it, of which some may wait.
pub(crate) fn show_received<R: Rack>(
    yard: &mut Yard<R>,
    name: &Name,
    volume: &Name,
    start: u64,
    count: u64,
    room: Vec<u8>,
) -> Said
    requires room { IsBlockRoom count room.items }
    requires kept { IsYardKept yard.old }
    requires free { IsFree yard.old (ShowLine name.now volume.now start count) }
    ensures leads { (d : Doubted) (s : ℕ) → StandsFor d yard.old → IsUngroupedAt d.world name.now → seat_of yard.old.facts.items name.now ≡ Some s → is_origin (d.world.nodes s).role ≡ false → Leads d (ShowLine name.now volume.now start count) result yard.old yard.new }
    ensures above { (d : Doubted) (s : ℕ) → StandsFor d yard.old → over_rvg_at d.world name.now ≡ true → kind_named (d.world.nodes (site_number d.world name.now)) volume.now ≡ Data → seat_of yard.old.facts.items name.now ≡ Some s
        → is_origin (d.world.nodes s).role ≡ false → LeadsAbove d (ShowLine name.now volume.now start count) result yard.old yard.new }
    ensures asked { (d : Doubted) → StandsFor d yard.old → IsUngroupedAt d.world name.now → OfSite LeavesAlone (site_number d.world name.now) yard.old yard.new }
    ensures flight { yard.new.flight ≡ yard.old.flight }
    ensures told { IsTold yard.new → IsTold yard.old }
    ensures files { in_files yard.new ≡ in_files yard.old }
{
    let site = yard.site_of(name);
    let place = yard.volume_of(site, volume);
    if count == 0 || count > MOST_CALL_BLOCKS {
        unreachable!();
    }
    match shown_of(&mut yard.disk_sets[site], place as u32, start, count, room) {
        Ok(blocks) => Said::Got(blocks),
        Err(no) => Said::Refused(no),
    }
}
