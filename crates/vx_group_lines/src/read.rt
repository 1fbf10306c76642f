// The lines that read blocks of a volume of a disk group.
ghost use Rattle.std.specs.Prelude.{◌≡◌, ℕ, IfOk, false, length, true};
ghost use Rattle.vx_history.specs.Doubts.{Doubted};
ghost use Rattle.vx_script.specs.declared.line.ScriptLine.{ScriptLine};
ghost use Rattle.vx_history.specs.Groups.{GroupNode};
ghost use Rattle.vx_history.specs.World.{Node};
ghost use Rattle.vx_grouped.specs.GroupSites.{FitsPlain, UpNoted};
ghost use Rattle.vx_grouped.specs.SiteMaps.{StaysMapped};
ghost use Rattle.vx_diskset.specs.Asked.{SameFailing};
ghost use Rattle.vx_diskset.specs.DiskSets.{Later};
ghost use Rattle.vx_diskset.specs.GroupCalls.{AtSite, CalledOn, OnSites, cut_in};
ghost use Rattle.vx_diskset.specs.OverPlains.{OnOver};
ghost use Rattle.vx_order.specs.Calls.{is_data};
ghost use Rattle.vx_group_lines.specs.Plain.{GaveBelow, GavePlain, IsReadFree, IsReadOf, IsRoomFor};
ghost use Rattle.vx_events.specs.Facts.{site_number};
ghost use Rattle.vx_events.specs.RvgOver.{kind_named};
ghost use Rattle.vx_events.specs.RvgSteps.{over_rvg_at};
ghost use Rattle.vx_events.specs.StepsOver.{is_for_group};
ghost use Rattle.vx_yard.specs.AboveLines.{LeadsAbove};
ghost use Rattle.vx_yard.specs.OfSites.{AsAsked};
ghost use Rattle.vx_yard.specs.Standing.{LeadsOver, StandsFor};
ghost use Rattle.vx_yard.specs.Working.{IsFree};
ghost use Rattle.vx_yard.specs.Yards.{IsYardKept, IsTold, in_files};

use crate::numbers::number_of;
use vx_disk::Rack;
use vx_diskset::DiskSet;
use vx_events::Said;
use vx_model::{Bytes, Name, No};
use vx_yard::Yard;

// So many blocks of a volume, by its number, read into a place for them.
fn blocks_of<R: Rack>(
    disk_set: &mut DiskSet<R>,
    volume: u32,
    start: u64,
    mut room: Vec<u8>,
) -> Result<Bytes, No>
    ensures read { (n : Node) (note : GroupNode) → AtSite (UpNoted n note) disk_set.old → FitsPlain note volume start (length room.items) → OnSites (λ o e. GavePlain n note volume start o e result) disk_set.old disk_set.new }
    ensures maps { (n : Node) (note : GroupNode) → AtSite (UpNoted n note) disk_set.old → FitsPlain note volume start (length room.items) → OnSites StaysMapped disk_set.old disk_set.new }
    ensures size { IfOk result (λ bytes. length bytes ≡ length room.items) }
    ensures over { OnOver (GaveBelow volume start (length room.items) result) disk_set.old disk_set.new }
    ensures cut { cut_in disk_set.new ≡ cut_in disk_set.old }
    ensures failing { SameFailing disk_set.old disk_set.new }
    ensures later { Later disk_set.old disk_set.new }
    ensures since { CalledOn disk_set.old disk_set.new }
{
    disk_set.read_plain(volume, start, &mut room)?;
    Ok(Bytes::new(room))
}

/// Reads blocks of a volume, into a place for them.
pub fn read_plain<R: Rack>(
    yard: &mut Yard<R>,
    name: &Name,
    volume: &Name,
    start: u64,
    room: Vec<u8>,
) -> Said
    requires kept { IsYardKept yard.old }
    requires free { IsReadFree yard.old name.now volume.now start }
    ensures leads { (d : Doubted) (line : ScriptLine) (count : ℕ) → StandsFor d yard.old → IsReadOf line name.now volume.now start count → IsRoomFor count room.items → IsFree yard.old line → is_for_group d.world line ≡ true → LeadsOver d line result yard.old yard.new }
    ensures asked { (d : Doubted) (line : ScriptLine) (count : ℕ) → StandsFor d yard.old → IsReadOf line name.now volume.now start count → IsRoomFor count room.items → IsFree yard.old line → is_for_group d.world line ≡ true → AsAsked d.world line yard.old yard.new }
    ensures above { (d : Doubted) (line : ScriptLine) (count : ℕ) → StandsFor d yard.old → IsReadOf line name.now volume.now start count → IsRoomFor count room.items → IsFree yard.old line → over_rvg_at d.world name.now ≡ true
        → is_data (kind_named (d.world.nodes (site_number d.world name.now)) volume.now) ≡ false → LeadsAbove d line result yard.old yard.new }
    ensures told { IsTold yard.new → IsTold yard.old }
    ensures files { in_files yard.new ≡ in_files yard.old }
{
    let site = yard.site_of(name);
    let place = number_of(yard, site, volume);
    match blocks_of(&mut yard.disk_sets[site], place, start, room) {
        Ok(blocks) => Said::Got(blocks),
        Err(no) => Said::Refused(no),
    }
}
