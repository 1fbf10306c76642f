// The line that makes a replicated volume group of volumes of a disk group.
ghost use Rattle.std.specs.Prelude.{◌≡◌, ◌+◌, ◌≤◌, length, map};
ghost use Rattle.vx_history.specs.Doubts.{Doubted};
ghost use Rattle.vx_model.specs.declared.limits.TheConstants.{MOST_DATA_VOLUMES, MOST_VOLUMES};
ghost use Rattle.vx_script.specs.declared.line.ScriptLine.TheVariants.{Rvg};
ghost use Rattle.vx_group_lines.specs.Making.{seen_number, seen_units};
ghost use Rattle.vx_yard.specs.Gaining.{LeadsRvgIs};
ghost use Rattle.vx_yard.specs.Standing.{StandsFor};
ghost use Rattle.vx_yard.specs.Working.{IsFree};
ghost use Rattle.vx_yard.specs.Yards.{IsYardKept, IsTold, in_files};

use crate::noting::{group_stopped, note_up};
use std::alloc::Global;
use std::mem;
use vx_disk::Rack;
use vx_diskset::DiskSet;
use vx_events::Said;
use vx_model::{Name, OutOfMemory, Units, VolumeUnits};
use vx_order::{SiteFacts, VolumeRoom};
use vx_script::Names;
use vx_yard::Yard;
use vx_yard::facts::place;

// The place of the volume of this name in a group without a replicated volume group; 0 where there is none.
fn number_seen(facts: &SiteFacts, name: &Name) -> u32
    requires few { length facts.now.volumes ≤ MOST_VOLUMES + MOST_DATA_VOLUMES }
    ensures { result ≡ seen_number facts.now.volumes name.now }
{
    match place(facts, name) {
        Some(number) => number as u32,
        None => 0,
    }
}

// The same of each of these names.
fn places_seen(facts: &SiteFacts, names: &[Name]) -> VolumeUnits
    requires few { length facts.now.volumes ≤ MOST_VOLUMES + MOST_DATA_VOLUMES }
    requires room { length names.now ≤ MOST_DATA_VOLUMES }
    ensures { result ≡ map (seen_number facts.now.volumes) names.now }
{
    let mut units = VolumeUnits::new();
    for name in names {
        units.push(number_seen(facts, name));
    }
    units
}

// The volumes of these names.
fn units_seen(facts: &SiteFacts, srl: &Name, maps: &Name, names: &[Name]) -> Units
    requires few { length facts.now.volumes ≤ MOST_VOLUMES + MOST_DATA_VOLUMES }
    requires room { length names.now ≤ MOST_DATA_VOLUMES }
    ensures { result ≡ seen_units facts.now.volumes srl.now maps.now names.now }
{
    Units {
        srl: number_seen(facts, srl),
        maps: number_seen(facts, maps),
        vols: places_seen(facts, names),
    }
}

/// Makes a replicated volume group: its log lies in one volume, its maps in another, and its data volumes are others. Each block of a data volume is
/// first written as it reads.
pub fn rvg_line<R: Rack>(
    yard: &mut Yard<R>,
    alloc: Global,
    name: &Name,
    srl: &Name,
    maps: &Name,
    volumes: &Names,
) -> Result<Said, OutOfMemory>
    requires kept { IsYardKept yard.old }
    requires free { IsFree yard.old (Rvg name.now srl.now maps.now volumes.now) }
    ensures leads { (d : Doubted) → StandsFor d yard.old → LeadsRvgIs d name.now srl.now maps.now volumes.now yard.old yard.new result }
    ensures told { IsTold yard.new → IsTold yard.old }
    ensures files { in_files yard.new ≡ in_files yard.old }
{
    let room = VolumeRoom::new(alloc)?;
    let site = yard.site_of(name);
    let units = units_seen(&yard.facts[site], srl, maps, volumes.as_slice());
    let disk_set = mem::replace(&mut yard.disk_sets[site], DiskSet::Gone);
    let (disk_set, made) = disk_set.make_rvg(alloc, site as u32, &units);
    yard.disk_sets[site] = disk_set;
    match made {
        Ok(()) => {
            note_up(yard, site, room);
            Ok(Said::Done)
        }
        Err(stop) => group_stopped(yard, alloc, site, stop),
    }
}
