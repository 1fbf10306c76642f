// The volumes of a group as the tests of a line see them.
ghost use Rattle.std.specs.Prelude.{◌≡◌, ◌<◌, ◌≤◌, ◌+◌, ◌++◌, ℕ, [], Some, false, true, length, map, slice_get};
ghost use Rattle.vx_config.specs.Checks.{is_group};
ghost use Rattle.vx_events.specs.GroupViews.{plain_fact};
ghost use Rattle.vx_events.specs.RvgViews.{data_seen, is_data_unit, kind_at, kinded, kinds_by, others_from, unless_data};
ghost use Rattle.vx_model.specs.declared.limits.TheConstants.{MOST_VOLUMES};

use vx_config::VolumeEntry;
use vx_model::Units;
use vx_order::{VolumeFacts, VolumeKind, VolumeRoom, VolumeTable};

fn volume_seen(entry: &VolumeEntry) -> VolumeFacts
    ensures { result ≡ plain_fact entry.now }
{
    VolumeFacts {
        name: entry.name,
        blocks: entry.blocks,
        kind: VolumeKind::Plain,
        plexes: entry.plexes.as_slice().len() as u32,
    }
}

/// The volumes of a group outside a replicated volume group, in order.
pub fn volumes_seen(room: VolumeRoom, volumes: &[VolumeEntry]) -> VolumeTable
    requires empty { room ≡ [] }
    requires few { length volumes.now ≤ MOST_VOLUMES }
    ensures { result ≡ map plain_fact volumes.now }
{
    let mut room = room;
    for entry in volumes {
        room.push(volume_seen(entry));
    }
    room.into_table()
}

fn has_unit(units: &[u32], place: u32) -> bool
    ensures { result ≡ is_data_unit units.now place }
{
    units.iter().any(|unit| *unit == place)
}

// What a volume in this place that is no data volume is to a replicated volume group on these units.
fn kind_seen(units: &Units, place: u32) -> VolumeKind
    ensures { result ≡ kind_at units.now place }
{
    if place == units.srl {
        return VolumeKind::Srl;
    }
    if place == units.maps {
        return VolumeKind::Map;
    }
    VolumeKind::Plain
}

fn kinded_volume(units: &Units, place: u32, entry: &VolumeEntry) -> VolumeFacts
    ensures { result ≡ kinded units.now place entry.now }
{
    let kind = kind_seen(units, place);
    VolumeFacts {
        kind,
        ..volume_seen(entry)
    }
}

// The data volume in this place.
fn data_volume(volumes: &[VolumeEntry], place: u32) -> VolumeFacts
    requires { place < length volumes.now }
    ensures { result ≡ data_seen volumes.now place }
{
    VolumeFacts {
        kind: VolumeKind::Data,
        ..volume_seen(&volumes[place as usize])
    }
}

// The data volumes in these places.
fn with_data(start: VolumeRoom, volumes: &[VolumeEntry], places: &[u32]) -> VolumeRoom
    requires empty { start ≡ [] }
    requires few { length places.now ≤ MOST_VOLUMES }
    requires within { (k place : ℕ) → slice_get places.now k ≡ Some place → place < length volumes.now }
    ensures { result ≡ map (data_seen volumes.now) places.now }
{
    let mut room = start;
    for place in places {
        room.push(data_volume(volumes, *place));
    }
    room
}

// One volume more, unless it is a data volume.
fn with_other(start: VolumeRoom, units: &Units, place: u32, entry: &VolumeEntry) -> VolumeRoom
    requires room { is_data_unit units.now.vols place ≡ false → length start < MOST_VOLUMES }
    ensures { result ≡ start ++ unless_data (is_data_unit units.now.vols place) (kinded units.now place entry.now) [] }
{
    if has_unit(units.vols.as_slice(), place) {
        return start;
    }
    let mut room = start;
    room.push(kinded_volume(units, place, entry));
    room
}

// The other volumes behind the data volumes, in order.
fn with_others(start: VolumeRoom, volumes: &[VolumeEntry], units: &Units) -> VolumeRoom
    requires few { length volumes.now ≤ MOST_VOLUMES }
    requires fits { length start + length (others_from units.now 0 volumes.now) ≤ MOST_VOLUMES }
    ensures { result ≡ start ++ others_from units.now 0 volumes.now }
{
    let mut room = start;
    for place in 0..volumes.len() {
        room = with_other(room, units, place as u32, &volumes[place]);
    }
    room
}

/// The volumes of a group by what each is to the replicated volume group on these units: first the data volumes, by their numbers in it, then the
/// others in the order of the group.
pub fn kinds_seen(room: VolumeRoom, volumes: &[VolumeEntry], units: &Units) -> VolumeTable
    requires empty { room ≡ [] }
    requires few { length volumes.now ≤ MOST_VOLUMES }
    requires group { is_group volumes.now units.now ≡ true }
    ensures { result ≡ kinds_by (Some units.now) volumes.now }
{
    let room = with_data(room, volumes, units.vols.as_slice());
    with_others(room, volumes, units).into_table()
}
