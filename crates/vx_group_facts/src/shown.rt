// The disks and volumes of a group as a status shows them.
ghost use Rattle.std.specs.Prelude.{◌≡◌, ◌<◌, ◌≤◌, ◌++◌, ◌∷◌, [], length, map, take, slice_get, ℕ, Some};
ghost use Rattle.vx_config.specs.declared.entry.VolumeEntry.{VolumeEntry as EntryValue};
ghost use Rattle.vx_events.specs.GroupViews.{is_ok, state_of_plex, volume_view};
ghost use Rattle.vx_model.specs.declared.limits.TheConstants.{MOST_DISKS, MOST_PLEXES, MOST_VOLUMES};

use vx_config::{DiskEntry, PlexEntry, VolumeEntry};
use vx_model::PlexState;
use vx_model::limits::MOST_PLEXES;
use vx_report::{DiskViewRoom, DiskViews, VolumeHead, VolumeViewRoom, VolumeViews};

/// The disks of a group in order, each true where it is held as good.
pub fn disks_shown(room: DiskViewRoom, disks: &[DiskEntry]) -> DiskViews
    requires empty { room ≡ [] }
    requires few { length disks.now ≤ MOST_DISKS }
    ensures { result ≡ map is_ok disks.now }
{
    let mut room = room;
    for disk in disks {
        room.push(!disk.failed);
    }
    room.into_views()
}

fn head_of(entry: &VolumeEntry) -> VolumeHead
    ensures name { result.name ≡ entry.now.name }
    ensures blocks { result.blocks ≡ entry.now.blocks }
    ensures drl { result.drl ≡ (volume_view entry.now).drl }
    ensures fmr { result.fmr ≡ (volume_view entry.now).fmr }
{
    VolumeHead {
        name: entry.name,
        blocks: entry.blocks,
        drl: entry.drl.is_some(),
        fmr: entry.fmr.is_some(),
    }
}

// The states of so many plexes at most, with active ones behind them.
fn states_of(plexes: &[PlexEntry]) -> [PlexState; MOST_PLEXES]
    requires few { length plexes.now ≤ MOST_PLEXES }
    ensures { take (length plexes.now) result ≡ map state_of_plex plexes.now }
{
    let mut states = [PlexState::Active; MOST_PLEXES];
    for place in 0..plexes.len() {
        states[place] = plexes[place].state;
    }
    states
}

// A volume behind the others.
fn push_volume(room: &mut VolumeViewRoom, entry: &VolumeEntry)
    requires room { length room.old < MOST_VOLUMES }
    requires few { length entry.now.plexes ≤ MOST_PLEXES }
    ensures { room.new ≡ room.old ++ volume_view entry.now ∷ [] }
{
    let plexes = entry.plexes.as_slice();
    let states = states_of(plexes);
    room.push(head_of(entry), &states[..plexes.len()]);
}

/// The volumes of a group in order, each with its plexes.
pub fn volumes_shown(room: VolumeViewRoom, volumes: &[VolumeEntry]) -> VolumeViews
    requires empty { room ≡ [] }
    requires few { length volumes.now ≤ MOST_VOLUMES }
    requires each { (v : ℕ) (entry : EntryValue) → slice_get volumes.now v ≡ Some entry → length entry.plexes ≤ MOST_PLEXES }
    ensures { result ≡ map volume_view volumes.now }
{
    let mut room = room;
    for entry in volumes {
        push_volume(&mut room, entry);
    }
    room.into_views()
}
