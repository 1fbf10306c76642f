// How many subdisks a configuration has.
ghost use Rattle.std.specs.Prelude.{◌≡◌, nat_le, sum_by};
ghost use Rattle.vx_config.specs.Configs.{subdisk_count, plex_subdisks, volume_subdisks, left_of};

use crate::{Config, PlexEntry, VolumeEntry};
use vx_model::limits::MOST_SUBDISKS;

// What is left of room for so many subdisks; None where they are more.
fn left_by_plexes(plexes: &[PlexEntry], room: usize) -> Option<usize>
    ensures { result ≡ left_of room (sum_by plex_subdisks plexes.now) }
{
    let mut left = room;
    for plex in plexes {
        let count = plex.subdisks.as_slice().len();
        if count > left {
            return None;
        }
        left -= count;
    }
    Some(left)
}

// The same for all plexes of volumes.
fn left_by_volumes(volumes: &[VolumeEntry], room: usize) -> Option<usize>
    ensures { result ≡ left_of room (sum_by volume_subdisks volumes.now) }
{
    let mut left = room;
    for volume in volumes {
        match left_by_plexes(volume.plexes.as_slice(), left) {
            Some(rest) => left = rest,
            None => return None,
        }
    }
    Some(left)
}

/// There are at most 1,024 subdisks.
pub fn has_few_subdisks(config: &Config) -> bool
    ensures { result ≡ nat_le (subdisk_count config.now) MOST_SUBDISKS }
{
    left_by_volumes(config.volumes.as_slice(), MOST_SUBDISKS).is_some()
}
