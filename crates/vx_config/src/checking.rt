// The tests of a configuration.
ghost use Rattle.std.specs.Prelude.{◌≡◌};
ghost use Rattle.std.specs.List.{list_all};
ghost use Rattle.vx_config.specs.Checks.{pairwise, differ as differ_is, is_volume as is_volume_is, is_sound};

use crate::group::is_group_if;
use crate::runs::are_placed;
use crate::shape::has_few_subdisks;
use crate::soundness::is_volume;
use crate::{Config, VolumeEntry};

fn differ(a: &VolumeEntry, b: &VolumeEntry) -> bool
    ensures { result ≡ differ_is a.now b.now }
{
    a.name.as_bytes() != b.name.as_bytes()
}

fn differs_from(volume: &VolumeEntry, others: &[VolumeEntry]) -> bool
    ensures { result ≡ list_all (differ_is volume.now) others.now }
{
    others.iter().all(|other| differ(volume, other))
}

fn all_differ(volumes: &[VolumeEntry]) -> bool
    ensures { result ≡ pairwise differ_is volumes.now }
{
    for i in 0..volumes.len() {
        if !differs_from(&volumes[i], &volumes[i + 1..]) {
            return false;
        }
    }
    true
}

fn are_volumes(volumes: &[VolumeEntry]) -> bool
    ensures { result ≡ list_all is_volume_is volumes.now }
{
    volumes.iter().all(is_volume)
}

/// Whether a configuration is sound: its subdisks and logs lie in the public regions of its disks and do not overlap,
/// each plex has the blocks of its volume, each log those of its maps, each volume a plex that is not stale, and all
/// counts, names and numbers are as they may be.
#[tactic(auto, unfolding(crate::specs::Checks::is_sound))]
pub fn check(config: &Config) -> bool
    ensures { result ≡ is_sound config.now }
{
    let volumes = config.volumes.as_slice();
    has_few_subdisks(config)
        && are_placed(config)
        && all_differ(volumes)
        && are_volumes(volumes)
        && is_group_if(volumes, &config.rvg)
}
