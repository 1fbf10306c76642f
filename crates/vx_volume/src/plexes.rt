// What a configuration says of the plexes of a volume.
ghost use Rattle.std.specs.Prelude.{◌≡◌};
ghost use Rattle.std.specs.List.{list_any};
ghost use Rattle.vx_config.specs.Checks.{plexes_of};
ghost use Rattle.vx_layout.specs.Places.{lies_on};
ghost use Rattle.vx_volume.specs.Plexes.{active, prefer_of, uses as uses_is};

use vx_config::{Config, PlexState, Subdisk};

/// Whether a plex is ACTIVE.
#[tactic(auto, unfolding(crate::specs::Plexes::active))]
pub fn is_active(config: &Config, vol: u32, plex: u32) -> bool
    ensures { result ≡ active config.now vol plex }
{
    match config.volumes.as_slice().get(vol as usize) {
        Some(volume) => match volume.plexes.as_slice().get(plex as usize) {
            Some(plex) => match plex.state {
                PlexState::Active => true,
                PlexState::Clean => false,
                PlexState::Stale => false,
            },
            None => false,
        },
        None => false,
    }
}

fn is_any_on(subdisks: &[Subdisk], disk: u32) -> bool
    ensures { result ≡ list_any (lies_on disk) subdisks.now }
{
    subdisks
        .iter()
        .any(|subdisk| u32::from(subdisk.disk) == disk)
}

/// Whether a plex has a subdisk on a disk.
#[tactic(auto, unfolding(crate::specs::Plexes::uses))]
pub fn uses(config: &Config, vol: u32, plex: u32, disk: u32) -> bool
    ensures { result ≡ uses_is config.now vol plex disk }
{
    match config.volumes.as_slice().get(vol as usize) {
        Some(volume) => match volume.plexes.as_slice().get(plex as usize) {
            Some(plex) => is_any_on(plex.subdisks.as_slice(), disk),
            None => false,
        },
        None => false,
    }
}

/// How many plexes a volume has.
pub fn plex_count(config: &Config, vol: u32) -> u32
    ensures { result ≡ plexes_of config.now vol }
{
    match config.volumes.as_slice().get(vol as usize) {
        Some(volume) => volume.plexes.as_slice().len() as u32,
        None => 0,
    }
}

/// The plex that reads of a volume begin at, where there is one.
pub fn preferred(config: &Config, vol: u32) -> Option<u8>
    ensures { result ≡ prefer_of config.now vol }
{
    match config.volumes.as_slice().get(vol as usize) {
        Some(volume) => volume.prefer,
        None => None,
    }
}
