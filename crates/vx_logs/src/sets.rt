// Sets of plexes.
ghost use Rattle.std.specs.Prelude.{◌≡◌, ◌<◌, ℕ, IsTrue};
ghost use Rattle.vx_config.specs.Checks.{is_sound};
ghost use Rattle.vx_disk.specs.Blocks.{bit_at};
ghost use Rattle.vx_logs.specs.Held.{stale};
ghost use Rattle.vx_logs.specs.Noting.{is_one};
ghost use Rattle.vx_model.specs.declared.limits.TheConstants.{MOST_PLEXES};

use vx_config::{Config, PlexState};
use vx_model::limits::MOST_PLEXES;
use vx_volume::set_of;

/// Whether a plex is one of a set, which has bit P for plex P.
pub fn is_in(set: u8, plex: u32) -> bool
    requires { plex < MOST_PLEXES }
    ensures { result ≡ bit_at set plex }
{
    (u64::from(set) >> plex) % 2 == 1
}

#[tactic(auto, unfolding(crate::specs::Held::stale))]
fn is_stale(config: &Config, vol: u32, plex: u32) -> bool
    ensures { result ≡ stale config.now vol plex }
{
    match config.volumes.as_slice().get(vol as usize) {
        Some(volume) => match volume.plexes.as_slice().get(plex as usize) {
            Some(plex) => match plex.state {
                PlexState::Active => false,
                PlexState::Clean => false,
                PlexState::Stale => true,
            },
            None => false,
        },
        None => false,
    }
}

/// The plexes of a volume that are STALE.
pub(crate) fn stale_set(config: &Config, vol: u32) -> u8
    requires { IsTrue (is_sound config.now) }
    ensures { (p : ℕ) → is_one result p ≡ stale config.now vol p }
{
    let mut flags = [false; MOST_PLEXES];
    for plex in 0..MOST_PLEXES {
        flags[plex] = is_stale(config, vol, plex as u32);
    }
    set_of(&flags)
}
