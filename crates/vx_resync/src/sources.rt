// The plex that a copy is read from.
ghost use Rattle.std.specs.Prelude.{◌≡◌, IsTrue};
ghost use Rattle.vx_config.specs.Checks.{is_sound};
ghost use Rattle.vx_resync.specs.Sources.{HasSource, IsSource, can_give as can_give_is, is_it as is_it_is};

use vx_config::Config;
use vx_model::limits::MOST_PLEXES;
use vx_volume::is_active;

// Whether this plex alone is copied to.
fn is_it(to: Option<u32>, plex: u32) -> bool
    ensures { result ≡ is_it_is to plex }
{
    match to {
        Some(other) => other == plex,
        None => false,
    }
}

// Whether a plex is ACTIVE and is not the one that alone is copied to.
fn can_give(config: &Config, vol: u32, to: Option<u32>, plex: u32) -> bool
    ensures { result ≡ can_give_is config.now vol to plex }
{
    is_active(config, vol, plex) && !is_it(to, plex)
}

/// The first plex that is ACTIVE and is not the one that alone is copied to.
pub fn find_source(config: &Config, vol: u32, to: Option<u32>) -> u32
    requires checked { IsTrue (is_sound config.now) }
    requires some { HasSource config.now vol to }
    ensures { IsSource config.now vol to result }
{
    for plex in 0..MOST_PLEXES as u32 {
        if can_give(config, vol, to, plex) {
            return plex;
        }
    }
    unreachable!()
}
