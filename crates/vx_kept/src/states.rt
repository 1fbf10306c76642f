// Plexes of a volume that are put into the state STALE, and back.
ghost use Rattle.std.specs.Prelude.{◌≡◌, ◌<◌, length, true, IsTrue};
ghost use Rattle.vx_config.specs.Checks.{is_sound};
ghost use Rattle.vx_config.specs.Configs.{CanSpell};
ghost use Rattle.vx_config.specs.declared.config.Config.{Config as ConfigValue};
ghost use Rattle.vx_kept.specs.States.{AreOn, SomeLeft, staled, whole_of as whole_is};

use vx_config::{Config, PlexState};
use vx_copyio::is_member;
use vx_model::limits::MOST_PLEXES;

// Whether the next attach of a plex has to copy all of its regions.
#[tactic(auto, unfolding(crate::specs::States::whole_of))]
pub fn whole_of(config: &Config, vol: u32, plex: u32) -> bool
    ensures { result ≡ whole_is config.now vol plex }
{
    match config.volumes.as_slice().get(vol as usize) {
        Some(volume) => match volume.plexes.as_slice().get(plex as usize) {
            Some(plex) => plex.whole,
            None => false,
        },
        None => false,
    }
}

/// Puts the plexes of a set into the state STALE. It takes no memory.
pub fn make_stale(config: &mut Config, vol: u32, set: u8)
    requires left { vol < length config.old.volumes → SomeLeft config.old vol set }
    ensures staled { config.new ≡ staled vol set config.old MOST_PLEXES }
    ensures can { CanSpell config.old → CanSpell config.new }
    ensures sound { IsTrue (is_sound config.old) → IsTrue (is_sound config.new) }
{
    for plex in 0..MOST_PLEXES as u32 {
        if is_member(set, plex) {
            let whole = whole_of(config, vol, plex);
            config.set_state(vol as usize, plex as usize, PlexState::Stale, whole);
        }
    }
}

/// Puts them back into the state ACTIVE.
pub fn make_active(config: &mut Config, vol: u32, set: u8)
    ensures { (c : ConfigValue) → config.old ≡ staled vol set c MOST_PLEXES → AreOn c vol set → config.new ≡ c }
{
    for turn in 0..MOST_PLEXES as u32 {
        let plex = MOST_PLEXES as u32 - 1 - turn;
        if is_member(set, plex) {
            let whole = whole_of(config, vol, plex);
            config.set_state(vol as usize, plex as usize, PlexState::Active, whole);
        }
    }
}
