// Plexes that a deport puts from ACTIVE into CLEAN, and back.
ghost use Rattle.std.specs.Prelude.{◌≡◌, ◌<◌, ◌≤◌, Bool, List, length, IsTrue};
ghost use Rattle.vx_config.specs.Checks.{is_sound};
ghost use Rattle.vx_config.specs.Configs.{CanSpell};
ghost use Rattle.vx_config.specs.declared.config.Config.{Config as ConfigValue};
ghost use Rattle.vx_kept.specs.Cleans.{NoneClean, clean as clean_is, clean_plexes, cleaned, is_unsure};
ghost use Rattle.vx_kept.specs.Keeping.{AllOn};
ghost use Rattle.vx_kept.specs.Opens.{OpenFrom, OpenVolumes};

use crate::states::whole_of;
use vx_config::{Config, PlexState};
use vx_model::limits::{MOST_PLEXES, MOST_VOLUMES};
use vx_volume::is_active;

// Whether a plex is CLEAN.
#[tactic(auto, unfolding(crate::specs::Cleans::clean))]
fn is_clean(config: &Config, vol: u32, plex: u32) -> bool
    ensures { result ≡ clean_is config.now vol plex }
{
    match config.volumes.as_slice().get(vol as usize) {
        Some(volume) => match volume.plexes.as_slice().get(plex as usize) {
            Some(plex) => match plex.state {
                PlexState::Clean => true,
                PlexState::Active => false,
                PlexState::Stale => false,
            },
            None => false,
        },
        None => false,
    }
}

// Whether a volume is marked.
fn is_marked(unsure: &[bool; MOST_VOLUMES], vol: u32) -> bool
    requires inside { vol < MOST_VOLUMES }
    ensures { result ≡ is_unsure unsure.now vol }
{
    unsure[vol as usize]
}

// Puts the plexes of a volume that are ACTIVE into the state CLEAN.
fn clean_volume(config: &mut Config, vol: u32)
    ensures cleaned { config.new ≡ clean_plexes vol config.old MOST_PLEXES }
    ensures can { CanSpell config.old → CanSpell config.new }
    ensures sound { IsTrue (is_sound config.old) → IsTrue (is_sound config.new) }
{
    for plex in 0..MOST_PLEXES as u32 {
        if is_active(config, vol, plex) {
            let whole = whole_of(config, vol, plex);
            config.set_state(vol as usize, plex as usize, PlexState::Clean, whole);
        }
    }
}

// Puts the plexes of a volume that are CLEAN into the state ACTIVE.
fn open_volume(config: &mut Config, vol: u32)
    ensures back { (c : ConfigValue) → config.old ≡ clean_plexes vol c MOST_PLEXES → NoneClean c vol → config.new ≡ c }
    ensures same { NoneClean config.old vol → config.new ≡ config.old }
    ensures opens { OpenFrom vol 0 config.old config.new }
    ensures can { CanSpell config.old → CanSpell config.new }
    ensures sound { IsTrue (is_sound config.old) → IsTrue (is_sound config.new) }
{
    for turn in 0..MOST_PLEXES as u32 {
        let plex = MOST_PLEXES as u32 - 1 - turn;
        if is_clean(config, vol, plex) {
            let whole = whole_of(config, vol, plex);
            config.set_state(vol as usize, plex as usize, PlexState::Active, whole);
        }
    }
}

/// Puts the plexes that are ACTIVE into the state CLEAN, but those of the volumes that are marked. It takes no memory.
pub fn make_clean(config: &mut Config, unsure: &[bool; MOST_VOLUMES])
    requires few { length config.old.volumes ≤ MOST_VOLUMES }
    ensures cleaned { config.new ≡ cleaned unsure.now config.old (length config.old.volumes) }
    ensures can { CanSpell config.old → CanSpell config.new }
    ensures sound { IsTrue (is_sound config.old) → IsTrue (is_sound config.new) }
{
    for vol in 0..config.volumes.as_slice().len() as u32 {
        if !is_marked(unsure, vol) {
            clean_volume(config, vol);
        }
    }
}

/// Puts the plexes that are CLEAN into the state ACTIVE. It takes no memory.
pub fn make_open(config: &mut Config)
    ensures opens { OpenVolumes 0 config.old config.new }
    ensures can { CanSpell config.old → CanSpell config.new }
    ensures sound { IsTrue (is_sound config.old) → IsTrue (is_sound config.new) }
    ensures back { (c : ConfigValue) (unsure : List Bool) → config.old ≡ cleaned unsure c (length c.volumes) → AllOn c → config.new ≡ c }
{
    let count = config.volumes.as_slice().len() as u32;
    for turn in 0..count {
        open_volume(config, count - 1 - turn);
    }
}
