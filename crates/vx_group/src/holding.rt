// A plex that is held back: STALE in memory, and ACTIVE by what the disks may keep.
ghost use Rattle.std.specs.Prelude.{◌≡◌, None};
ghost use Rattle.vx_config.specs.Checks.{plexes_of};
ghost use Rattle.vx_group.specs.Dets.{any_below, is_other};
ghost use Rattle.vx_group.specs.Holding.{HeldAgain, HeldBack, wide};

use crate::group_core::{GroupCore, Held};
use vx_config::{Config, PlexState};
use vx_kept::whole_of;
use vx_volume::{is_active, plex_count};

/// Whether a plex is ACTIVE that is not this one.
pub fn has_other(config: &Config, vol: u32, plex: u32) -> bool
    ensures { result ≡ any_below (is_other config.now vol plex) (plexes_of config.now vol) }
{
    let mut any = false;
    for other in 0..plex_count(config, vol) {
        any = any || (other != plex && is_active(config, vol, other));
    }
    any
}

/// Holds a plex back that is ACTIVE beside another one: it is then STALE in memory. It makes no device call.
pub fn hold_back(core: &mut GroupCore, vol: u32, plex: u32)
    ensures { HeldBack vol plex core.old core.new }
{
    if !is_active(&core.inner.config, vol, plex) {
        return;
    }
    if !has_other(&core.inner.config, vol, plex) {
        return;
    }
    let whole = whole_of(&core.inner.config, vol, plex);
    core.inner
        .config
        .set_state(vol as usize, plex as usize, PlexState::Stale, whole);
    core.held = Some(Held { vol, plex });
}

/// Puts the plex that is held back into the state ACTIVE in memory, and answers which one it is.
pub fn open_held(core: &mut GroupCore) -> Option<Held>
    ensures inner { core.new.inner ≡ wide core.old }
    ensures none { core.new.held ≡ None }
    ensures held { result ≡ core.old.held }
{
    let held = core.held;
    if let Some(it) = held {
        let whole = whole_of(&core.inner.config, it.vol, it.plex);
        core.inner.config.set_state(it.vol as usize, it.plex as usize, PlexState::Active, whole);
    }
    core.held = None;
    held
}

/// Holds it back again.
pub fn close_held(core: &mut GroupCore, held: Option<Held>)
    ensures { HeldAgain held core.old core.new }
{
    if let Some(it) = held {
        hold_back(core, it.vol, it.plex);
    }
}
