// Which volumes stopped uncleanly, and by which plex of each an import goes.
ghost use Rattle.std.specs.Prelude.{◌≡◌, ◌<◌, ◌≤◌, ℕ, length, not};
ghost use Rattle.std.specs.List.{list_any};
ghost use Rattle.vx_config.specs.Checks.{is_live as is_live_is};
ghost use Rattle.vx_disk.specs.Blocks.{bit_at};
ghost use Rattle.vx_group.specs.Resumes.{first_in, sits_in as sits_in_is, source_at, source_of as source_is, stopped, takes_in as takes_in_is};
ghost use Rattle.vx_kept.specs.Choice.{first_where};
ghost use Rattle.vx_kept.specs.Cleans.{is_unsure};
ghost use Rattle.vx_model.specs.declared.limits.TheConstants.{MOST_VOLUMES};

use vx_config::{Config, PlexEntry, Subdisk, is_live};
use vx_copyio::is_member;
use vx_model::limits::MOST_VOLUMES;
use vx_volume::{is_active, plex_count};

// Whether a plex of a volume is ACTIVE.
#[tactic(auto, unfolding(crate::specs::Resumes::stopped))]
fn is_stopped(config: &Config, vol: u32) -> bool
    ensures { result ≡ stopped config.now vol }
{
    let mut any = false;
    for plex in 0..plex_count(config, vol) {
        any = any || is_active(config, vol, plex);
    }
    any
}

/// Of each volume whether it stopped uncleanly.
pub fn stopped_of(config: &Config) -> [bool; MOST_VOLUMES]
    requires few { length config.now.volumes ≤ MOST_VOLUMES }
    ensures { (v : ℕ) → v < length config.now.volumes → is_unsure result v ≡ stopped config.now v }
{
    let mut flags = [false; MOST_VOLUMES];
    for vol in 0..config.volumes.as_slice().len() {
        flags[vol] = is_stopped(config, vol as u32);
    }
    flags
}

fn lies_outside(subdisks: &[Subdisk], good: u8) -> bool
    ensures { result ≡ list_any (λ s. not (bit_at good s.disk)) subdisks.now }
{
    subdisks
        .iter()
        .any(|subdisk| !is_member(good, u32::from(subdisk.disk)))
}

// Whether a plex takes part and is on disks of a set alone.
fn takes_in(plex: &PlexEntry, good: u8) -> bool
    ensures { result ≡ takes_in_is good plex.now }
{
    is_live(plex) && !lies_outside(plex.subdisks.as_slice(), good)
}

// The first plex that takes part and is on disks of a set alone; how many there are where there is none.
fn first_inside(plexes: &[PlexEntry], good: u8) -> usize
    ensures { result ≡ first_where (takes_in_is good) plexes.now }
{
    for place in 0..plexes.len() {
        if takes_in(&plexes[place], good) {
            return place;
        }
    }
    plexes.len()
}

// The first plex that takes part.
fn first_live(plexes: &[PlexEntry]) -> usize
    ensures { result ≡ first_where is_live_is plexes.now }
{
    for place in 0..plexes.len() {
        if is_live(&plexes[place]) {
            return place;
        }
    }
    plexes.len()
}

fn first_of(plexes: &[PlexEntry], good: u8) -> usize
    ensures { result ≡ first_in good plexes.now }
{
    let inside = first_inside(plexes, good);
    if inside < plexes.len() {
        return inside;
    }
    first_live(plexes)
}

// The plex that an import goes by.
#[tactic(auto, unfolding(crate::specs::Resumes::source_of))]
fn source_in(config: &Config, vol: u32, good: u8) -> u32
    ensures { result ≡ source_is good config.now vol }
{
    match config.volumes.as_slice().get(vol as usize) {
        Some(volume) => first_of(volume.plexes.as_slice(), good) as u32,
        None => 0,
    }
}

/// Of each volume the plex that an import goes by.
pub fn sources_of(config: &Config, good: u8) -> [u32; MOST_VOLUMES]
    requires few { length config.now.volumes ≤ MOST_VOLUMES }
    ensures { (v : ℕ) → v < length config.now.volumes → source_at result v ≡ source_is good config.now v }
{
    let mut sources = [0; MOST_VOLUMES];
    for vol in 0..config.volumes.as_slice().len() {
        sources[vol] = source_in(config, vol as u32, good);
    }
    sources
}
