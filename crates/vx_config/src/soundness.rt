// The tests of one volume.
ghost use Rattle.std.specs.Prelude.{◌≡◌, ◌*◌, ◌<◌, ◌≤◌, ◌^◌, length};
ghost use Rattle.std.specs.List.{list_all, list_any};
ghost use Rattle.vx_config.specs.Checks.{column_blocks as column_blocks_is, next_room as next_room_is, fill, plex_fills as plex_fills_is, log_has as log_has_is, preferred_is as preferred_is_is, is_live as is_live_is, has_shape as has_shape_is, has_logs as has_logs_is, has_plexes as has_plexes_is, is_volume as is_volume_is};

use crate::{LogEntry, PlexEntry, Subdisk, VolumeEntry};
use vx_model::limits::{MOST_COLUMNS, MOST_PLEXES};
use vx_model::{PlexState, map_blocks};

/// The blocks of one column of a volume's plexes.
#[tactic(auto, unfolding(crate::specs::Checks::column_blocks))]
pub fn column_blocks(volume: &VolumeEntry) -> u128
    requires { 0 < volume.now.ncol }
    ensures is { result ≡ column_blocks_is volume.now }
    ensures few { result < 2 ^ 96 }
{
    let blocks = u128::from(volume.blocks);
    let width = u128::from(volume.width);
    if volume.width == 0 {
        blocks
    } else {
        blocks.div_ceil(u128::from(volume.ncol) * width) * width
    }
}

// The room of the next column, where there is one.
fn next_room(column: u128, columns: u8) -> u128
    ensures { result ≡ next_room_is column columns }
{
    if columns <= 1 { 0 } else { column }
}

fn fills(column: u128, ncol: u8, subdisks: &[Subdisk]) -> bool
    ensures { result ≡ fill column ncol column subdisks.now }
{
    let mut columns = ncol;
    let mut room = column;
    for subdisk in subdisks {
        let blocks = u128::from(subdisk.blocks);
        if blocks > room {
            return false;
        }
        if blocks == room {
            room = next_room(column, columns);
            columns = columns.saturating_sub(1);
        } else {
            room -= blocks;
        }
    }
    columns == 0 || column == 0
}

fn plex_fills(volume: &VolumeEntry, plex: &PlexEntry) -> bool
    requires { 0 < volume.now.ncol }
    ensures { result ≡ plex_fills_is volume.now plex.now }
{
    fills(column_blocks(volume), volume.ncol, plex.subdisks.as_slice())
}

fn all_fill(volume: &VolumeEntry, plexes: &[PlexEntry]) -> bool
    requires { 0 < volume.now.ncol }
    ensures { result ≡ list_all (plex_fills_is volume.now) plexes.now }
{
    plexes.iter().all(|plex| plex_fills(volume, plex))
}

fn log_has(blocks: u64, log: &Option<LogEntry>) -> bool
    ensures { result ≡ log_has_is blocks log.now }
{
    match log {
        None => true,
        Some(log) => log.blocks == blocks,
    }
}

fn preferred_is(plexes: usize, prefer: Option<u8>) -> bool
    ensures { result ≡ preferred_is_is plexes prefer }
{
    match prefer {
        None => true,
        Some(plex) => (plex as usize) < plexes,
    }
}

/// Whether a plex takes part.
pub fn is_live(plex: &PlexEntry) -> bool
    ensures { result ≡ is_live_is plex.now }
{
    match plex.state {
        PlexState::Active => true,
        PlexState::Clean => true,
        PlexState::Stale => false,
    }
}

fn is_any_live(plexes: &[PlexEntry]) -> bool
    ensures { result ≡ list_any is_live_is plexes.now }
{
    plexes.iter().any(is_live)
}

fn has_shape(volume: &VolumeEntry) -> bool
    ensures { result ≡ has_shape_is volume.now }
{
    volume.ncol >= 1
        && u32::from(volume.ncol) <= MOST_COLUMNS
        && (volume.width != 0 || volume.ncol == 1)
}

fn has_logs(volume: &VolumeEntry) -> bool
    ensures { result ≡ has_logs_is volume.now }
{
    let maps = map_blocks(volume.blocks);
    let plexes = volume.plexes.as_slice().len() as u64;
    log_has(maps, &volume.drl) && log_has(plexes * maps, &volume.fmr)
}

fn has_plexes(volume: &VolumeEntry) -> bool
    requires { 0 < volume.now.ncol }
    ensures { result ≡ has_plexes_is volume.now }
{
    let plexes = volume.plexes.as_slice();
    plexes.len() <= MOST_PLEXES
        && all_fill(volume, plexes)
        && preferred_is(plexes.len(), volume.prefer)
        && is_any_live(plexes)
}

/// Whether a volume has a shape, logs and plexes that it may have.
pub fn is_volume(volume: &VolumeEntry) -> bool
    ensures { result ≡ is_volume_is volume.now }
{
    has_shape(volume) && has_logs(volume) && has_plexes(volume)
}
