// Why a volume may not be made, and the volume that is.
ghost use Rattle.std.specs.Prelude.{◌≡◌, ◌<◌, ◌≤◌, true, length, map, IfOk, IfSome, if◌then◌else◌, slice_get, None};
ghost use Rattle.std.specs.List.{list_all, list_any};
ghost use Rattle.vx_model.specs.declared.limits.TheConstants.{MOST_PLEXES};
ghost use Rattle.vx_layout.specs.Made.{made_plex};
ghost use Rattle.vx_layout.specs.Space.{IsShape};
ghost use Rattle.vx_group.specs.Makes.{IsVolume, has_name, is_few, is_shape as is_shape_is, log_count, lost_log, make_refusal};

use std::alloc::Global;
use vx_config::{Config, LogEntry, PlexEntry, PlexState, Plexes, Subdisk, Subdisks, VolumeEntry};
use vx_layout::{Found, Runs, Shape};
use vx_model::limits::{
    COMMIT_MARGIN, MOST_COLUMNS, MOST_NUMBER, MOST_PLEXES, MOST_VOLUME_BLOCKS, MOST_VOLUMES,
};
use vx_model::{Counted, Name, No, OutOfMemory, limit};

fn is_named(volume: &VolumeEntry, name: &Name) -> bool
    ensures { result ≡ has_name name.now volume.now }
{
    volume.name.as_bytes() == name.as_bytes()
}

fn is_taken(volumes: &[VolumeEntry], name: &Name) -> bool
    ensures { result ≡ list_any (has_name name.now) volumes.now }
{
    volumes.iter().any(|volume| is_named(volume, name))
}

fn is_shape(want: &Shape) -> bool
    ensures { result ≡ is_shape_is want.now }
{
    1 <= want.blocks
        && want.blocks <= MOST_VOLUME_BLOCKS
        && 1 <= want.mirrors
        && 1 <= want.ncol
        && want.ncol <= MOST_COLUMNS as u32
        && (want.width != 0 || want.ncol == 1)
}

/// Why a volume may not be made, before space is searched.
pub fn refuse_volume(config: &Config, name: &Name, want: &Shape) -> Option<No>
    ensures { result ≡ make_refusal config.now name.now want.now }
{
    let volumes = config.volumes.as_slice();
    if is_taken(volumes, name) {
        return Some(No::Exists { name: *name });
    }
    if MOST_VOLUMES <= volumes.len() {
        return Some(limit(Counted::Volumes, MOST_VOLUMES as u64));
    }
    if (MOST_PLEXES as u32) < want.mirrors {
        return Some(limit(Counted::Plexes, MOST_PLEXES as u64));
    }
    if MOST_NUMBER - COMMIT_MARGIN < config.serial {
        return Some(limit(Counted::Number, MOST_NUMBER));
    }
    if !is_shape(want) {
        return Some(No::Size);
    }
    None
}

// A plex of these runs.
fn plex_of(alloc: Global, runs: &[Subdisk]) -> Result<PlexEntry, OutOfMemory>
    requires few { length runs.now ≤ 255 }
    ensures { IfOk result (λ p. p ≡ made_plex runs.now) }
{
    let mut subdisks = Subdisks::new(alloc);
    for run in runs {
        subdisks.push(*run)?;
    }
    Ok(PlexEntry {
        state: PlexState::Active,
        whole: false,
        subdisks,
    })
}

/// Whether each plex has a spelling.
pub fn are_few(found: &[Runs]) -> bool
    ensures { result ≡ list_all is_few found.now }
{
    found.iter().all(|runs| runs.as_slice().len() <= 255)
}

// The plexes of these runs.
fn plexes_of(alloc: Global, found: &[Runs]) -> Result<Plexes, OutOfMemory>
    requires many { length found.now ≤ MOST_PLEXES }
    requires few { list_all is_few found.now ≡ true }
    ensures { IfOk result (λ ps. ps ≡ map made_plex found.now) }
{
    let mut plexes = Plexes::new(alloc);
    for runs in found {
        plexes.push(plex_of(alloc, runs.as_slice())?)?;
    }
    Ok(plexes)
}

// The log in such a run. Its maps are not kept yet, so they are not to be trusted.
fn log_at(logs: &[Subdisk], place: usize) -> Option<LogEntry>
    ensures { result ≡ lost_log (slice_get logs.now place) }
{
    match logs.get(place) {
        Some(run) => Some(LogEntry {
            lost: true,
            disk: run.disk,
            start: run.start,
            blocks: run.blocks,
        }),
        None => None,
    }
}

// The log of the regions of writes, where it is wanted.
fn drl_of(want: &Shape, logs: &[Subdisk]) -> Option<LogEntry>
    ensures { result ≡ (if want.now.drl then lost_log (slice_get logs.now 0) else None) }
{
    if want.drl { log_at(logs, 0) } else { None }
}

// The log of missed regions, where it is wanted.
fn fmr_of(want: &Shape, logs: &[Subdisk]) -> Option<LogEntry>
    ensures { result ≡ (if want.now.fmr then lost_log (slice_get logs.now (if want.now.drl then 1 else 0)) else None) }
{
    if want.fmr {
        log_at(logs, usize::from(want.drl))
    } else {
        None
    }
}

fn preferred(want: &Shape) -> Option<u8>
    requires shape { IsShape want.now }
    requires prefer { IfSome want.now.prefer (λ p. p < want.now.mirrors) }
    ensures { result ≡ want.now.prefer }
{
    match want.prefer {
        Some(plex) => Some(plex as u8),
        None => None,
    }
}

/// The volume of this shape, in the space that was found. It takes memory.
pub fn volume_of(
    alloc: Global,
    name: &Name,
    want: &Shape,
    found: &Found,
) -> Result<VolumeEntry, OutOfMemory>
    requires shape { IsShape want.now }
    requires prefer { IfSome want.now.prefer (λ p. p < want.now.mirrors) }
    requires many { length found.now.plexes.items ≡ want.now.mirrors }
    requires few { list_all is_few found.now.plexes.items ≡ true }
    requires logs { length found.now.logs ≡ log_count want.now }
    ensures { IfOk result (λ v. IsVolume name.now want.now found.now v) }
{
    let plexes = plexes_of(alloc, &found.plexes)?;
    let logs = found.logs.as_slice();
    Ok(VolumeEntry {
        name: *name,
        blocks: want.blocks,
        ncol: want.ncol as u8,
        width: want.width,
        prefer: preferred(want),
        drl: drl_of(want, logs),
        fmr: fmr_of(want, logs),
        plexes,
    })
}
