// The runs of blocks that subdisks and logs take, side by side.
ghost use Rattle.std.specs.Prelude.{◌≡◌, ◌+◌, ◌<◌, ◌≤◌, ◌++◌, length, flat_map, sum_by};
ghost use Rattle.std.specs.List.{list_all};
ghost use Rattle.vx_config.specs.Checks.{pairwise, are_apart as are_apart_is, in_region as in_region_is, are_placed as are_placed_is, log_run as log_run_is, log_runs, plex_runs, volume_runs, volume_room, runs as runs_is};
ghost use Rattle.vx_config.specs.Configs.{plex_subdisks, subdisk_count};

use crate::{Config, DiskEntry, LogEntry, PlexEntry, Subdisk, VolumeEntry};
use arrayvec::ArrayVec;
use vx_model::limits::{MOST_SUBDISKS, MOST_VOLUMES, PUBLIC_START};

// Room for all subdisks, and two logs of each volume.
const MOST_RUNS: usize = MOST_SUBDISKS + 2 * MOST_VOLUMES;

type Runs = ArrayVec<Subdisk, MOST_RUNS>;

/// The blocks of a log as a run of its disk.
pub fn log_run(log: &LogEntry) -> Subdisk
    ensures { result ≡ log_run_is log.now }
{
    Subdisk {
        disk: log.disk,
        start: log.start,
        blocks: log.blocks,
    }
}

fn push_log(runs: &mut Runs, log: &Option<LogEntry>)
    requires { length runs.old.items < MOST_RUNS }
    ensures { runs.new.items ≡ runs.old.items ++ log_runs log.now }
{
    if let Some(log) = log {
        runs.push(log_run(log));
    }
}

fn push_subdisks(runs: &mut Runs, subdisks: &[Subdisk])
    requires { length runs.old.items + length subdisks.now ≤ MOST_RUNS }
    ensures { runs.new.items ≡ runs.old.items ++ subdisks.now }
{
    for subdisk in subdisks {
        runs.push(*subdisk);
    }
}

fn push_plexes(runs: &mut Runs, plexes: &[PlexEntry])
    requires { length runs.old.items + sum_by plex_subdisks plexes.now ≤ MOST_RUNS }
    ensures { runs.new.items ≡ runs.old.items ++ flat_map plex_runs plexes.now }
{
    for plex in plexes {
        push_subdisks(runs, plex.subdisks.as_slice());
    }
}

fn push_volume(runs: &mut Runs, volume: &VolumeEntry)
    requires { length runs.old.items + volume_room volume.now ≤ MOST_RUNS }
    ensures { runs.new.items ≡ runs.old.items ++ volume_runs volume.now }
{
    push_plexes(runs, volume.plexes.as_slice());
    push_log(runs, &volume.drl);
    push_log(runs, &volume.fmr);
}

fn push_volumes(runs: &mut Runs, volumes: &[VolumeEntry])
    requires { length runs.old.items + sum_by volume_room volumes.now ≤ MOST_RUNS }
    ensures { runs.new.items ≡ runs.old.items ++ flat_map volume_runs volumes.now }
{
    for volume in volumes {
        push_volume(runs, volume);
    }
}

#[tactic(auto, unfolding(crate::specs::Checks::runs))]
fn runs_of(config: &Config) -> Runs
    requires { subdisk_count config.now ≤ MOST_SUBDISKS }
    ensures { result.items ≡ runs_is config.now }
{
    let mut runs = Runs::new();
    push_volumes(&mut runs, config.volumes.as_slice());
    runs
}

#[tactic(auto, unfolding(crate::specs::Checks::are_apart))]
fn are_apart(a: &Subdisk, b: &Subdisk) -> bool
    ensures { result ≡ are_apart_is a.now b.now }
{
    let a_end = u128::from(a.start) + u128::from(a.blocks);
    let b_end = u128::from(b.start) + u128::from(b.blocks);
    a.disk != b.disk || a_end.min(b_end) <= u128::from(a.start.max(b.start))
}

fn is_apart_from(run: &Subdisk, others: &[Subdisk]) -> bool
    ensures { result ≡ list_all (are_apart_is run.now) others.now }
{
    others.iter().all(|other| are_apart(run, other))
}

fn all_apart(runs: &[Subdisk]) -> bool
    ensures { result ≡ pairwise are_apart_is runs.now }
{
    for i in 0..runs.len() {
        if !is_apart_from(&runs[i], &runs[i + 1..]) {
            return false;
        }
    }
    true
}

fn in_region(disks: &[DiskEntry], run: &Subdisk) -> bool
    ensures { result ≡ in_region_is disks.now run.now }
{
    let end = u128::from(run.start) + u128::from(run.blocks);
    match disks.get(run.disk as usize) {
        Some(disk) => run.start >= PUBLIC_START && end <= u128::from(disk.blocks),
        None => false,
    }
}

fn all_in_region(disks: &[DiskEntry], runs: &[Subdisk]) -> bool
    ensures { result ≡ list_all (in_region_is disks.now) runs.now }
{
    runs.iter().all(|run| in_region(disks, run))
}

/// Whether all subdisks and logs lie in the public regions of disks that there are, and no two overlap.
pub fn are_placed(config: &Config) -> bool
    requires { subdisk_count config.now ≤ MOST_SUBDISKS }
    ensures { result ≡ are_placed_is config.now }
{
    let runs = runs_of(config);
    all_in_region(config.disks.as_slice(), runs.as_slice()) && all_apart(runs.as_slice())
}
