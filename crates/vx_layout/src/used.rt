// The runs of blocks that subdisks and logs take.
ghost use Rattle.std.specs.Prelude.{◌≡◌, ◌++◌, flat_map, IfOk, OnOk};
ghost use Rattle.vx_config.specs.Checks.{log_runs, plex_runs, runs as runs_is, volume_runs};

use std::alloc::Global;
use vx_config::{Config, LogEntry, PlexEntry, Subdisk, VolumeEntry, log_run};
use vx_model::OutOfMemory;

fn push_log(used: &mut Vec<Subdisk>, log: &Option<LogEntry>) -> Result<(), OutOfMemory>
    ensures { OnOk result (used.new.items ≡ used.old.items ++ log_runs log.now) }
{
    if let Some(log) = log {
        used.push(log_run(log))?;
    }
    Ok(())
}

fn push_plexes(used: &mut Vec<Subdisk>, plexes: &[PlexEntry]) -> Result<(), OutOfMemory>
    ensures { OnOk result (used.new.items ≡ used.old.items ++ flat_map plex_runs plexes.now) }
{
    for plex in plexes {
        used.extend_from_slice(plex.subdisks.as_slice())?;
    }
    Ok(())
}

fn push_volume(used: &mut Vec<Subdisk>, volume: &VolumeEntry) -> Result<(), OutOfMemory>
    ensures { OnOk result (used.new.items ≡ used.old.items ++ volume_runs volume.now) }
{
    push_plexes(used, volume.plexes.as_slice())?;
    push_log(used, &volume.drl)?;
    push_log(used, &volume.fmr)
}

/// The runs of all subdisks and logs of a configuration.
#[tactic(auto, unfolding(vx_config::specs::Checks::runs))]
pub fn runs_of(alloc: Global, config: &Config) -> Result<Vec<Subdisk>, OutOfMemory>
    ensures { IfOk result (λ used. used.items ≡ runs_is config.now) }
{
    let mut used = Vec::new(alloc);
    for volume in config.volumes.as_slice() {
        push_volume(&mut used, volume)?;
    }
    Ok(used)
}
