// What a configuration says of the logs of a volume.
ghost use Rattle.std.specs.Prelude.{◌≡◌};
ghost use Rattle.vx_config.specs.Checks.{plexes_of as plexes_of_is};
ghost use Rattle.vx_maplog.specs.Logs.{is_used as is_used_is, log_of as log_of_is};

use vx_config::{Config, LogEntry, VolumeLog};

/// Where a log of a volume lies; none where there is no such volume or log.
pub fn log_of(config: &Config, volume: u32, log: VolumeLog) -> Option<LogEntry>
    ensures { result ≡ log_of_is config.now volume log }
{
    match config.volumes.as_slice().get(volume as usize) {
        Some(entry) => match log {
            VolumeLog::Drl => entry.drl,
            VolumeLog::Fmr => entry.fmr,
        },
        None => None,
    }
}

/// Whether a volume has a log that is not lost.
pub fn is_used(config: &Config, volume: u32, log: VolumeLog) -> bool
    ensures { result ≡ is_used_is config.now volume log }
{
    match log_of(config, volume, log) {
        Some(entry) => !entry.lost,
        None => false,
    }
}

/// How many plexes a volume has; none where there is no such volume.
pub fn plexes_of(config: &Config, volume: u32) -> u64
    ensures { result ≡ plexes_of_is config.now volume }
{
    match config.volumes.as_slice().get(volume as usize) {
        Some(entry) => entry.plexes.as_slice().len() as u64,
        None => 0,
    }
}
