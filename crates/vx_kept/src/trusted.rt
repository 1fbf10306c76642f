// Which logs of volumes are held as lost.
ghost use Rattle.std.specs.Prelude.{◌≡◌};
ghost use Rattle.vx_kept.specs.LogRuns.{log_trusted};

use vx_config::{Config, VolumeLog};
use vx_maplog::is_used;

/// Whether a volume has a log that is not held as lost.
#[tactic(auto, unfolding(crate::specs::LogRuns::log_trusted))]
pub fn is_trusted(config: &Config, vol: u32, log: VolumeLog) -> bool
    ensures { result ≡ log_trusted config.now vol log }
{
    is_used(config, vol, log)
}
