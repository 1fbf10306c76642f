// The configuration with a volume more, beside the one in memory.
ghost use Rattle.std.specs.Prelude.{◌≡◌, ◌<◌, ◌≤◌, length, true, false, IfOk};
ghost use Rattle.vx_config.specs.Checks.{is_sound};
ghost use Rattle.vx_config.specs.Configs.{CanSpell, subdisk_count};
ghost use Rattle.vx_model.specs.declared.limits.TheConstants.{MOST_SUBDISKS, MOST_VOLUMES};
ghost use Rattle.vx_group.specs.Nexts.{LongerEnds};

use std::alloc::Global;
use vx_config::{Config, VolumeEntry, check, decode, encode};
use vx_model::limits::MOST_SUBDISKS;
use vx_model::{Counted, No, OutOfMemory, Stop};

// The same configuration once more: its spelling is read again.
fn twin_of(alloc: Global, config: &Config) -> Result<Config, OutOfMemory>
    requires can { CanSpell config.now }
    requires few { subdisk_count config.now ≤ MOST_SUBDISKS }
    ensures { IfOk result (λ c. c ≡ config.now) }
{
    let bytes = match encode(alloc, config) {
        Ok(bytes) => bytes,
        Err(_) => return Err(OutOfMemory),
    };
    match decode(alloc, bytes.as_slice()) {
        Ok((twin, _)) => Ok(twin),
        Err(_) => Err(OutOfMemory),
    }
}

/// The configuration with a volume more. Answers 19 where it has more than 1,024 subdisks. It takes memory.
pub fn longer(alloc: Global, config: &Config, volume: VolumeEntry) -> Result<Config, Stop>
    requires can { CanSpell config.now }
    requires few { subdisk_count config.now ≤ MOST_SUBDISKS }
    requires room { length config.now.volumes < MOST_VOLUMES }
    ensures { LongerEnds config.now volume result }
{
    let mut next = match twin_of(alloc, config) {
        Ok(next) => next,
        Err(_) => return Err(Stop::OutOfMemory),
    };
    match next.volumes.push(volume) {
        Ok(()) => {}
        Err(_) => return Err(Stop::OutOfMemory),
    }
    if !check(&next) {
        return Err(Stop::No(No::Limit {
            what: Counted::Subdisks,
            most: MOST_SUBDISKS as u64,
        }));
    }
    Ok(next)
}
