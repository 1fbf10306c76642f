// How many blocks a volume of a configuration has.
ghost use Rattle.std.specs.Prelude.{◌≡◌};
ghost use Rattle.vx_config.specs.Checks.{blocks_of as blocks_of_is};

use crate::Config;

/// The blocks of a volume; none where there is no such volume.
pub fn blocks_of(config: &Config, vol: u32) -> u64
    ensures { result ≡ blocks_of_is config.now.volumes vol }
{
    match config.volumes.as_slice().get(vol as usize) {
        Some(volume) => volume.blocks,
        None => 0,
    }
}
