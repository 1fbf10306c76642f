// The memory of a commit.
ghost use Rattle.std.specs.Prelude.{◌≡◌, ◌≤◌, IfOk};
ghost use Rattle.vx_config.specs.Configs.{CanSpell, subdisk_count};
ghost use Rattle.vx_copies.specs.Bodies.{body_bytes};
ghost use Rattle.vx_model.specs.declared.limits.TheConstants.{MOST_SUBDISKS};

use std::alloc::Global;
use std::marker::Model;
use vx_config::{Config, is_short};
use vx_model::OutOfMemory;
use vx_model::limits::MOST_CONFIG_BYTES;

/// The bytes of one encoded configuration, in whole blocks. Contracts see how many there are.
#[derive(Drop)]
pub struct Room {
    pub(crate) bytes: Vec<u8>,
}

impl Model for Room {
    ghost use Rattle.std.specs.Prelude.{◌≡◌, ℕ, vec_len};

    ghost Value = { ℕ };

    ghost view = { λ r. vec_len r.bytes };

    ghost use Rattle.vx_model.specs.declared.limits.TheConstants.{MOST_CONFIG_BYTES};

    ghost invariant = { λ r. vec_len r.bytes ≡ MOST_CONFIG_BYTES };
}

impl Room {
    /// Room for a configuration, and for any other that can be written to a configuration area.
    pub fn new(alloc: Global, config: &Config) -> Result<Room, OutOfMemory>
        requires can { CanSpell config.now }
        requires short { subdisk_count config.now ≤ MOST_SUBDISKS }
        ensures { IfOk result (λ room. body_bytes config.now ≤ room) }
    {
        is_short(config);
        match vec![in alloc; 0; MOST_CONFIG_BYTES] {
            Ok(bytes) => Ok(Room { bytes }),
            Err(_) => Err(OutOfMemory),
        }
    }
}
