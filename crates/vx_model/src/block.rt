// One block.
ghost use Rattle.std.specs.Prelude.{◌≡◌, length};

use crate::limits::BLOCK;
use std::marker::Model;

/// A block of 512 bytes, kept in the value itself. Contracts see its bytes.
#[derive(Clone, Copy)]
pub struct Block {
    bytes: [u8; BLOCK],
}

impl Model for Block {
    ghost use Rattle.std.specs.Prelude.{◌≡◌, List, ℕ, length, refl};
    ghost use Rattle.std.specs.Coded.{coded_list, coded_ℕ};
    ghost use Rattle.vx_model.specs.declared.limits.TheConstants.{BLOCK};

    ghost Value = { List ℕ };

    ghost coded = { coded_list coded_ℕ };

    ghost view = { λ b. b.bytes };

    ghost invariant = { λ b. length b.bytes ≡ BLOCK };

    ghost inverse = { λ d. record { bytes = d } };

    ghost inverse_ok = { λ a h. refl };
}

impl Block {
    /// These bytes.
    pub fn new(bytes: [u8; BLOCK]) -> Block
        ensures { result ≡ bytes }
    {
        Block { bytes }
    }

    /// The bytes of the block.
    pub fn as_bytes(&self) -> &[u8]
        ensures bytes { result.now ≡ self.now }
        ensures whole { length self.now ≡ BLOCK }
    {
        &self.bytes
    }
}
