// The blocks of one read or write.
ghost use Rattle.std.specs.Prelude.{◌≡◌, ◌≤◌, ◌<◌, ◌*◌, ◌%◌, ◌^◌, length, replicate};

use crate::limits::{BLOCK, MOST_CALL_BLOCKS, MOST_CALL_BYTES};
use std::marker::Model;

/// 1 to 16 blocks of 512 bytes, kept in the value itself. Contracts see their bytes.
#[derive(Clone, Copy)]
pub struct Blocks {
    bytes: [u8; MOST_CALL_BYTES],
    len: usize,
}

impl Model for Blocks {
    ghost use Rattle.std.specs.Prelude.{List, ℕ, length};
    ghost use Rattle.std.specs.Coded.{coded_list, coded_ℕ};

    ghost Value = { List ℕ };

    ghost coded = { coded_list coded_ℕ };

    ghost use Rattle.vx_model.specs.Kept.{front, padded};
    ghost use Rattle.vx_model.specs.declared.limits.TheConstants.{MOST_CALL_BYTES};
    ghost use Rattle.vx_model.specs.BlockLists.{IsBlockList, padded-front};

    ghost view = { λ n. front n.len n.bytes };

    ghost invariant = { λ n. IsBlockList n.len n.bytes };

    ghost inverse = { λ d. record { bytes = padded MOST_CALL_BYTES d; len = length d } };

    ghost inverse_ok = { λ a h. padded-front a h };
}

impl Blocks {
    /// These bytes, which are 1 to 16 whole blocks.
    pub fn new(bytes: &[u8]) -> Blocks
        requires some { 0 < length bytes.now }
        requires few { length bytes.now ≤ MOST_CALL_BYTES }
        requires whole { length bytes.now % BLOCK ≡ 0 }
        ensures { result ≡ bytes.now }
    {
        let mut held = [0; MOST_CALL_BYTES];
        held[..bytes.len()].copy_from_slice(bytes);
        Blocks {
            bytes: held,
            len: bytes.len(),
        }
    }

    /// So many blocks, each byte of which is `byte`.
    pub fn filled(count: u64, byte: u8) -> Blocks
        requires some { 0 < count }
        requires few { count ≤ MOST_CALL_BLOCKS }
        ensures { result ≡ replicate (BLOCK * count) byte }
    {
        let len = BLOCK * count as usize;
        let mut held = [0; MOST_CALL_BYTES];
        held[..len].fill(byte);
        Blocks { bytes: held, len }
    }

    /// The bytes of the blocks.
    pub fn as_bytes(&self) -> &[u8]
        ensures bytes { result.now ≡ self.now }
        ensures some { 0 < length self.now }
        ensures few { length self.now ≤ MOST_CALL_BYTES }
        ensures whole { length self.now % BLOCK ≡ 0 }
    {
        &self.bytes[..self.len]
    }
}
