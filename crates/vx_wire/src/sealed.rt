// Sealed blocks: 480 bytes of fields and zeros, then the digest of these bytes.
ghost use Rattle.std.specs.Prelude.{◌≡◌, ◌++◌, take, drop, MatchOption};
ghost use Rattle.vx_wire.specs.Seals.{digest_of, IsSealed, IsBroken};

use crate::bytes::{digest, get_bytes, put_bytes};
use vx_model::limits::BLOCK;

/// The digest that stands at the end of a block and the one of its first 480 bytes, where they differ.
#[derive(Clone, Copy, Debug, PartialEq, Eq)]
pub struct BrokenSeal {
    pub stored: [u8; 32],
    pub computed: [u8; 32],
}

/// Writes the digest of a block's first 480 bytes behind them.
pub fn seal(block: &mut [u8; BLOCK])
    ensures { block.new ≡ take 480 block.old ++ digest_of (take 480 block.old) }
{
    let front = digest(&block[..480]);
    put_bytes(block, 480, &front);
}

/// None exactly where a block ends with the digest of its first 480 bytes; else both digests.
pub fn broken_seal(block: &[u8; BLOCK]) -> Option<BrokenSeal>
    ensures { MatchOption result (IsSealed block.now) (λ broken. IsBroken block.now broken) }
{
    let stored = get_bytes(block, 480);
    let computed = digest(&block[..480]);
    if stored == computed {
        None
    } else {
        Some(BrokenSeal { stored, computed })
    }
}
