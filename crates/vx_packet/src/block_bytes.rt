// The blocks of an update.
ghost use Rattle.std.specs.Prelude.{◌≡◌};
ghost use Rattle.vx_packet.specs.Buffers.{AreWholeBlocks};

use std::marker::Model;
use vx_model::Blocks;
use vx_model::limits::MOST_CALL_BLOCKS;

/// 1 to 16 blocks of 512 bytes, which stand elsewhere. Contracts see their bytes.
#[derive(Drop)]
pub struct BlockBytes<'a> {
    bytes: &'a [u8],
}

impl<'a> Model for BlockBytes<'a> {
    ghost use Rattle.std.specs.Prelude.{List, ℕ};
    ghost use Rattle.vx_model.specs.declared.limits.TheConstants.{MOST_CALL_BLOCKS};
    ghost use Rattle.vx_packet.specs.Buffers.{AreWholeBlocks};

    ghost Value = { List ℕ };

    ghost view = { λ b. b.bytes.now };

    ghost invariant = { λ b. AreWholeBlocks MOST_CALL_BLOCKS b.bytes.now };
}

impl<'a> BlockBytes<'a> {
    /// These bytes, which are 1 to 16 whole blocks.
    pub fn new(bytes: &'a [u8]) -> BlockBytes<'a>
        requires { AreWholeBlocks MOST_CALL_BLOCKS bytes.now }
        ensures { result ≡ bytes.now }
    {
        BlockBytes { bytes }
    }

    /// Those of the blocks of a write.
    pub fn of(blocks: &'a Blocks) -> BlockBytes<'a>
        ensures bytes { result ≡ blocks.now }
        ensures blocks { AreWholeBlocks MOST_CALL_BLOCKS blocks.now }
    {
        BlockBytes {
            bytes: blocks.as_bytes(),
        }
    }

    /// The bytes of the blocks.
    pub fn as_bytes(&self) -> &[u8]
        ensures bytes { result.now ≡ self.now }
        ensures blocks { AreWholeBlocks MOST_CALL_BLOCKS self.now }
    {
        self.bytes
    }

    /// The blocks, in a value of their own.
    pub fn blocks(&self) -> Blocks
        ensures { result ≡ self.now }
    {
        Blocks::new(self.bytes)
    }
}
