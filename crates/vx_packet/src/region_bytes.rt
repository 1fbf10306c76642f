// The blocks of a region.
ghost use Rattle.std.specs.Prelude.{◌≡◌};
ghost use Rattle.vx_model.specs.declared.limits.TheConstants.{REGION};
ghost use Rattle.vx_packet.specs.Buffers.{AreWholeBlocks};

use std::marker::Model;

/// 1 to 64 blocks of 512 bytes, which stand elsewhere. Contracts see their bytes.
#[derive(Drop)]
pub struct RegionBytes<'a> {
    bytes: &'a [u8],
}

impl<'a> Model for RegionBytes<'a> {
    ghost use Rattle.std.specs.Prelude.{List, ℕ};
    ghost use Rattle.vx_model.specs.declared.limits.TheConstants.{REGION};
    ghost use Rattle.vx_packet.specs.Buffers.{AreWholeBlocks};

    ghost Value = { List ℕ };

    ghost view = { λ b. b.bytes.now };

    ghost invariant = { λ b. AreWholeBlocks REGION b.bytes.now };
}

impl<'a> RegionBytes<'a> {
    /// These bytes, which are 1 to 64 whole blocks.
    pub fn new(bytes: &'a [u8]) -> RegionBytes<'a>
        requires { AreWholeBlocks REGION bytes.now }
        ensures { result ≡ bytes.now }
    {
        RegionBytes { bytes }
    }

    /// The bytes of the blocks.
    pub fn as_bytes(&self) -> &[u8]
        ensures bytes { result.now ≡ self.now }
        ensures blocks { AreWholeBlocks REGION self.now }
    {
        self.bytes
    }
}
