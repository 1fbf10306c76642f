// The bytes of a map of regions.
ghost use Rattle.std.specs.Prelude.{◌≡◌, ◌≤◌, length};
ghost use Rattle.vx_model.specs.declared.limits.TheConstants.{MOST_MAP_BYTES};

use std::marker::Model;

/// Up to 65,536 bytes, which stand elsewhere. Contracts see them. Region r is bit `r % 8`, from the lowest, of byte `r / 8`.
#[derive(Drop)]
pub struct MapBytes<'a> {
    bytes: &'a [u8],
}

impl<'a> Model for MapBytes<'a> {
    ghost use Rattle.std.specs.Prelude.{List, ℕ, length, ◌≤◌};
    ghost use Rattle.vx_model.specs.declared.limits.TheConstants.{MOST_MAP_BYTES};

    ghost Value = { List ℕ };

    ghost view = { λ b. b.bytes.now };

    ghost invariant = { λ b. length b.bytes.now ≤ MOST_MAP_BYTES };
}

impl<'a> MapBytes<'a> {
    /// These bytes, of which there are few enough.
    pub fn new(bytes: &'a [u8]) -> MapBytes<'a>
        requires { length bytes.now ≤ MOST_MAP_BYTES }
        ensures { result ≡ bytes.now }
    {
        MapBytes { bytes }
    }

    /// The bytes of the map.
    pub fn as_bytes(&self) -> &[u8]
        ensures bytes { result.now ≡ self.now }
        ensures few { length self.now ≤ MOST_MAP_BYTES }
    {
        self.bytes
    }
}
