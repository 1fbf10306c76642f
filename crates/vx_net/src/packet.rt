// A packet as it is kept.
ghost use Rattle.std.specs.Prelude.{◌≡◌, ◌≤◌, length};

use arrayvec::ArrayVec;
use std::marker::Model;

/// A packet of at most 1,072 bytes, seen as its bytes.
#[derive(Drop)]
pub struct Packet {
    bytes: ArrayVec<u8, 1072>,
}

impl Model for Packet {
    ghost use Rattle.std.specs.Prelude.{List, ℕ};

    ghost Value = { List ℕ };

    ghost view = { λ p. p.bytes.items };
}

impl Packet {
    /// These bytes.
    pub fn new(bytes: &[u8]) -> Packet
        requires { length bytes.now ≤ 1072 }
        ensures { result ≡ bytes.now }
    {
        let mut held = ArrayVec::new();
        let _fits = held.try_extend_from_slice(bytes);
        Packet { bytes: held }
    }

    /// The bytes as a slice.
    pub fn as_slice(&self) -> &[u8]
        ensures { result.now ≡ self.now }
    {
        &self.bytes
    }
}
