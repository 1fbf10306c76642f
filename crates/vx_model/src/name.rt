// Names of sites and volumes.
ghost use Rattle.std.specs.Prelude.{◌≡◌, ◌≤◌, ◌<◌, length};

use crate::limits::MOST_NAME_BYTES;
use std::marker::Model;

/// A name of 1 to 8 bytes. Contracts see its bytes.
#[derive(Clone, Copy, Debug, PartialEq, Eq)]
pub struct Name {
    bytes: [u8; MOST_NAME_BYTES],
    len: usize,
}

impl Model for Name {
    ghost use Rattle.std.specs.Prelude.{List, ℕ, length};
    ghost use Rattle.std.specs.Coded.{coded_list, coded_ℕ};

    ghost Value = { List ℕ };

    ghost coded = { coded_list coded_ℕ };

    ghost use Rattle.vx_model.specs.Kept.{front, padded};
    ghost use Rattle.vx_model.specs.declared.limits.TheConstants.{MOST_NAME_BYTES};
    ghost use Rattle.vx_model.specs.Names.{IsName, padded-front};

    ghost view = { λ n. front n.len n.bytes };

    ghost invariant = { λ n. IsName n.len n.bytes };

    ghost inverse = { λ d. record { bytes = padded MOST_NAME_BYTES d; len = length d } };

    ghost inverse_ok = { λ a h. padded-front a h };
}

impl Name {
    /// These bytes, as a name.
    pub fn new(bytes: &[u8]) -> Name
        requires some { 0 < length bytes.now }
        requires few { length bytes.now ≤ MOST_NAME_BYTES }
        ensures { result ≡ bytes.now }
    {
        let mut held = [0; MOST_NAME_BYTES];
        held[..bytes.len()].copy_from_slice(bytes);
        Name {
            bytes: held,
            len: bytes.len(),
        }
    }

    /// The bytes of the name.
    pub fn as_bytes(&self) -> &[u8]
        ensures bytes { result.now ≡ self.now }
        ensures some { 0 < length self.now }
        ensures few { length self.now ≤ MOST_NAME_BYTES }
    {
        &self.bytes[..self.len]
    }
}
