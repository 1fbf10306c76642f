// Names at a place: the length in one byte, then the bytes.
ghost use Rattle.std.specs.Prelude.{◌≡◌, ◌+◌, ◌<◌, ◌≤◌, ℕ, List, length, IfSome, Some};
ghost use Rattle.vx_wire.specs.Fields.{name_bytes};
ghost use Rattle.vx_wire.specs.Places.{put_at, StandsAt};

use crate::bytes::put_bytes;
use crate::number::put_u8;
use vx_model::Name;
use vx_model::limits::MOST_NAME_BYTES;

/// The name at a place: None exactly where no name of 1 to 8 bytes stands there whole.
pub fn get_name(bytes: &[u8], at: usize) -> Option<Name>
    ensures found { IfSome result (λ name. StandsAt at (name_bytes name) bytes.now) }
    ensures only { (name : List ℕ) → 0 < length name → length name ≤ MOST_NAME_BYTES → StandsAt at (name_bytes name) bytes.now → result ≡ Some name }
{
    if bytes.len() <= at {
        return None;
    }
    let len = bytes[at] as usize;
    if len == 0 || len > MOST_NAME_BYTES || bytes.len() - at <= len {
        return None;
    }
    Some(Name::new(&bytes[at + 1..at + 1 + len]))
}

/// Writes a name from a place on: one byte more than it has.
pub fn put_name(bytes: &mut [u8], at: usize, name: &Name)
    requires { at + length (name_bytes name.now) ≤ length bytes.old }
    ensures { bytes.new ≡ put_at at (name_bytes name.now) bytes.old }
{
    let part = name.as_bytes();
    put_u8(bytes, at, part.len() as u8);
    put_bytes(bytes, at + 1, part);
}
