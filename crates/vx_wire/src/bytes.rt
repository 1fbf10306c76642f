// Runs of bytes at a place, and digests.
ghost use Rattle.std.specs.Prelude.{◌≡◌, ◌↔◌, ◌+◌, ◌≤◌, length, IsTrue};
ghost use Rattle.vx_wire.specs.Fields.{zero_bytes};
ghost use Rattle.vx_wire.specs.Places.{cut, put_at};
ghost use Rattle.vx_wire.specs.Seals.{digest_of};

use sha2::{Digest, Sha256};

/// The bytes from a place on, as many as the array has. A digest is 32.
pub fn get_bytes<const N: usize>(bytes: &[u8], at: usize) -> [u8; N]
    requires { at + N ≤ length bytes.now }
    ensures { result ≡ cut at N bytes.now }
{
    let mut found = [0; N];
    found.copy_from_slice(&bytes[at..at + N]);
    found
}

/// Writes bytes from a place on.
pub fn put_bytes(bytes: &mut [u8], at: usize, part: &[u8])
    requires { at + length part.now ≤ length bytes.old }
    ensures { bytes.new ≡ put_at at part.now bytes.old }
{
    bytes[at..at + part.len()].copy_from_slice(part);
}

/// Whether so many bytes from a place on are all zero.
pub fn is_zero(bytes: &[u8], at: usize, count: usize) -> bool
    requires { at + count ≤ length bytes.now }
    ensures { IsTrue result ↔ (cut at count bytes.now ≡ zero_bytes count) }
{
    bytes[at..at + count].iter().all(|byte| *byte == 0)
}

/// Writes so many zeros from a place on.
pub fn put_zeros(bytes: &mut [u8], at: usize, count: usize)
    requires { at + count ≤ length bytes.old }
    ensures { bytes.new ≡ put_at at (zero_bytes count) bytes.old }
{
    bytes[at..at + count].fill(0);
}

/// The digest of bytes: SHA-256 (FIPS 180-4).
pub fn digest(bytes: &[u8]) -> [u8; 32]
    ensures { result ≡ digest_of bytes.now }
{
    Sha256::digest(bytes)
}
