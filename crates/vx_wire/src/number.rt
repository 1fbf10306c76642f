// Numbers at a place.
ghost use Rattle.std.specs.Prelude.{◌≡◌, ℕ, ◌+◌, ◌<◌, ◌≤◌, ◌^◌, List, ◌∷◌, [], ◌++◌, length, slice_index, drop};
ghost use Rattle.vx_wire.specs.Numbers.{be_bytes, number_at, AreBytes};
ghost use Rattle.vx_wire.specs.Places.{cut, put_at};

use byteorder::{BigEndian, ByteOrder};

/// The bytes that are read as a number are its spelling, and a number that is spelled is read again.
pub fn numbers_are_spelled()
    ensures spelled { (bytes : List ℕ) → AreBytes bytes → be_bytes (length bytes) (number_at (length bytes) 0 bytes) ≡ bytes }
    ensures read { (w n : ℕ) (before rest : List ℕ) → n < 256 ^ w → number_at w (length before) (before ++ (be_bytes w n ++ rest)) ≡ n }
{}

/// The byte at a place.
pub fn get_u8(bytes: &[u8], at: usize) -> u8
    requires { at < length bytes.now }
    ensures number { result ≡ number_at 1 at bytes.now }
    ensures spelled { be_bytes 1 result ≡ cut at 1 bytes.now }
{
    bytes[at]
}

/// The number in the 2 bytes from a place on.
pub fn get_u16(bytes: &[u8], at: usize) -> u16
    requires { at + 2 ≤ length bytes.now }
    ensures number { result ≡ number_at 2 at bytes.now }
    ensures spelled { be_bytes 2 result ≡ cut at 2 bytes.now }
{
    BigEndian::read_u16(&bytes[at..at + 2])
}

/// The number in the 4 bytes from a place on.
pub fn get_u32(bytes: &[u8], at: usize) -> u32
    requires { at + 4 ≤ length bytes.now }
    ensures number { result ≡ number_at 4 at bytes.now }
    ensures spelled { be_bytes 4 result ≡ cut at 4 bytes.now }
{
    BigEndian::read_u32(&bytes[at..at + 4])
}

/// The number in the 8 bytes from a place on.
pub fn get_u64(bytes: &[u8], at: usize) -> u64
    requires { at + 8 ≤ length bytes.now }
    ensures number { result ≡ number_at 8 at bytes.now }
    ensures spelled { be_bytes 8 result ≡ cut at 8 bytes.now }
{
    BigEndian::read_u64(&bytes[at..at + 8])
}

/// Writes a byte at a place.
pub fn put_u8(bytes: &mut [u8], at: usize, number: u8)
    requires { at < length bytes.old }
    ensures { bytes.new ≡ put_at at (be_bytes 1 number) bytes.old }
{
    bytes[at] = number;
}

/// Writes a number in the 2 bytes from a place on.
pub fn put_u16(bytes: &mut [u8], at: usize, number: u16)
    requires { at + 2 ≤ length bytes.old }
    ensures { bytes.new ≡ put_at at (be_bytes 2 number) bytes.old }
{
    BigEndian::write_u16(&mut bytes[at..at + 2], number);
}

/// Writes a number in the 4 bytes from a place on.
pub fn put_u32(bytes: &mut [u8], at: usize, number: u32)
    requires { at + 4 ≤ length bytes.old }
    ensures { bytes.new ≡ put_at at (be_bytes 4 number) bytes.old }
{
    BigEndian::write_u32(&mut bytes[at..at + 4], number);
}

/// Writes a number in the 8 bytes from a place on.
pub fn put_u64(bytes: &mut [u8], at: usize, number: u64)
    requires { at + 8 ≤ length bytes.old }
    ensures { bytes.new ≡ put_at at (be_bytes 8 number) bytes.old }
{
    BigEndian::write_u64(&mut bytes[at..at + 8], number);
}
