// Tables of numbers.
ghost use Rattle.std.specs.Prelude.{◌≡◌, ◌+◌, ◌≤◌, length};
ghost use Rattle.vx_wire.specs.Fields.{spelled, field_bytes};
ghost use Rattle.vx_wire.specs.Places.{put_at};

use crate::number::{put_u8, put_u16, put_u32, put_u64};

/// A number of a table, with its width in bits.
#[derive(Clone, Copy, Debug, PartialEq, Eq)]
pub enum Field {
    U8(u8),
    U16(u16),
    U32(u32),
    U64(u64),
}

impl Field {
    #[tactic(auto, using(crate::proofs::NumberLemmas::widths))]
    // Writes it at a place, and answers the place behind it.
    fn put(self, bytes: &mut [u8], at: usize) -> usize
        requires { at + length (field_bytes self) ≤ length bytes.old }
        ensures next { result ≡ at + length (field_bytes self) }
        ensures written { bytes.new ≡ put_at at (field_bytes self) bytes.old }
    {
        match self {
            Field::U8(number) => {
                put_u8(bytes, at, number);
                at + 1
            }
            Field::U16(number) => {
                put_u16(bytes, at, number);
                at + 2
            }
            Field::U32(number) => {
                put_u32(bytes, at, number);
                at + 4
            }
            Field::U64(number) => {
                put_u64(bytes, at, number);
                at + 8
            }
        }
    }
}

/// Writes a table from a place on, and answers the place behind it.
pub fn put_fields(bytes: &mut [u8], at: usize, fields: &[Field]) -> usize
    requires { at + length (spelled fields.now) ≤ length bytes.old }
    ensures next { result ≡ at + length (spelled fields.now) }
    ensures written { bytes.new ≡ put_at at (spelled fields.now) bytes.old }
{
    let mut place = at;
    for field in fields {
        place = field.put(bytes, place);
    }
    place
}
