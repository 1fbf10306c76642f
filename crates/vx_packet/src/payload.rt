// The payload of a message, and its parts.
ghost use Rattle.std.specs.Prelude.{◌≡◌, ◌+◌, ◌*◌, ◌<◌, ◌≤◌, ◌++◌, length};
ghost use Rattle.vx_model.specs.declared.limits.TheConstants.{MOST_MAP_BYTES};
ghost use Rattle.vx_packet.specs.Messages.{chunk, part_count as part_count_is, count_of_parts, payload_of};
ghost use Rattle.vx_wire.specs.Places.{put_at};

use crate::Message;
use crate::row::row_of;
use vx_model::limits::PART_BYTES;
use vx_wire::put_bytes;

/// In how many parts a payload of so many bytes goes.
pub fn part_count(len: usize) -> u32
    requires { len ≤ 24 + MOST_MAP_BYTES }
    ensures { result ≡ part_count_is len }
{
    len.div_ceil(PART_BYTES).max(1) as u32
}

/// Writes a part of a payload, which is two runs of bytes, from a place on.
pub fn put_chunk(into: &mut [u8], at: usize, front: &[u8], bytes: &[u8], part: usize)
    requires front { length front.now ≤ 24 }
    requires few { length bytes.now ≤ MOST_MAP_BYTES }
    requires part { PART_BYTES * part ≤ length front.now + length bytes.now }
    requires room { at + PART_BYTES ≤ length into.old }
    ensures { into.new ≡ put_at at (chunk part (front.now ++ bytes.now)) into.old }
{
    if part == 0 {
        let end = bytes.len().min(PART_BYTES - front.len());
        put_bytes(into, at, front);
        put_bytes(into, at + front.len(), &bytes[..end]);
    } else {
        let from = PART_BYTES * part - front.len();
        let end = bytes.len().min(from + PART_BYTES);
        put_bytes(into, at, &bytes[from..end]);
    }
}
