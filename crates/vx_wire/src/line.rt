// Lines at a place: the generation in 8 bytes, then the origin in 4.
ghost use Rattle.std.specs.Prelude.{◌≡◌, ◌+◌, ◌≤◌, length};
ghost use Rattle.vx_wire.specs.Fields.{line_bytes};
ghost use Rattle.vx_wire.specs.Numbers.{number_at};
ghost use Rattle.vx_wire.specs.Places.{put_at, StandsAt};

use crate::number::{get_u32, get_u64, put_u32, put_u64};
use vx_model::Line;

/// The line in the 12 bytes from a place on.
pub fn get_line(bytes: &[u8], at: usize) -> Line
    requires { at + 12 ≤ length bytes.now }
    ensures generation { result.generation ≡ number_at 8 at bytes.now }
    ensures origin { result.origin ≡ number_at 4 (at + 8) bytes.now }
    ensures spelled { StandsAt at (line_bytes result) bytes.now }
{
    Line {
        generation: get_u64(bytes, at),
        origin: get_u32(bytes, at + 8),
    }
}

/// Writes a line in the 12 bytes from a place on.
pub fn put_line(bytes: &mut [u8], at: usize, line: Line)
    requires { at + 12 ≤ length bytes.old }
    ensures { bytes.new ≡ put_at at (line_bytes line) bytes.old }
{
    put_u64(bytes, at, line.generation);
    put_u32(bytes, at + 8, line.origin);
}
