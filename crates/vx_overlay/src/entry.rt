// One block that waits.

use vx_model::limits::BLOCK;

/// A block of 512 bytes that waits to be written to its place in a volume.
#[derive(Clone, Copy)]
pub struct Entry {
    pub volume: u32,
    pub block: u64,
    pub bytes: [u8; BLOCK],
}
