// What stops the reading of a line.

/// Why a line was not read.
#[derive(Clone, Copy)]
pub enum Wrong {
    /// So many bytes of the line are left from its first wrong word on.
    Left(usize),
    Memory,
}
