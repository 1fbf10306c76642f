// What a burst takes.

/// The most threads of a burst.
pub const MOST_THREADS: u32 = 8;
/// The most peers of a burst.
pub const MOST_PEERS: usize = 8;
