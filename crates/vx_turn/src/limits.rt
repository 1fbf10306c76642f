// What a turn takes.

/// The most callers of a turn.
pub const MOST_CALLERS: u32 = 64;
