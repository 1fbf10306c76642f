// Lines of history.

/// A line of history: its generation, and the number of the site that began it.
#[derive(Clone, Copy, Debug, Default, PartialEq, Eq)]
pub struct Line {
    pub generation: u64,
    pub origin: u32,
}
