// A group but for the shelf below it.
use crate::inner::Inner;

/// A plex that is held back.
#[derive(Clone, Copy)]
pub struct Held {
    pub vol: u32,
    pub plex: u32,
}

/// All of a group but the shelf below it.
#[derive(Drop)]
pub struct GroupCore {
    pub inner: Inner,
    /// A plex that is STALE here and may be ACTIVE by what the disks keep: the commit that makes it ACTIVE was refused, and so was the one
    /// that takes this back.
    pub held: Option<Held>,
}
