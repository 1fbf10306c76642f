// What reads of disks gave.
use vx_config::Config;

/// The body behind a header: a configuration, or bytes whose digest is not the one that the header has.
#[derive(Drop)]
pub enum BodySeen {
    Holds(Config),
    Differs {
        stored: [u8; 32],
        computed: [u8; 32],
    },
}

/// A header that counts, with the block where it stands and its body.
#[derive(Drop)]
pub struct CopySeen {
    pub serial: u64,
    pub area: u32,
    pub body: BodySeen,
}

/// What reads of an area gave: its copy, if its header counts.
#[derive(Drop)]
pub enum AreaSeen {
    Unreadable,
    Seen(Option<CopySeen>),
}

/// What reads of a disk gave: its greater copy, if it has a label and one.
#[derive(Drop)]
pub enum DiskSeen {
    Unreadable,
    Format { version: u32 },
    Seen(Option<CopySeen>),
}
