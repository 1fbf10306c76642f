// What the calls of a group go by.
use vx_config::Config;
use vx_copies::Room;
use vx_model::limits::MOST_VOLUMES;

/// The configuration in memory, and what is known of the disks and of the volumes beside.
#[derive(Drop)]
pub struct Inner {
    pub config: Config,
    /// The disks that the newest committed configuration holds as good.
    pub good: u8,
    /// The memory of a commit.
    pub room: Room,
    /// A commit was refused, and none was made since.
    pub unsettled: bool,
    /// The newest configuration is committed: it is that of each image that a crash may leave.
    pub committed: bool,
    /// Whichever disks can be read behind a crash, an import finds one configuration, or none.
    pub agreed: bool,
    /// Of each volume the plex that the next read asks first.
    pub next: [u32; MOST_VOLUMES],
    /// Of each volume how many calls on it failed.
    pub faults: [u64; MOST_VOLUMES],
    /// Of each volume whether a write or a flush of it failed with a fault since the group was made: its plexes may differ.
    pub unsure: [bool; MOST_VOLUMES],
}
