// The limits of what the program takes, and the sizes that every crate goes by.

/// The bytes of a block.
pub const BLOCK: usize = 512;
/// The blocks of a region, the least part of a volume that a map tells apart.
pub const REGION: u64 = 64;
/// The regions that one block of a map has bits for.
pub const MAP_REGIONS: u64 = 4096;
/// The most blocks of maps, or of a log of regions, that are taken into memory.
pub const MOST_MAP_BLOCKS: u64 = 65_536;
/// The most blocks of one read or write.
pub const MOST_CALL_BLOCKS: u64 = 16;
/// The most bytes of one read or write.
pub const MOST_CALL_BYTES: usize = 8192;
/// The most bytes of a configuration as it is spelled, which is the room of an area.
pub const MOST_CONFIG_BYTES: usize = 65024;
/// The most bytes of a name.
pub const MOST_NAME_BYTES: usize = 8;

/// The most sites of a run.
pub const MOST_SITES: usize = 8;
/// The most disks of a site.
pub const MOST_DISKS: u32 = 8;
/// The places of a table that has one for each disk of a site.
pub const DISK_PLACES: usize = 8;
/// The least disks of a raw set: one for the log, one for maps, and a volume.
pub const LEAST_RAW_DISKS: u32 = 3;
/// The least blocks of a disk, and of a unit that holds a log.
pub const LEAST_BLOCKS: u64 = 8;
/// The least blocks of a disk of a group.
pub const LEAST_GROUP_BLOCKS: u64 = 1024;
/// The block of a disk of a group at which its public region begins.
pub const PUBLIC_START: u64 = 512;
/// The most blocks of a disk in memory.
pub const MOST_MEMORY_BLOCKS: u64 = 16_384;
/// The most blocks of a disk in a file.
pub const MOST_FILE_BLOCKS: u64 = 4_194_304;
/// The most blocks of a unit that its log uses.
pub const MOST_LOG_BLOCKS: u64 = 65_536;
/// The blocks at the front of a log unit that are its headers.
pub const LOG_HEADERS: u64 = 2;

/// The most volumes of a disk group.
pub const MOST_VOLUMES: usize = 32;
/// The most blocks of a volume of a disk group.
pub const MOST_VOLUME_BLOCKS: u64 = 1_099_511_627_776;
/// The most plexes of a volume.
pub const MOST_PLEXES: usize = 8;
/// The most columns of a striped plex.
pub const MOST_COLUMNS: u32 = 8;
/// The most subdisks of a disk group.
pub const MOST_SUBDISKS: usize = 1024;
/// The most data volumes of a replicated volume group.
pub const MOST_DATA_VOLUMES: usize = 30;

/// The most links of a primary or of a bunker.
pub const MOST_LINKS: u64 = 4;
/// The links that a log header has places for, and the link slots of a map unit.
pub const LINK_PLACES: usize = 8;
/// The most records that wait at a receiver.
pub const MOST_WAITING: u64 = 16;
/// The most updates that a link sends ahead of what its site has acknowledged.
pub const MOST_AHEAD: u64 = 8;
/// The most bytes of a message's payload that a packet carries.
pub const PART_BYTES: usize = 1024;
/// The most bytes of a map of regions that a message carries.
pub const MOST_MAP_BYTES: usize = 65_536;
/// The packets that the network keeps, the oldest being lost.
pub const MOST_PACKETS: usize = 65_536;

/// The serials that are left at least where a call of its own may commit.
pub const COMMIT_MARGIN: u64 = 65_536;
/// The most serials that one commit takes: its own, and one for each disk that is held as failed by it.
pub const COMMIT_SERIALS: u64 = 9;

/// The greatest serial, stamp, incarnation, run, generation, record number, and replay or freeze number.
pub const MOST_NUMBER: u64 = 0x7fff_ffff_ffff_ffff;
/// The other site of a site that has none.
pub const NO_SITE: u32 = 0xffff_ffff;
