// Where the blocks of plexes lie.
ghost use Rattle.std.specs.Prelude.{◌≡◌, ◌+◌, ◌-◌, ◌*◌, ◌%◌, ◌<◌, ◌≤◌, ℕ, IsTrue, Some, sum_by};
ghost use Rattle.vx_config.specs.Checks.{column_blocks as column_blocks_is, in_region, is_sound};
ghost use Rattle.vx_layout.specs.Places.{HasBlock, InRegion, IsFilled, IsSeat, subdisk_blocks, linear as linear_is, located, place as place_is, place_in};

use vx_config::{Config, DiskEntry, PlexEntry, Subdisk, VolumeEntry, column_blocks};

/// A place, and how many blocks from it on lie one behind the other.
#[derive(Clone, Copy, Debug, PartialEq, Eq)]
pub struct Spot {
    pub disk: u32,
    pub at: u64,
    pub reach: u64,
}

// A block of a subdisk, and how many of its blocks from there on are meant.
#[derive(Clone, Copy)]
struct Seat {
    subdisk: Subdisk,
    offset: u64,
    reach: u64,
}

// Which block of which subdisk a block of subdisks is that stand one behind the other.
fn locate(subdisks: &[Subdisk], block: u128) -> Seat
    requires inside { block < sum_by subdisk_blocks subdisks.now }
    ensures seat { IsSeat subdisks.now result }
    ensures run { (j : ℕ) → j < result.reach → located subdisks.now (block + j) ≡ (result.subdisk.disk, result.subdisk.start + (result.offset + j)) }
{
    let mut left = block;
    for subdisk in subdisks {
        if left < u128::from(subdisk.blocks) {
            return Seat {
                subdisk: *subdisk,
                offset: left as u64,
                reach: subdisk.blocks - left as u64,
            };
        }
        left -= u128::from(subdisk.blocks);
    }
    unreachable!()
}

// Which block of a plex's subdisks a block of the volume is.
fn linear(volume: &VolumeEntry, block: u64) -> u128
    requires { 0 < volume.now.ncol }
    ensures { result ≡ linear_is (column_blocks_is volume.now) volume.now.ncol volume.now.width block }
{
    let block = u128::from(block);
    let width = u128::from(volume.width);
    let ncol = u128::from(volume.ncol);
    if volume.width == 0 {
        block
    } else {
        (block / width) % ncol * column_blocks(volume)
            + (block / width) / ncol * width
            + block % width
    }
}

// How many blocks from this one on lie in one unit.
fn unit_left(volume: &VolumeEntry, block: u64) -> u64
    ensures some { 0 < result }
    ensures unit { 0 < volume.now.width → result ≡ volume.now.width - block % volume.now.width }
{
    let width = u64::from(volume.width);
    if width == 0 {
        u64::MAX
    } else {
        width - block % width
    }
}

// Which block of which subdisk a block of a plex is.
fn seat_in(volume: &VolumeEntry, plex: &PlexEntry, block: u64) -> Seat
    requires filled { IsFilled volume.now plex.now }
    requires block { block < volume.now.blocks }
    ensures seat { IsSeat plex.now.subdisks result }
    ensures run { (j : ℕ) → j < result.reach → place_in volume.now (Some plex.now) (block + j) ≡ (result.subdisk.disk, result.subdisk.start + (result.offset + j)) }
{
    let seat = locate(plex.subdisks.as_slice(), linear(volume, block));
    Seat {
        subdisk: seat.subdisk,
        offset: seat.offset,
        reach: seat.reach.min(unit_left(volume, block)),
    }
}

// The blocks of a disk.
pub fn size_of(disk: &DiskEntry) -> u64
    ensures { result ≡ disk.now.blocks }
{
    disk.blocks
}

// Where that block lies.
fn spot_of(disks: &[DiskEntry], seat: Seat) -> Spot
    requires region { IsTrue (in_region disks.now seat.subdisk) }
    requires inside { seat.offset + seat.reach ≤ seat.subdisk.blocks }
    ensures disk { result.disk ≡ seat.subdisk.disk }
    ensures at { result.at ≡ seat.subdisk.start + seat.offset }
    ensures reach { result.reach ≡ seat.reach }
    ensures inside { InRegion disks.now result.disk result.at result.reach }
{
    match disks.get(seat.subdisk.disk as usize) {
        Some(disk) => {
            // Read for its bound: the subdisk ends within the disk.
            let _end = size_of(disk);
            Spot {
                disk: u32::from(seat.subdisk.disk),
                at: seat.subdisk.start + seat.offset,
                reach: seat.reach,
            }
        }
        None => unreachable!(),
    }
}

/// Where a block of a plex lies, and how many of the blocks behind it lie right behind that place.
pub fn find_spot(config: &Config, vol: u32, plex: u32, block: u64) -> Spot
    requires checked { IsTrue (is_sound config.now) }
    requires there { HasBlock config.now vol plex block }
    ensures some { 0 < result.reach }
    ensures run { (j : ℕ) → j < result.reach → place_is config.now vol plex (block + j) ≡ (result.disk, result.at + j) }
    ensures inside { InRegion config.now.disks result.disk result.at result.reach }
{
    match config.volumes.as_slice().get(vol as usize) {
        Some(volume) => match volume.plexes.as_slice().get(plex as usize) {
            Some(entry) => spot_of(config.disks.as_slice(), seat_in(volume, entry, block)),
            None => unreachable!(),
        },
        None => unreachable!(),
    }
}

/// Where a block of a plex lies: the disk, and the block of it.
///
/// A concatenated plex has the blocks of its subdisks one behind the other. A striped one has block B in unit B / width,
/// that unit in a column by turns, and in its column behind the units before it.
pub fn place(config: &Config, vol: u32, plex: u32, block: u64) -> (u32, u64)
    requires checked { IsTrue (is_sound config.now) }
    requires there { HasBlock config.now vol plex block }
    ensures rule { result ≡ place_is config.now vol plex block }
    ensures inside { InRegion config.now.disks result.0 result.1 1 }
{
    let spot = find_spot(config, vol, plex, block);
    (spot.disk, spot.at)
}
