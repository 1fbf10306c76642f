// How many blocks of a unit hold records or maps, and which disks can be a raw set.
ghost use Rattle.std.specs.Prelude.{◌≡◌, ◌≤◌};
ghost use Rattle.vx_model.specs.Sizes.{ring_of, map_blocks as map_blocks_is, is_raw_shape as is_raw_shape_is};

use crate::limits::{
    LEAST_BLOCKS, LEAST_RAW_DISKS, LINK_PLACES, LOG_HEADERS, MAP_REGIONS, MOST_DATA_VOLUMES,
    MOST_LOG_BLOCKS, REGION,
};

/// How many blocks of a log unit of so many blocks hold records: all but the two headers, of at most 65,536.
pub fn ring_blocks(unit: u64) -> u64
    requires { LEAST_BLOCKS ≤ unit }
    ensures { result ≡ ring_of unit }
{
    unit.min(MOST_LOG_BLOCKS) - LOG_HEADERS
}

/// The blocks of a map of a volume of so many blocks.
pub fn map_blocks(blocks: u64) -> u64
    ensures value { result ≡ map_blocks_is blocks }
    ensures few { result ≤ 70368744177664 }
{
    blocks.div_ceil(REGION).div_ceil(MAP_REGIONS)
}

/// Whether so many disks of so many blocks can be a raw set.
#[tactic(auto, unfolding(crate::specs::Sizes::is_raw_shape))]
pub fn is_raw_shape(disks: u32, blocks: u64) -> bool
    ensures { result ≡ is_raw_shape_is disks blocks }
{
    let disks = u64::from(disks);
    let least = u64::from(LEAST_RAW_DISKS);
    let most = MOST_DATA_VOLUMES as u64 + 2;
    let maps = LINK_PLACES as u64;
    least <= disks
        && disks <= most
        && LEAST_BLOCKS <= blocks
        && maps * (disks - 2) * map_blocks(blocks) <= blocks
}
