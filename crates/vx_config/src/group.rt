// The tests of a replicated volume group.
ghost use Rattle.std.specs.Prelude.{◌≡◌, ◌*◌, ◌≤◌, ◌∷◌, length, sum_by, nat_lt};
ghost use Rattle.std.specs.List.{list_all};
ghost use Rattle.vx_config.specs.Checks.{pairwise, other_than, blocks_of as blocks_of_is, map_blocks_of as map_blocks_of_is, is_group as is_group_is, group_or_none};

use crate::VolumeEntry;
use vx_model::limits::{LEAST_BLOCKS, LINK_PLACES, MOST_DATA_VOLUMES};
use vx_model::{Units, map_blocks};

fn blocks_of(volumes: &[VolumeEntry], number: u32) -> u64
    ensures { result ≡ blocks_of_is volumes.now number }
{
    match volumes.get(number as usize) {
        Some(volume) => volume.blocks,
        None => 0,
    }
}

fn is_other(number: u32, others: &[u32]) -> bool
    ensures { result ≡ list_all (other_than number) others.now }
{
    others.iter().all(|other| number != *other)
}

fn all_differ(numbers: &[u32]) -> bool
    ensures { result ≡ pairwise other_than numbers.now }
{
    for i in 0..numbers.len() {
        if !is_other(numbers[i], &numbers[i + 1..]) {
            return false;
        }
    }
    true
}

fn are_distinct(units: &Units) -> bool
    ensures { result ≡ pairwise other_than (units.now.srl ∷ (units.now.maps ∷ units.now.vols)) }
{
    let vols = units.vols.as_slice();
    units.srl != units.maps
        && is_other(units.srl, vols)
        && is_other(units.maps, vols)
        && all_differ(vols)
}

fn all_below(numbers: &[u32], count: usize) -> bool
    ensures { result ≡ list_all (λ n. nat_lt n count) numbers.now }
{
    numbers.iter().all(|number| (*number as usize) < count)
}

fn are_volumes(units: &Units, count: usize) -> bool
    ensures { result ≡ list_all (λ n. nat_lt n count) (units.now.srl ∷ (units.now.maps ∷ units.now.vols)) }
{
    (units.srl as usize) < count
        && (units.maps as usize) < count
        && all_below(units.vols.as_slice(), count)
}

fn map_sum(volumes: &[VolumeEntry], numbers: &[u32]) -> u64
    requires { length numbers.now ≤ MOST_DATA_VOLUMES }
    ensures value { result ≡ sum_by (map_blocks_of_is volumes.now) numbers.now }
    ensures few { result ≤ MOST_DATA_VOLUMES * 70368744177664 }
{
    let mut sum: u64 = 0;
    for number in numbers {
        sum += map_blocks(blocks_of(volumes, *number));
    }
    sum
}

fn is_group(volumes: &[VolumeEntry], units: &Units) -> bool
    ensures { result ≡ is_group_is volumes.now units.now }
{
    let vols = units.vols.as_slice();
    !vols.is_empty()
        && vols.len() <= MOST_DATA_VOLUMES
        && are_volumes(units, volumes.len())
        && are_distinct(units)
        && blocks_of(volumes, units.srl) >= LEAST_BLOCKS
        && LINK_PLACES as u64 * map_sum(volumes, vols) <= blocks_of(volumes, units.maps)
}

/// Whether a replicated volume group, where there is one, has the volumes that it may have.
pub fn is_group_if(volumes: &[VolumeEntry], rvg: &Option<Units>) -> bool
    ensures { result ≡ group_or_none volumes.now rvg.now }
{
    match rvg {
        None => true,
        Some(units) => is_group(volumes, units),
    }
}
