// How many blocks volumes have, and how many their maps take.
ghost use Rattle.std.specs.Prelude.{◌≡◌, ◌*◌, ◌<◌, ◌≤◌, ℕ, length, map, slice_index, take};
ghost use Rattle.vx_dcm.specs.Places.{maps_in};
ghost use Rattle.vx_model.specs.declared.limits.TheConstants.{MOST_DATA_VOLUMES};

use arrayvec::ArrayVec;
use vx_disk::Shelf;
use vx_model::limits::MOST_DATA_VOLUMES;
use vx_model::map_blocks;

/// How many blocks each of these units has.
pub(crate) fn sizes_of<S: Shelf>(shelf: &S, vols: &[u32]) -> ArrayVec<u64, MOST_DATA_VOLUMES>
    requires few { length vols.now ≤ MOST_DATA_VOLUMES }
    requires exist { (v : ℕ) → v < length vols.now → slice_index vols.now v < (S.meaning shelf.now).units }
    ensures { result.items ≡ map (S.meaning shelf.now).size vols.now }
{
    let mut sizes = ArrayVec::new();
    for unit in vols {
        sizes.push(shelf.size(*unit));
    }
    sizes
}

/// How many blocks the maps of the first n volumes take, where volumes have these sizes.
pub(crate) fn maps_to(sizes: &[u64], n: usize) -> u64
    requires few { length sizes.now ≤ MOST_DATA_VOLUMES }
    requires exist { n ≤ length sizes.now }
    ensures is { result ≡ maps_in (take n sizes.now) }
    ensures bound { result ≤ n * 70368744177664 }
{
    let mut total = 0;
    for v in 0..n {
        total += map_blocks(sizes[v]);
    }
    total
}
