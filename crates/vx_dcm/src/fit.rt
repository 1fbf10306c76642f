// Whether a shelf has the units of a group's maps.
ghost use Rattle.std.specs.Prelude.{◌≡◌, ◌<◌, true, ℕ, length, slice_index};
ghost use Rattle.vx_dcm.specs.Places.{MapsFit};

use crate::sizes::{maps_to, sizes_of};
use vx_disk::Shelf;
use vx_model::Units;
use vx_model::limits::LINK_PLACES;

// Whether each of these units exists.
fn all_exist<S: Shelf>(shelf: &S, vols: &[u32]) -> bool
    ensures all { result ≡ true → (v : ℕ) → v < length vols.now → slice_index vols.now v < (S.meaning shelf.now).units }
    ensures only { ((v : ℕ) → v < length vols.now → slice_index vols.now v < (S.meaning shelf.now).units) → result ≡ true }
{
    for v in 0..vols.len() {
        if vols[v] >= shelf.units() {
            return false;
        }
    }
    true
}

/// Whether the map unit and the volumes are units of a shelf, and the map unit has room for a map of each volume for each place of a link.
pub fn maps_fit<S: Shelf>(units: &Units, shelf: &S) -> bool
    ensures fit { result ≡ true → MapsFit units.now (S.meaning shelf.now) }
    ensures only { MapsFit units.now (S.meaning shelf.now) → result ≡ true }
{
    let vols = units.vols.as_slice();
    if units.maps >= shelf.units() || !all_exist(shelf, vols) {
        return false;
    }
    let sizes = sizes_of(shelf, vols);
    let blocks = maps_to(&sizes, sizes.len());
    LINK_PLACES as u64 * blocks <= shelf.size(units.maps)
}
