// The site and the volume that a line names. The tests of the line found them, so there is no case without one.
ghost use Rattle.std.specs.Prelude.{◌≡◌, ◌+◌, ◌<◌, Some, IsSome, length, slice_get};
ghost use Rattle.vx_model.specs.declared.limits.TheConstants.{MOST_DATA_VOLUMES, MOST_SITES, MOST_VOLUMES};
ghost use Rattle.vx_order.specs.declared.facts.SiteFacts.{SiteFacts};
ghost use Rattle.vx_events.specs.Facts.{seat_of, place_of};
ghost use Rattle.vx_yard.specs.Yards.{IsYardKept};

use crate::{Yard, facts};
use vx_disk::Rack;
use vx_linked::find_seat;
use vx_model::Name;

impl<R: Rack> Yard<R> {
    /// The number of the site that a line names.
    pub fn site_of(&self, name: &Name) -> usize
        requires kept { IsYardKept self.now }
        requires named { IsSome (seat_of self.now.facts.items name.now) }
        ensures seat { seat_of self.now.facts.items name.now ≡ Some result }
        ensures fact { result < length self.now.facts.items }
        ensures disk_set { result < length self.now.disk_sets.items }
        ensures small { result < MOST_SITES }
    {
        match find_seat(&self.facts, name) {
            Some(site) => site,
            None => unreachable!(),
        }
    }

    /// The number of the volume that a line names at this site, among those that the tests see: data volumes of a replicated volume group come first,
    /// by their numbers in it.
    pub fn volume_of(&self, site: usize, name: &Name) -> usize
        requires kept { IsYardKept self.now }
        requires site { site < length self.now.facts.items }
        requires named { (f : SiteFacts) → slice_get self.now.facts.items site ≡ Some f → IsSome (place_of f.volumes name.now) }
        ensures place { (f : SiteFacts) → slice_get self.now.facts.items site ≡ Some f → place_of f.volumes name.now ≡ Some result }
        ensures small { result < MOST_VOLUMES + MOST_DATA_VOLUMES }
    {
        match facts::place(&self.facts[site], name) {
            Some(place) => place,
            None => unreachable!(),
        }
    }
}
