// Whether a yard has the shape that a line asks for.
ghost use Rattle.std.specs.Prelude.{◌≡◌, ℕ, Some, slice_get, true};
ghost use Rattle.vx_order.specs.declared.facts.SiteFacts.{SiteFacts as SiteValue};
ghost use Rattle.vx_yard.specs.Yards.{IsYardKept, IsShaped};

use crate::Yard;
use vx_disk::Rack;
use vx_model::SiteState;
use vx_model::limits::{LEAST_BLOCKS, MOST_DISKS, MOST_SITES, MOST_VOLUMES};
use vx_order::SiteFacts;

fn is_shaped(site: &SiteFacts) -> bool
    ensures { result ≡ true → IsShaped site.now }
{
    if site.volumes.as_slice().len() > MOST_VOLUMES || site.blocks < LEAST_BLOCKS {
        return false;
    }
    match site.state {
        SiteState::Bare => site.disks <= MOST_DISKS,
        SiteState::Deported => site.grouped,
        SiteState::Up | SiteState::Down => true,
    }
}

fn are_shaped(sites: &[SiteFacts]) -> bool
    ensures { result ≡ true → (s : ℕ) (f : SiteValue) → slice_get sites.now s ≡ Some f → IsShaped f }
{
    for site in sites {
        if !is_shaped(site) {
            return false;
        }
    }
    true
}

impl<R: Rack> Yard<R> {
    /// Whether there are as many places as sites may be, and each site has the shape that a site may have.
    pub fn is_whole(&self) -> bool
        ensures { result ≡ true → IsYardKept self.now }
    {
        if self.disk_sets.len() != MOST_SITES || self.facts.len() > MOST_SITES {
            return false;
        }
        if self.assemblies.len() != MOST_SITES || self.feeders.len() != MOST_SITES {
            return false;
        }
        are_shaped(&self.facts)
    }
}
