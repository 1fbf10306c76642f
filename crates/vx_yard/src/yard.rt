// All sites of a run.
ghost use Rattle.std.specs.Prelude.{◌≡◌, ℕ, IfOk, IfErr, is_some};
ghost use Rattle.vx_history.specs.Doubts.{Doubted};
ghost use Rattle.vx_history.specs.World.{empty_world};
ghost use Rattle.vx_events.specs.Doubts.{sure};
ghost use Rattle.vx_yard.specs.Carries.{Carries};
ghost use Rattle.vx_yard.specs.Holds.{AreFresh, GroupsHold, RacksHold, RacksTell, rack_faults};
ghost use Rattle.vx_yard.specs.Standing.{StandsFor};
ghost use Rattle.vx_yard.specs.Yards.{IsTold, count_of, in_files};

use crate::DiskSet;
use crate::folder::copied;
use crate::load::{empty_assemblies, no_feeders};
use crate::racks::{put_racks, take_racks};
use std::alloc::Global;
use vx_disk::Rack;
use vx_model::OutOfMemory;
use vx_model::limits::MOST_SITES;
use vx_net::Flight;
use vx_order::SiteFacts;
use vx_packet::Assembly;

/// The sites of a run: for each what the tests of a line look at, and its disks.
#[derive(Drop)]
pub struct Yard<R: Rack> {
    pub dir: Option<String>,
    pub facts: Vec<SiteFacts>,
    pub disk_sets: Vec<DiskSet<R>>,
    // The packets that are under way.
    pub flight: Flight,
    // For each site number the message that it puts together, and the site that feeds it.
    pub assemblies: Vec<Assembly>,
    pub feeders: Vec<u32>,
    // Empty, with room for all racks as they come back.
    pub racks: Vec<R>,
}

impl<R: Rack> Yard<R> {
    /// A yard without sites, over eight racks.
    pub fn new(
        alloc: Global,
        racks: Vec<R>,
        dir: Option<&str>,
    ) -> Result<Yard<R>, (Vec<R>, OutOfMemory)>
        requires { AreFresh R.meaning racks.items }
        ensures stands { IfOk result (λ y. StandsFor (sure empty_world) y) }
        ensures carries { IfOk result (λ y. Carries (sure empty_world) y) }
        ensures files { IfOk result (λ y. in_files y ≡ is_some dir.entry) }
        ensures counts { IfOk result (λ y. (s d : ℕ) → count_of y s d ≡ rack_faults R.meaning racks.items s d) }
        ensures back { IfErr result (λ e. e.0 ≡ racks) }
    {
        let Ok(disk_sets) = Vec::with_capacity(alloc, MOST_SITES) else {
            return Err((racks, OutOfMemory));
        };
        let Ok(dir) = copied(alloc, dir) else {
            return Err((racks, OutOfMemory));
        };
        let Ok(flight) = Flight::new(alloc) else {
            return Err((racks, OutOfMemory));
        };
        let Ok(assemblies) = empty_assemblies(alloc) else {
            return Err((racks, OutOfMemory));
        };
        let Ok(feeders) = no_feeders(alloc) else {
            return Err((racks, OutOfMemory));
        };
        let (racks, disk_sets) = put_racks(racks, disk_sets);
        Ok(Yard {
            dir,
            facts: Vec::new(alloc),
            disk_sets,
            flight,
            assemblies,
            feeders,
            racks,
        })
    }

    /// The racks, in the order of the sites.
    pub fn into_racks(self) -> Vec<R>
        ensures holds { (d : Doubted) → StandsFor d self → RacksHold R.meaning d result.items }
        ensures counts { (d : Doubted) → StandsFor d self → (s d : ℕ) → rack_faults R.meaning result.items s d ≡ count_of self s d }
        ensures groups { (d : Doubted) → StandsFor d self → IsTold self → GroupsHold R.meaning d result.items }
        ensures told { (d : Doubted) → StandsFor d self → RacksTell R.meaning result.items → IsTold self }
    {
        take_racks(self.racks, self.disk_sets)
    }
}
