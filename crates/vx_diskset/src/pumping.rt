// What a site sends on a link, out of its log.
ghost use Rattle.std.specs.Prelude.{◌≡◌, ◌≤◌, ◌+◌, ◌&&◌, ℕ, List, None, IfErr, OnErr, OnOk, Some, IsTrue, slice_get, false, true};
ghost use Rattle.vx_courier.specs.UnderWay.{FlightStands};
ghost use Rattle.vx_events.specs.GroupLines.{is_over_group};
ghost use Rattle.vx_model.specs.declared.site.SiteState.TheVariants.{Up as UpState};
ghost use Rattle.vx_model.specs.Sites.{is_origin};
ghost use Rattle.vx_history.specs.Admission.{is_live_link};
ghost use Rattle.vx_history.specs.KeptLinks.{kept_link};
ghost use Rattle.vx_history.specs.LinkForms.{plain_link};
ghost use Rattle.vx_history.specs.Sending.{by_log};
ghost use Rattle.vx_history.specs.Doubts.{Doubted};
ghost use Rattle.vx_history.specs.World.{Node};
ghost use Rattle.vx_diskset.specs.Asked.{IsRawSet, LeavesAlone};
ghost use Rattle.vx_diskset.specs.DiskSets.{Later};
ghost use Rattle.vx_diskset.specs.Holds.{KeptBeside, beside_of, header_links};
ghost use Rattle.vx_diskset.specs.Pumps.{PumpStop, PumpedIs};
ghost use Rattle.vx_diskset.specs.Shelves.{IsRackOf, LaterOn, StillOn};
ghost use Rattle.vx_peers.specs.Senders.{SendsBy, pump_asks, pumped_at, way_from};
ghost use Rattle.vx_rvg.specs.Views.{last_of};
ghost use Rattle.vx_diskset.specs.Stands.{IsToldAt, IsUpAt, KeepsRole, SiteStands, faults_at};

use crate::DiskSet;
use std::alloc::Global;
use vx_disk::{Rack, Shelf};
use vx_model::limits::MOST_NUMBER;
use vx_model::{Link, Mode, No, Phase, Stop};
use vx_net::Net;
use vx_peers::pump;
use vx_rvg::Rvg;

// Whether the writes of a link are sent out of the log.
fn goes_by_log(mode: &Mode) -> bool
    ensures { result ≡ by_log mode.now }
{
    match mode {
        Mode::Log => true,
        Mode::Replay {
            id: _,
            phase,
            left: _,
            start: _,
            end: _,
        } => matches!(phase, Phase::Log),
        Mode::Dcm | Mode::Fork { maps: _ } | Mode::Stale => false,
    }
}

// Sends on a link of a group that runs.
fn pump_group<S: Shelf, N: Net>(
    alloc: Global,
    rvg: &mut Rvg<S>,
    link: &mut Link,
    site: u32,
    flight: &mut N,
) -> Result<(), Stop>
    ensures pumped { (d : Doubted) (k : ℕ) → IsUpAt (beside_of d site) (d.world.nodes site) rvg.old.core (S.meaning rvg.old.shelf) → (d.world.nodes site).halted ≡ None → IsTrue (S.meaning rvg.old.shelf).tells
        → slice_get (header_links d.world site) k ≡ Some (kept_link link.old.site (d.world.links site link.old.site)) → link.old ≡ plain_link link.old.site (d.world.links site link.old.site) → FlightStands d.world.packets (N.flying flight.old)
        → PumpedIs d.world site link.old.site link.new (N.flying flight.new) (S.meaning rvg.old.shelf).disk_faults (S.meaning rvg.new.shelf).disk_faults result }
    ensures stops { (beside : KeptBeside) (n : Node) → IsUpAt beside n rvg.old.core (S.meaning rvg.old.shelf) → n.halted ≡ None → IsRackOf n (S.meaning rvg.old.shelf) → IfErr result (PumpStop n (pump_asks link.old n.safe) (S.meaning rvg.old.shelf).disk_faults (S.meaning rvg.new.shelf).disk_faults) }
    ensures stands { (beside : KeptBeside) (n : Node) → IsUpAt beside n rvg.old.core (S.meaning rvg.old.shelf) → IsUpAt beside n rvg.new.core (S.meaning rvg.new.shelf) }
    ensures more { (beside : KeptBeside) (n : Node) → IsUpAt beside n rvg.old.core (S.meaning rvg.old.shelf)
        → OnOk result (SendsBy (pump_asks link.old n.safe) (way_from site link.old.site n.line) (N.flying flight.old) (N.flying flight.new)) }
    ensures rule { OnOk result (link.new ≡ pumped_at link.old (last_of rvg.old.core)) }
    ensures link { OnErr result (link.new ≡ link.old) }
    ensures unsent { OnErr result (N.flying flight.new ≡ N.flying flight.old) }
    ensures still { StillOn (S.meaning rvg.old.shelf) (S.meaning rvg.new.shelf) }
    ensures later { LaterOn (S.meaning rvg.old.shelf) (S.meaning rvg.new.shelf) }
{
    if let Some(disk) = rvg.halted() {
        return Err(Stop::No(No::Halted { disk }));
    }
    // Numbers are above 0, and none is above the greatest.
    let _ring = rvg.ring();
    if rvg.state().line.generation > MOST_NUMBER {
        return Err(Stop::OutOfMemory);
    }
    let low = rvg.low();
    if goes_by_log(&link.mode) && link.attached && low - 1 > link.stored {
        return Err(Stop::No(No::Gap {
            low,
            need: link.stored + 1,
        }));
    }
    pump(alloc, rvg, link, site, flight)
}

impl<R: Rack> DiskSet<R> {
    /// Sends on a live link of an origin by the log what its receiver may lack, as the rule of links has it. `site` is the number of the site. It changes
    /// no disk. Where a write cannot be read nothing is sent, and the link stays as it was.
    ///
    /// Also where contents are not told the link is as the rule leaves it, and it sends the updates that the rule asks for, of whatever writes were read.
    ///
    /// It takes memory for what it sends, and answers so too where a generation is past those that packets carry. Refusals: 20 where the
    /// site is halted, 7 where there was something to send and a read of the log failed. Where contents are not told also 21, of a log that lacks what the link needs, and 22.
    pub fn pump<N: Net>(
        &mut self,
        alloc: Global,
        link: &mut Link,
        site: u32,
        flight: &mut N,
    ) -> Result<(), Stop>
        ensures pumped { (d : Doubted) (k : ℕ) → SiteStands (beside_of d site) (d.world.nodes site) self.old → IsRawSet self.old → is_origin (d.world.nodes site).role ≡ true → (d.world.nodes site).state ≡ UpState → is_over_group (d.world.nodes site) ≡ false → (d.world.nodes site).halted ≡ None → IsToldAt self.old
            → slice_get (header_links d.world site) k ≡ Some (kept_link link.old.site (d.world.links site link.old.site)) → link.old ≡ plain_link link.old.site (d.world.links site link.old.site) → FlightStands d.world.packets (N.flying flight.old)
            → PumpedIs d.world site link.old.site link.new (N.flying flight.new) (faults_at self.old) (faults_at self.new) result }
        ensures stops { (beside : KeptBeside) (n : Node) → SiteStands beside n self.old → IsRawSet self.old → is_origin n.role ≡ true → n.state ≡ UpState → is_over_group n ≡ false → n.halted ≡ None → IfErr result (PumpStop n (pump_asks link.old n.safe) (faults_at self.old) (faults_at self.new)) }
        ensures stands { (beside : KeptBeside) (n : Node) → SiteStands beside n self.old → SiteStands beside n self.new }
        ensures more { (beside : KeptBeside) (n : Node) → SiteStands beside n self.old
            → OnOk result (SendsBy (pump_asks link.old n.safe) (way_from site link.old.site n.line) (N.flying flight.old) (N.flying flight.new)) }
        ensures rule { (beside : KeptBeside) (n : Node) → SiteStands beside n self.old → OnOk result (link.new ≡ pumped_at link.old n.safe) }
        ensures link { OnErr result (link.new ≡ link.old) }
        ensures unsent { OnErr result (N.flying flight.new ≡ N.flying flight.old) }
        ensures still { LeavesAlone self.old self.new }
        ensures role { KeepsRole self.old self.new }
        ensures later { Later self.old self.new }
    {
        match self {
            DiskSet::Up(rvg) => pump_group(alloc, rvg, link, site, flight),
            DiskSet::Over(_) => Err(Stop::No(No::Role)),
            DiskSet::Bare(_)
            | DiskSet::Spoiled(_)
            | DiskSet::Receives(_)
            | DiskSet::Down(_)
            | DiskSet::OfGroup(_)
            | DiskSet::Gone => Err(Stop::No(No::Role)),
        }
    }
}
