// Plexes of the group below a replicated volume group that are detached and attached: what stands over it stays as it is.
ghost use Rattle.std.specs.Prelude.{◌≡◌, Err, IfOk, IsTrue, None, Ok, OnOk, Some, false};
ghost use Rattle.vx_disk.specs.Moves.{Nowhere};
ghost use Rattle.vx_history.specs.Groups.{GroupNode};
ghost use Rattle.vx_history.specs.World.{Node};
ghost use Rattle.vx_model.specs.declared.errors.Stop.TheVariants.{No as Refused};
ghost use Rattle.vx_model.specs.declared.no.No.{No as NoValue};
ghost use Rattle.vx_diskset.specs.Aboves.{site_in};
ghost use Rattle.vx_diskset.specs.OverKeeps.{BelowGoes};
ghost use Rattle.vx_diskset.specs.OverPlains.{AttBelow, AttsBelow, DetBelow, DetsBelow};
ghost use Rattle.vx_grouped.specs.GroupSites.{UpNoted, laid_below, laid_disks, site_below, site_disks};
ghost use Rattle.vx_grouped.specs.SiteEnds.{RegionsOf, is_plex_on, refuses_att, refuses_det};
ghost use Rattle.vx_grouped.specs.SiteMaps.{AttMapped, DetMapped};
ghost use Rattle.vx_grouped.specs.declared.group_site.GroupSite.TheVariants.{Up as UpSite};
ghost use Rattle.vx_watched.specs.Since.{CalledSince};
ghost use Rattle.vx_watched.specs.Traces.{TellsLess};

use crate::OverSet;
use crate::idles::fell_idle;
use std::mem;
use vx_disk::Rack;
use vx_grouped::{GroupSite, Laid, att_watched, det_watched, is_down_stop};
use vx_model::{No, Stop};

// Detaches a plex of a group that is up. Where the fuse of its disks ran out they crash.
fn det_over<R: Rack>(laid: Laid<R>, volume: u32, plex: u32) -> (GroupSite<R>, Result<(), Stop>)
    ensures called { (n : Node) (note : GroupNode) → UpNoted n note (UpSite laid) → DetBelow n note volume plex (UpSite laid) result.0 result.1 }
    ensures maps { (n : Node) (note : GroupNode) → UpNoted n note (UpSite laid) → DetMapped volume plex (UpSite laid) result.0 result.1 }
    ensures refused { (n : Node) (note : GroupNode) (no : NoValue) → UpNoted n note (UpSite laid) → refuses_det (UpSite laid) volume plex ≡ Some no → result.1 ≡ Err (Refused no) }
    ensures off { OnOk result.1 (is_plex_on result.0 volume plex ≡ false) }
    ensures goes { BelowGoes Nowhere (UpSite laid) result.0 }
    ensures since { CalledSince (laid_disks laid) (site_disks result.0) }
    ensures told { TellsLess (laid_below laid) (site_below result.0) }
{
    if laid.is_down() {
        return (GroupSite::Up(laid), Err(Stop::No(No::Role)));
    }
    let (laid, answer) = det_watched(laid, volume, plex);
    match answer {
        Ok(()) => (GroupSite::Up(laid), Ok(())),
        Err(stop) => {
            if is_down_stop(&stop) {
                let idle = fell_idle(laid, u64::MAX);
                return (GroupSite::Down(idle), Err(stop));
            }
            (GroupSite::Up(laid), Err(stop))
        }
    }
}

// Attaches one.
fn att_over<R: Rack>(laid: Laid<R>, volume: u32, plex: u32) -> (GroupSite<R>, Result<u64, Stop>)
    ensures called { (n : Node) (note : GroupNode) → UpNoted n note (UpSite laid) → AttBelow n note volume plex (UpSite laid) result.0 result.1 }
    ensures maps { (n : Node) (note : GroupNode) → UpNoted n note (UpSite laid) → AttMapped volume plex (UpSite laid) result.0 result.1 }
    ensures refused { (n : Node) (note : GroupNode) (no : NoValue) → UpNoted n note (UpSite laid) → refuses_att (UpSite laid) volume plex ≡ Some no → result.1 ≡ Err (Refused no) }
    ensures already { (n : Node) (note : GroupNode) → UpNoted n note (UpSite laid) → refuses_att (UpSite laid) volume plex ≡ None → IsTrue (is_plex_on (UpSite laid) volume plex) → result.1 ≡ Ok 0 }
    ensures count { is_plex_on (UpSite laid) volume plex ≡ false → IfOk result.1 (λ k. RegionsOf (UpSite laid) volume k) }
    ensures on { is_plex_on (UpSite laid) volume plex ≡ false → OnOk result.1 (IsTrue (is_plex_on result.0 volume plex)) }
    ensures goes { BelowGoes Nowhere (UpSite laid) result.0 }
    ensures since { CalledSince (laid_disks laid) (site_disks result.0) }
    ensures told { TellsLess (laid_below laid) (site_below result.0) }
{
    if laid.is_down() {
        return (GroupSite::Up(laid), Err(Stop::No(No::Role)));
    }
    let (laid, answer) = att_watched(laid, volume, plex);
    match answer {
        Ok(count) => (GroupSite::Up(laid), Ok(count)),
        Err(stop) => {
            if is_down_stop(&stop) {
                let idle = fell_idle(laid, u64::MAX);
                return (GroupSite::Down(idle), Err(stop));
            }
            (GroupSite::Up(laid), Err(stop))
        }
    }
}

// The same of the group of a site, where it is up.
fn det_below<R: Rack>(
    site: GroupSite<R>,
    volume: u32,
    plex: u32,
) -> (GroupSite<R>, Result<(), Stop>)
    ensures called { (n : Node) (note : GroupNode) → UpNoted n note site → DetBelow n note volume plex site result.0 result.1 }
    ensures maps { (n : Node) (note : GroupNode) → UpNoted n note site → DetMapped volume plex site result.0 result.1 }
    ensures refused { (n : Node) (note : GroupNode) (no : NoValue) → UpNoted n note site → refuses_det site volume plex ≡ Some no → result.1 ≡ Err (Refused no) }
    ensures off { OnOk result.1 (is_plex_on result.0 volume plex ≡ false) }
    ensures goes { BelowGoes Nowhere site result.0 }
    ensures since { CalledSince (site_disks site) (site_disks result.0) }
    ensures told { TellsLess (site_below site) (site_below result.0) }
{
    match site {
        GroupSite::Up(laid) => det_over(laid, volume, plex),
        other => (other, Err(Stop::No(No::Role))),
    }
}

fn att_below<R: Rack>(
    site: GroupSite<R>,
    volume: u32,
    plex: u32,
) -> (GroupSite<R>, Result<u64, Stop>)
    ensures called { (n : Node) (note : GroupNode) → UpNoted n note site → AttBelow n note volume plex site result.0 result.1 }
    ensures maps { (n : Node) (note : GroupNode) → UpNoted n note site → AttMapped volume plex site result.0 result.1 }
    ensures refused { (n : Node) (note : GroupNode) (no : NoValue) → UpNoted n note site → refuses_att site volume plex ≡ Some no → result.1 ≡ Err (Refused no) }
    ensures already { (n : Node) (note : GroupNode) → UpNoted n note site → refuses_att site volume plex ≡ None → IsTrue (is_plex_on site volume plex) → result.1 ≡ Ok 0 }
    ensures count { is_plex_on site volume plex ≡ false → IfOk result.1 (λ k. RegionsOf site volume k) }
    ensures on { is_plex_on site volume plex ≡ false → OnOk result.1 (IsTrue (is_plex_on result.0 volume plex)) }
    ensures goes { BelowGoes Nowhere site result.0 }
    ensures since { CalledSince (site_disks site) (site_disks result.0) }
    ensures told { TellsLess (site_below site) (site_below result.0) }
{
    match site {
        GroupSite::Up(laid) => att_over(laid, volume, plex),
        other => (other, Err(Stop::No(No::Role))),
    }
}

impl<R: Rack> OverSet<R> {
    /// Detaches a plex of a volume of the group below. A site whose fuse runs out crashes.
    pub(crate) fn det(&mut self, volume: u32, plex: u32) -> Result<(), Stop>
        ensures dets { DetsBelow volume plex result self.old self.new }
        ensures off { OnOk result (is_plex_on (site_in self.new) volume plex ≡ false) }
        ensures since { CalledSince (site_disks (site_in self.old)) (site_disks (site_in self.new)) }
        ensures told { TellsLess (site_below (site_in self.old)) (site_below (site_in self.new)) }
    {
        let (site, above, cut) = mem::replace(self, OverSet::gone()).parts();
        let (site, answer) = det_below(site, volume, plex);
        *self = OverSet::of(site, above, cut);
        answer
    }

    /// Attaches one, and answers how many regions were copied.
    pub(crate) fn att(&mut self, volume: u32, plex: u32) -> Result<u64, Stop>
        ensures atts { AttsBelow volume plex result self.old self.new }
        ensures since { CalledSince (site_disks (site_in self.old)) (site_disks (site_in self.new)) }
        ensures told { TellsLess (site_below (site_in self.old)) (site_below (site_in self.new)) }
    {
        let (site, above, cut) = mem::replace(self, OverSet::gone()).parts();
        let (site, answer) = att_below(site, volume, plex);
        *self = OverSet::of(site, above, cut);
        answer
    }
}
