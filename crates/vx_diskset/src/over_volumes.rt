// Volumes that are made in the group below a replicated volume group: what stands over it stays as it is.
ghost use Rattle.std.specs.Prelude.{◌≡◌, ◌<◌, Err, IfOk, IfSome, Some};
ghost use Rattle.vx_disk.specs.Moves.{Nowhere};
ghost use Rattle.vx_history.specs.Groups.{GroupNode};
ghost use Rattle.vx_history.specs.World.{Node};
ghost use Rattle.vx_model.specs.declared.errors.Stop.TheVariants.{No as Refused};
ghost use Rattle.vx_model.specs.declared.no.No.{No as NoValue};
ghost use Rattle.vx_diskset.specs.Aboves.{site_in};
ghost use Rattle.vx_diskset.specs.OverKeeps.{BelowGoes};
ghost use Rattle.vx_diskset.specs.OverVolumes.{StillSite, VolBelow, VolsBelow};
ghost use Rattle.vx_grouped.specs.Added.{IsUnmoved};
ghost use Rattle.vx_grouped.specs.GroupSites.{UpNoted, laid_below, laid_disks, site_below, site_disks};
ghost use Rattle.vx_grouped.specs.SiteAdds.{VolumeIn, refuses_volume};
ghost use Rattle.vx_grouped.specs.SiteMaps.{AddedMapped};
ghost use Rattle.vx_grouped.specs.declared.group_site.GroupSite.TheVariants.{Up as UpSite};
ghost use Rattle.vx_watched.specs.Since.{CalledSince};
ghost use Rattle.vx_watched.specs.Traces.{TellsLess};

use crate::OverSet;
use crate::idles::fell_idle;
use std::alloc::Global;
use std::mem;
use vx_disk::Rack;
use vx_grouped::{GroupSite, Laid, is_down_stop, make_watched};
use vx_layout::Shape;
use vx_model::{Name, No, Stop};

// Makes a volume in a group that is up. Where the fuse of its disks ran out they crash.
fn make_over<R: Rack>(
    alloc: Global,
    laid: Laid<R>,
    name: &Name,
    want: &Shape,
) -> (GroupSite<R>, Result<u32, Stop>)
    requires prefer { IfSome want.now.prefer (λ p. p < want.now.mirrors) }
    ensures made { (n : Node) (note : GroupNode) → UpNoted n note (UpSite laid) → VolBelow n note name.now want.now (UpSite laid) result.0 result.1 }
    ensures maps { (n : Node) (note : GroupNode) → UpNoted n note (UpSite laid) → AddedMapped (UpSite laid) result.0 result.1 }
    ensures refused { (n : Node) (note : GroupNode) (no : NoValue) → UpNoted n note (UpSite laid) → refuses_volume (UpSite laid) name.now want.now ≡ Some no → result.1 ≡ Err (Refused no) }
    ensures volume { (n : Node) (note : GroupNode) → UpNoted n note (UpSite laid) → IfOk result.1 (λ vol. VolumeIn name.now want.now vol (UpSite laid) result.0) }
    ensures still { IsUnmoved result.1 (StillSite (UpSite laid) result.0) }
    ensures goes { BelowGoes Nowhere (UpSite laid) result.0 }
    ensures since { CalledSince (laid_disks laid) (site_disks result.0) }
    ensures told { TellsLess (laid_below laid) (site_below result.0) }
{
    if laid.is_down() {
        return (GroupSite::Up(laid), Err(Stop::No(No::Role)));
    }
    let (laid, answer) = make_watched(alloc, laid, name, want);
    laid.spelled();
    match answer {
        Ok(vol) => (GroupSite::Up(laid), Ok(vol)),
        Err(stop) => {
            if is_down_stop(&stop) {
                let idle = fell_idle(laid, u64::MAX);
                return (GroupSite::Down(idle), Err(stop));
            }
            (GroupSite::Up(laid), Err(stop))
        }
    }
}

// The same of the group of a site, where it is up.
fn make_below<R: Rack>(
    alloc: Global,
    site: GroupSite<R>,
    name: &Name,
    want: &Shape,
) -> (GroupSite<R>, Result<u32, Stop>)
    requires prefer { IfSome want.now.prefer (λ p. p < want.now.mirrors) }
    ensures made { (n : Node) (note : GroupNode) → UpNoted n note site → VolBelow n note name.now want.now site result.0 result.1 }
    ensures maps { (n : Node) (note : GroupNode) → UpNoted n note site → AddedMapped site result.0 result.1 }
    ensures refused { (n : Node) (note : GroupNode) (no : NoValue) → UpNoted n note site → refuses_volume site name.now want.now ≡ Some no → result.1 ≡ Err (Refused no) }
    ensures volume { (n : Node) (note : GroupNode) → UpNoted n note site → IfOk result.1 (λ vol. VolumeIn name.now want.now vol site result.0) }
    ensures still { IsUnmoved result.1 (StillSite site result.0) }
    ensures goes { BelowGoes Nowhere site result.0 }
    ensures since { CalledSince (site_disks site) (site_disks result.0) }
    ensures told { TellsLess (site_below site) (site_below result.0) }
{
    match site {
        GroupSite::Up(laid) => make_over(alloc, laid, name, want),
        other => (other, Err(Stop::No(No::Role))),
    }
}

impl<R: Rack> OverSet<R> {
    /// Makes a volume of the group below, and answers its number. A site whose fuse runs out crashes.
    pub(crate) fn make(&mut self, alloc: Global, name: &Name, want: &Shape) -> Result<u32, Stop>
        requires prefer { IfSome want.now.prefer (λ p. p < want.now.mirrors) }
        ensures makes { VolsBelow name.now want.now result self.old self.new }
        ensures since { CalledSince (site_disks (site_in self.old)) (site_disks (site_in self.new)) }
        ensures told { TellsLess (site_below (site_in self.old)) (site_below (site_in self.new)) }
    {
        let (site, above, cut) = mem::replace(self, OverSet::gone()).parts();
        let (site, answer) = make_below(alloc, site, name, want);
        *self = OverSet::of(site, above, cut);
        answer
    }
}
