// A group that an earlier run left on the disks of a bare site.
ghost use Rattle.std.specs.Prelude.{◌≡◌, IsTrue, false};
ghost use Rattle.vx_grouped.specs.Finds.{CanFind};
ghost use Rattle.vx_history.specs.World.{Node};
ghost use Rattle.vx_model.specs.declared.site.SiteState.TheVariants.{Bare as BareState};
ghost use Rattle.vx_diskset.specs.Asked.{SameFailing};
ghost use Rattle.vx_diskset.specs.DiskSets.{Later};
ghost use Rattle.vx_diskset.specs.GroupFinds.{FindsIs, FindsOn, StartsBare, bare_again as bare_again_of, given_bare as given_bare_of};
ghost use Rattle.vx_untold.specs.Shades.{rack_of};
ghost use Rattle.vx_diskset.specs.Holds.{KeptBeside};
ghost use Rattle.vx_diskset.specs.Stands.{IsToldAt, SiteStands};

use crate::group_set::CutWrite;
use crate::labels::has_label;
use crate::over_starts::with_plain;
use crate::{DiskSet, GroupSet};
use std::alloc::Global;
use vx_disk::Rack;
use vx_grouped::{GroupSite, find_group};
use vx_model::{No, Stop};
use vx_untold::Shade;

// The rack, whatever is told of it.
fn rack_in<R: Rack>(shade: Shade<R>) -> R
    ensures { result ≡ rack_of shade }
{
    match shade {
        Shade::Bright(rack) | Shade::Dark(rack) => rack,
    }
}

// Disks by themselves are those of a bare site again.
fn given_bare<R: Rack>(site: GroupSite<R>, cut: Option<CutWrite>) -> DiskSet<R>
    ensures { result ≡ given_bare_of site cut }
{
    match site {
        GroupSite::Deported(idle) => DiskSet::Bare(rack_in(idle.rack)),
        site => DiskSet::OfGroup(GroupSet { site, cut }),
    }
}

fn bare_again<R: Rack>(disk_set: DiskSet<R>) -> DiskSet<R>
    ensures { result ≡ bare_again_of disk_set }
{
    match disk_set {
        DiskSet::OfGroup(group) => given_bare(group.site, group.cut),
        other => other,
    }
}

// A group that was found, with the replicated volume group that it has. Where that is not taken up, the disks are those of a bare site again.
fn found_with<R: Rack>(alloc: Global, group: GroupSite<R>) -> (DiskSet<R>, Result<(), Stop>)
    ensures { StartsBare group result.0 result.1 }
{
    let (disk_set, started) = with_plain(alloc, group, None, true, None);
    match started {
        Ok(()) => (disk_set, Ok(())),
        Err(stop) => (bare_again(disk_set), Err(stop)),
    }
}

// Imports a group that lies on the disks of a rack; else the disks are those of a bare site still.
fn find_on<R: Rack>(alloc: Global, rack: R, site: u32) -> (DiskSet<R>, Result<(), Stop>)
    ensures found { (n : Node) → CanFind n (R.meaning rack) → FindsOn site n (R.meaning rack) result.0 result.1 }
    ensures failing { SameFailing (DiskSet.Bare rack) result.0 }
    ensures later { Later (DiskSet.Bare rack) result.0 }
{
    match find_group(alloc, rack, site) {
        Ok(group) => found_with(alloc, group),
        Err((rack, stop)) => (DiskSet::Bare(rack), Err(stop)),
    }
}

impl<R: Rack> DiskSet<R> {
    /// Whether one of the disks of a bare site has a label of a group. Disks that tell their contents have none.
    pub fn has_label(&mut self) -> bool
        ensures none { (beside : KeptBeside) (n : Node) → SiteStands beside n self.old → n.state ≡ BareState → IsToldAt self.old → result ≡ false }
        ensures stands { (beside : KeptBeside) (n : Node) → SiteStands beside n self.old → SiteStands beside n self.new }
        ensures failing { SameFailing self.old self.new }
        ensures later { Later self.old self.new }
    {
        match self {
            DiskSet::Bare(rack) => has_label(rack),
            _ => false,
        }
    }

    /// Imports the group that an earlier run left on the disks of a bare site, of which it is not known what they hold. Where none comes up, the
    /// site stays bare.
    pub fn recover_bare_group(self, alloc: Global, site: u32) -> (DiskSet<R>, Result<(), Stop>)
        ensures found { (beside : KeptBeside) (n : Node) → SiteStands beside n self → n.state ≡ BareState → (IsToldAt self → ⊥) → FindsIs site n self result.0 result.1 }
        ensures failing { SameFailing self result.0 }
        ensures later { Later self result.0 }
    {
        match self {
            DiskSet::Bare(rack) => find_on(alloc, rack, site),
            other => (other, Err(Stop::No(No::NoConfig))),
        }
    }
}
