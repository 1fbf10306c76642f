// What came up of the disks of a bare site, and can't be kept.
ghost use Rattle.std.specs.Prelude.{◌≡◌, None};
ghost use Rattle.vx_history.specs.World.{Node};
ghost use Rattle.vx_diskset.specs.Asked.{SameFailing};
ghost use Rattle.vx_diskset.specs.DiskSets.{Later};
ghost use Rattle.vx_diskset.specs.Holds.{KeptBeside};
ghost use Rattle.vx_diskset.specs.Withdrawn.{IsBareOf, Revived};

use crate::DiskSet;
use vx_disk::Rack;

// The disks crash, and are up again.
fn revived<R: Rack>(rack: R) -> R
    ensures { Revived (R.meaning rack) (R.meaning result) }
{
    let mut rack = rack;
    rack.crash(u64::MAX);
    rack.revive();
    rack
}

impl<R: Rack> DiskSet<R> {
    ghost use Rattle.vx_model.specs.declared.site.SiteState.TheVariants.{Up as UpState};
    ghost use Rattle.vx_diskset.specs.Stands.{IsToldAt, SiteStands};

    /// Takes back what came up of the disks of a bare site: they crash, and the site is bare again. Where contents are told nothing comes up
    /// of them.
    pub fn withdraw(self) -> DiskSet<R>
        ensures bare { (beside : KeptBeside) (n k : Node) → SiteStands beside k self → k.state ≡ UpState → k.group ≡ None → IsBareOf n k → (IsToldAt result → ⊥) → (other : KeptBeside) → SiteStands other n result }
        ensures failing { SameFailing self result }
        ensures later { Later self result }
    {
        match self {
            DiskSet::Up(rvg) => DiskSet::Bare(revived(rvg.into_shelf())),
            DiskSet::Receives(site) => DiskSet::Bare(revived(site.into_rvg().into_shelf())),
            other => other,
        }
    }
}
