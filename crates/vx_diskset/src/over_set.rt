// The disks of a site whose group has a replicated volume group.
ghost use Rattle.std.specs.Prelude.{◌≡◌};
ghost use Rattle.vx_diskset.specs.Aboves.{AboveStays, IsAboveOn, above_in, above_site, below_site, site_in};
ghost use Rattle.vx_diskset.specs.OverKeeps.{StaysAbove};
ghost use Rattle.vx_ground.specs.Lifted.{laid_volumes};
ghost use Rattle.vx_grouped.specs.declared.group_site.GroupSite.TheVariants.{Up as UpSite};

use crate::above::Above;
use crate::founded::{Founded, FoundedReceiver};
use crate::group_set::CutWrite;
use vx_disk::Rack;
use vx_grouped::{GroupSite, Idle, Laid};

/// A replicated volume group over a group of disks, up or not.
#[derive(Drop)]
pub enum OverSite<R: Rack> {
    Origin(Founded<R>),
    /// One that receives the writes of another.
    Receiver(FoundedReceiver<R>),
    /// The disks of a group that was deported.
    Deported(Idle<R>),
    /// The disks of a group that crashed.
    Down(Idle<R>),
    /// It was taken out, and comes back within the same call.
    Gone,
}

/// The disks, and the write to a volume outside the replicated volume group that is cut, until the next recovery.
#[derive(Drop)]
pub struct OverSet<R: Rack> {
    pub site: OverSite<R>,
    pub cut: Option<CutWrite>,
}

// What stands over a group that is up, with it.
fn with_above<R: Rack>(laid: Laid<R>, above: Above) -> OverSite<R>
    requires { IsAboveOn above (laid_volumes laid) }
    ensures site { below_site result ≡ UpSite laid }
    ensures above { above_site result ≡ above }
{
    match above {
        Above::Origin(core) => {
            let founded = Founded::together(laid, core);
            OverSite::Origin(founded)
        }
        Above::Receiver { core, waiting } => {
            let founded = FoundedReceiver::together(laid, core, waiting);
            OverSite::Receiver(founded)
        }
        Above::Nothing => OverSite::Gone,
    }
}

impl<R: Rack> OverSet<R> {
    /// None: it was taken out, and comes back within the same call.
    pub fn gone() -> OverSet<R> {
        OverSet {
            site: OverSite::Gone,
            cut: None,
        }
    }

    /// The group below, what stands over it, and the write that is cut. It makes no device call.
    pub fn parts(self) -> (GroupSite<R>, Above, Option<CutWrite>)
        ensures site { result.0 ≡ site_in self }
        ensures above { result.1 ≡ above_in self }
        ensures cut { result.2 ≡ self.cut }
        ensures stays { AboveStays result.1 result.0 }
    {
        let OverSet { site, cut } = self;
        match site {
            OverSite::Origin(founded) => {
                let (laid, core) = founded.apart();
                (GroupSite::Up(laid), Above::Origin(core), cut)
            }
            OverSite::Receiver(founded) => {
                let (laid, core, waiting) = founded.apart();
                (GroupSite::Up(laid), Above::Receiver { core, waiting }, cut)
            }
            OverSite::Deported(idle) => (GroupSite::Deported(idle), Above::Nothing, cut),
            OverSite::Down(idle) => (GroupSite::Down(idle), Above::Nothing, cut),
            OverSite::Gone => (GroupSite::Gone, Above::Nothing, cut),
        }
    }

    /// These together. It makes no device call. What stood over a group that is not up any more is gone.
    pub fn of(site: GroupSite<R>, above: Above, cut: Option<CutWrite>) -> OverSet<R>
        requires { AboveStays above site }
        ensures cut { result.cut ≡ cut }
        ensures site { site_in result ≡ site }
        ensures above { StaysAbove above site (above_in result) }
    {
        match site {
            GroupSite::Up(laid) => {
                let site = with_above(laid, above);
                OverSet { site, cut }
            }
            GroupSite::Deported(idle) => {
                let site = OverSite::Deported(idle);
                OverSet { site, cut }
            }
            GroupSite::Down(idle) => {
                let site = OverSite::Down(idle);
                OverSet { site, cut }
            }
            GroupSite::Marked(_) => {
                let site = OverSite::Gone;
                OverSet { site, cut }
            }
            GroupSite::Gone => {
                let site = OverSite::Gone;
                OverSet { site, cut }
            }
        }
    }
}
