// The disks below a replicated volume group: which of them fail, and their fuse.
ghost use Rattle.std.specs.Prelude.{◌≡◌, ◌<◌};
ghost use Rattle.vx_diskset.specs.Aboves.{above_in, site_in};
ghost use Rattle.vx_diskset.specs.Founded.{DisksAlike, FailsOne, FusesFor, LaidFails, LaidFuses};
ghost use Rattle.vx_diskset.specs.Holds.{KeptBeside};
ghost use Rattle.vx_diskset.specs.Noted.{FusesNoted, StaysNoted};
ghost use Rattle.vx_diskset.specs.Stands.{OverStands};
ghost use Rattle.vx_disk.specs.Causes.{OnDisks, WithDisks};
ghost use Rattle.vx_grouped.specs.GroupSites.{laid_disks, site_disks};
ghost use Rattle.vx_history.specs.World.{FuseSet, Node};
ghost use Rattle.vx_model.specs.declared.site.SiteState.TheVariants.{Up as UpState};

use crate::founded::{Founded, FoundedReceiver};
use crate::{OverSet, OverSite};
use std::mem;
use vx_disk::{Rack, Shelf};

impl<R: Rack> Founded<R> {
    /// Makes each later call on a disk fail, or ends that.
    pub(crate) fn fail(self, disk: u32, on: bool) -> Founded<R>
        requires there { disk < (laid_disks self.laid).units }
        ensures fails { (result.core ≡ self.core) × LaidFails disk on self.laid result.laid }
    {
        let (laid, core) = self.apart();
        let laid = laid.fail(disk, on);
        Founded::together(laid, core)
    }

    /// Lets that many writes and flushes of the disks pass; the next is a crash.
    pub(crate) fn fuse(self, calls: u64, pick: u64) -> Founded<R>
        ensures fuses { (result.core ≡ self.core) × LaidFuses calls pick self.laid result.laid }
    {
        let (laid, core) = self.apart();
        let laid = laid.fuse(calls, pick);
        Founded::together(laid, core)
    }
}

impl<R: Rack> FoundedReceiver<R> {
    /// Makes each later call on a disk fail, or ends that.
    pub(crate) fn fail(self, disk: u32, on: bool) -> FoundedReceiver<R>
        requires there { disk < (laid_disks self.laid).units }
        ensures fails { (result.core ≡ self.core) × (result.waiting ≡ self.waiting) × LaidFails disk on self.laid result.laid }
    {
        let (laid, core, waiting) = self.apart();
        let laid = laid.fail(disk, on);
        FoundedReceiver::together(laid, core, waiting)
    }

    /// Lets that many writes and flushes of the disks pass; the next is a crash.
    pub(crate) fn fuse(self, calls: u64, pick: u64) -> FoundedReceiver<R>
        ensures fuses { (result.core ≡ self.core) × (result.waiting ≡ self.waiting) × LaidFuses calls pick self.laid result.laid }
    {
        let (laid, core, waiting) = self.apart();
        let laid = laid.fuse(calls, pick);
        FoundedReceiver::together(laid, core, waiting)
    }
}

impl<R: Rack> OverSet<R> {
    // How many disks it has.
    fn disks(&self) -> u32
        ensures { result ≡ (site_disks (site_in self.now)).units }
    {
        match &self.site {
            OverSite::Origin(founded) => founded.laid.shelf.units(),
            OverSite::Receiver(founded) => founded.laid.shelf.units(),
            OverSite::Deported(idle) => idle.rack.units(),
            OverSite::Down(idle) => idle.rack.units(),
            OverSite::Gone => 0,
        }
    }

    // Makes each later call on one of its disks fail, or ends that.
    fn failing(self, disk: u32, on: bool) -> OverSet<R>
        requires there { disk < (site_disks (site_in self)).units }
        ensures stands { (beside : KeptBeside) (n : Node) → OverStands beside n self.site → OverStands beside n result.site }
        ensures noted { StaysNoted self result }
        ensures asked { WithDisks (site_disks (site_in self)).disks (site_disks (site_in result)).disks (FailsOne disk on) }
        ensures later { DisksAlike (site_in self) (site_in result) }
        ensures above { above_in result ≡ above_in self }
    {
        let OverSet { site, cut } = self;
        match site {
            OverSite::Origin(founded) => {
                let founded = founded.fail(disk, on);
                let site = OverSite::Origin(founded);
                OverSet { site, cut }
            }
            OverSite::Receiver(founded) => {
                let founded = founded.fail(disk, on);
                let site = OverSite::Receiver(founded);
                OverSet { site, cut }
            }
            OverSite::Deported(idle) => {
                let idle = idle.fail(disk, on);
                let site = OverSite::Deported(idle);
                OverSet { site, cut }
            }
            OverSite::Down(idle) => {
                let idle = idle.fail(disk, on);
                let site = OverSite::Down(idle);
                OverSet { site, cut }
            }
            OverSite::Gone => {
                let site = OverSite::Gone;
                OverSet { site, cut }
            }
        }
    }

    // Lets that many writes and flushes of its disks pass; the next is a crash.
    fn fused(self, calls: u64, pick: u64) -> OverSet<R>
        ensures fused { (beside : KeptBeside) (n : Node) → OverStands beside n self.site → n.state ≡ UpState → OverStands beside (record n { fuse = FuseSet calls }) result.site }
        ensures noted { FusesNoted calls self result }
        ensures asked { (beside : KeptBeside) (n : Node) → OverStands beside n self.site → n.state ≡ UpState → OnDisks (site_disks (site_in self)).disks (site_disks (site_in result)).disks (FusesFor calls pick) }
        ensures later { DisksAlike (site_in self) (site_in result) }
        ensures above { above_in result ≡ above_in self }
    {
        let OverSet { site, cut } = self;
        match site {
            OverSite::Origin(founded) => {
                let founded = founded.fuse(calls, pick);
                let site = OverSite::Origin(founded);
                OverSet { site, cut }
            }
            OverSite::Receiver(founded) => {
                let founded = founded.fuse(calls, pick);
                let site = OverSite::Receiver(founded);
                OverSet { site, cut }
            }
            OverSite::Deported(idle) => {
                let site = OverSite::Deported(idle);
                OverSet { site, cut }
            }
            OverSite::Down(idle) => {
                let site = OverSite::Down(idle);
                OverSet { site, cut }
            }
            OverSite::Gone => {
                let site = OverSite::Gone;
                OverSet { site, cut }
            }
        }
    }

    pub(crate) fn fail(&mut self, disk: u64, on: bool)
        ensures stands { (beside : KeptBeside) (n : Node) → OverStands beside n self.old.site → OverStands beside n self.new.site }
        ensures noted { StaysNoted self.old self.new }
        ensures asked { disk < (site_disks (site_in self.old)).units → WithDisks (site_disks (site_in self.old)).disks (site_disks (site_in self.new)).disks (FailsOne disk on) }
        ensures later { DisksAlike (site_in self.old) (site_in self.new) }
        ensures above { above_in self.new ≡ above_in self.old }
    {
        if disk >= u64::from(self.disks()) {
            return;
        }
        let over = mem::replace(self, OverSet::gone()).failing(disk as u32, on);
        *self = over;
    }

    pub(crate) fn fuse(&mut self, calls: u64, pick: u64)
        ensures fused { (beside : KeptBeside) (n : Node) → OverStands beside n self.old.site → n.state ≡ UpState → OverStands beside (record n { fuse = FuseSet calls }) self.new.site }
        ensures noted { FusesNoted calls self.old self.new }
        ensures asked { (beside : KeptBeside) (n : Node) → OverStands beside n self.old.site → n.state ≡ UpState → OnDisks (site_disks (site_in self.old)).disks (site_disks (site_in self.new)).disks (FusesFor calls pick) }
        ensures later { DisksAlike (site_in self.old) (site_in self.new) }
        ensures above { above_in self.new ≡ above_in self.old }
    {
        let over = mem::replace(self, OverSet::gone()).fused(calls, pick);
        *self = over;
    }
}
