// The disks of a site that has a group of disks, and no replicated volume group.
ghost use Rattle.std.specs.Prelude.{◌≡◌, ◌≢◌, ◌<◌, ℕ, Some, option_copied, true};
ghost use Rattle.vx_disk.specs.Causes.{OnDisks, WithDisks};
ghost use Rattle.vx_disk.specs.Disks.{Crashed, SameBlocks, Untouched};
ghost use Rattle.vx_history.specs.Groups.{GroupNode};
ghost use Rattle.vx_history.specs.Steps.{crashed};
ghost use Rattle.vx_history.specs.World.{FuseSet, Node};

use crate::{Idle, Laid};
use std::mem;
use vx_config::Config;
use vx_disk::{Rack, Shelf};
use vx_logimport::Rested;

/// The rack of a site number, under a group of its disks or by itself.
#[derive(Drop)]
pub enum GroupSite<R: Rack> {
    Up(Laid<R>),
    /// The disks of a group that was deported.
    Deported(Idle<R>),
    /// The disks of a group that crashed.
    Down(Idle<R>),
    /// The disks of a bare site on which a group was begun, and not finished.
    Marked(R),
    /// It was taken out, and comes back within the same call.
    Gone,
}

impl<R: Rack> GroupSite<R> {
    ghost use Rattle.vx_config.specs.Checks.{is_sound};
    ghost use Rattle.vx_config.specs.declared.config.Config.{Config as ConfigValue};
    ghost use Rattle.vx_grouped.specs.GroupSites.{CutNoted, DownNoted, GroupSiteStands, UpNoted, site_agrees, site_below, site_config, site_disks};
    ghost use Rattle.vx_grouped.specs.SiteMaps.{StaysMapped};
    ghost use Rattle.vx_grouped.specs.SiteReturns.{site_rested};
    ghost use Rattle.vx_watched.specs.Traces.{TellsLess};
    ghost use Rattle.vx_grouped.specs.SiteEnds.{CountsAlike, MayCrashSite, StaysAlike};
    ghost use Rattle.vx_grouped.specs.Volumes.{GoesOff};

    /// How many disks it has.
    pub fn disks(&self) -> u32
        ensures { result ≡ (site_disks self.now).units }
    {
        match self {
            GroupSite::Up(group) => group.shelf.units(),
            GroupSite::Deported(idle) | GroupSite::Down(idle) => idle.rack.units(),
            GroupSite::Marked(rack) => rack.units(),
            GroupSite::Gone => 0,
        }
    }

    /// The configuration of a group that is up.
    pub fn config(&self) -> Option<&Config>
        ensures { option_copied result ≡ site_config self.now }
    {
        match self {
            GroupSite::Up(group) => Some(group.config()),
            GroupSite::Deported(_) | GroupSite::Down(_) | GroupSite::Marked(_) | GroupSite::Gone =>
                None,
        }
    }

    /// The configuration of a group that is up is sound.
    pub fn sound(&self)
        ensures { (c : ConfigValue) → site_config self.now ≡ Some c → is_sound c ≡ true }
    {
        match self {
            GroupSite::Up(group) => group.sound(),
            GroupSite::Deported(_) | GroupSite::Down(_) | GroupSite::Marked(_) | GroupSite::Gone =>
                {}
        }
    }

    /// Whether imports of the disks of a group that is up agree, whatever a crash leaves of them.
    pub fn is_agreed(&self) -> bool
        ensures { result ≡ site_agrees self.now }
    {
        match self {
            GroupSite::Up(group) => group.core.inner.agreed,
            GroupSite::Deported(_) | GroupSite::Down(_) | GroupSite::Marked(_) | GroupSite::Gone =>
                false,
        }
    }

    /// Of which volumes disks by themselves tell what a clean stop left.
    pub fn rested(&self) -> Option<Rested>
        ensures { result ≡ site_rested self.now }
    {
        match self {
            GroupSite::Deported(idle) | GroupSite::Down(idle) => idle.rested,
            GroupSite::Up(_) | GroupSite::Marked(_) | GroupSite::Gone => None,
        }
    }

    /// Makes each later call on a disk fail, or ends that. Nothing else changes.
    pub fn fail(&mut self, disk: u64, on: bool)
        ensures stands { StaysAlike self.old self.new }
        ensures asked { disk < (site_disks self.old).units → WithDisks (site_disks self.old).disks (site_disks self.new).disks (λ o n. Untouched o n × (n.failing disk ≡ on) × ((u : ℕ) → u ≢ disk → n.failing u ≡ o.failing u)) }
        ensures maps { StaysMapped self.old self.new }
        ensures later { CountsAlike self.old self.new }
    {
        if disk >= self.disks() as u64 {
            return;
        }
        let site = mem::replace(self, GroupSite::Gone).failing(disk as u32, on);
        *self = site;
    }

    // The same of one of its disks.
    fn failing(self, disk: u32, on: bool) -> GroupSite<R>
        requires { disk < (site_disks self).units }
        ensures stands { StaysAlike self result }
        ensures asked { WithDisks (site_disks self).disks (site_disks result).disks (λ o n. Untouched o n × (n.failing disk ≡ on) × ((u : ℕ) → u ≢ disk → n.failing u ≡ o.failing u)) }
        ensures maps { StaysMapped self result }
        ensures later { CountsAlike self result }
    {
        match self {
            GroupSite::Up(group) => GroupSite::Up(group.fail(disk, on)),
            GroupSite::Deported(idle) => GroupSite::Deported(idle.fail(disk, on)),
            GroupSite::Down(idle) => GroupSite::Down(idle.fail(disk, on)),
            GroupSite::Marked(rack) => {
                let mut rack = rack;
                rack.fail(disk, on);
                GroupSite::Marked(rack)
            }
            GroupSite::Gone => GroupSite::Gone,
        }
    }

    /// Sets the fuse of a site that is up: so many writes and flushes pass, and the next is a crash.
    pub fn fuse(&mut self, calls: u64, pick: u64)
        ensures fused { (n : Node) (note : GroupNode) → UpNoted n note self.old → UpNoted (record n { fuse = FuseSet calls }) note self.new }
        ensures asked { (n : Node) (note : GroupNode) → UpNoted n note self.old → OnDisks (site_disks self.old).disks (site_disks self.new).disks (λ o n. SameBlocks o n × (n.fuse ≡ Some (calls, pick))) }
        ensures maps { StaysMapped self.old self.new }
        ensures later { CountsAlike self.old self.new }
    {
        match mem::replace(self, GroupSite::Gone) {
            GroupSite::Up(group) => {
                *self = GroupSite::Up(group.fuse(calls, pick));
            }
            other => {
                *self = other;
            }
        }
    }

    /// Crashes a site that is up: of the loose blocks each takes its latest value where its bit in `pick` is 1.
    pub fn crash(self, pick: u64) -> GroupSite<R>
        ensures crashed { (n : Node) (note : GroupNode) → UpNoted n note self → DownNoted (crashed n 0) note result }
        ensures cut { (n : Node) (note : GroupNode) → CutNoted n note self → DownNoted (crashed n 0) note result }
        ensures asked { (n : Node) (note : GroupNode) → UpNoted n note self → OnDisks (site_disks self).disks (site_disks result).disks (Crashed (site_disks self).size pick) }
        ensures maps { StaysMapped self result }
        ensures stopped { MayCrashSite pick self result }
        ensures off { GoesOff self result }
        ensures told { TellsLess (site_below self) (site_below result) }
    {
        match self {
            GroupSite::Up(group) => GroupSite::Down(group.crash(pick)),
            other => other,
        }
    }
}
