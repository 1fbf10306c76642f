// The disks of a site.
ghost use Rattle.std.specs.Prelude.{◌≡◌, ◌≤◌, ◌<◌, IfSome, IsSome, List, None, false};
ghost use Rattle.vx_events.specs.GroupLines.{is_over_group};
ghost use Rattle.vx_diskset.specs.Holds.{KeptBeside};
ghost use Rattle.vx_history.specs.World.{Node};
ghost use Rattle.vx_diskset.specs.DiskSets.{Later};
ghost use Rattle.vx_diskset.specs.Noted.{OversFall, OversFused, OversStay};
ghost use Rattle.vx_diskset.specs.Stands.{KeepsRole, SiteStands};
ghost use Rattle.vx_rvg.specs.Views.{last_of};
ghost use Rattle.vx_model.specs.declared.limits.TheConstants.{MOST_NUMBER};
ghost use Rattle.vx_srlfmt.specs.Headers.{CanSpellState};

use crate::{GroupSet, OverSet};
use std::alloc::Global;
use vx_disk::Rack;
use vx_model::limits::{LEAST_BLOCKS, MOST_DISKS};
use vx_model::{No, State, Stop};
use vx_rvg::{Rvg, RvgCore};
use vx_secondary::Secondary;

/// The rack of a site number, by itself or under a replicated volume group.
#[derive(Drop)]
pub enum DiskSet<R: Rack> {
    /// Its disks alone, if it has any yet.
    Bare(R),
    /// The disks of a bare site on which a raw set was begun, and not finished.
    Spoiled(R),
    Up(Rvg<R>),
    /// The group of a site that is up and receives the writes of another.
    Receives(Secondary<R>),
    /// The disks of a raw set that crashed.
    Down(R),
    /// The disks of a group without a replicated volume group, up or not.
    OfGroup(GroupSet<R>),
    /// The disks of a group with a replicated volume group, up or not.
    Over(OverSet<R>),
    /// It was taken out, and comes back within the same line.
    Gone,
}

// The number of the last write of a group.
pub(crate) fn last_in(core: &RvgCore) -> u64
    ensures is { result ≡ last_of core.now }
    ensures few { result ≤ MOST_NUMBER }
{
    // For its bound.
    let _ring = core.ring();
    core.head()
}

impl<R: Rack> DiskSet<R> {
    ghost use Rattle.vx_diskset.specs.Asked.{SetsDisk, SetsFuse, CrashesBy, MayCrash, SameFailing, units_in};
    ghost use Rattle.vx_diskset.specs.Holds.{state_with};
    ghost use Rattle.vx_diskset.specs.Stands.{CutAt, IsToldAt, IsUnused};
    ghost use Rattle.vx_history.specs.World.{FuseSet};
    ghost use Rattle.vx_diskset.specs.DiskSets.{FitIs, CrashedAt, CrashedTo};
    ghost use Rattle.vx_model.specs.declared.site.SiteState.TheVariants.{Up as UpState};

    /// Makes the disks of a site that has none.
    pub fn fit(
        &mut self,
        alloc: Global,
        dir: Option<&str>,
        site: u32,
        disks: u32,
        blocks: u64,
    ) -> Result<(), Stop>
        requires some { 1 ≤ disks }
        requires few { disks ≤ MOST_DISKS }
        requires large { LEAST_BLOCKS ≤ blocks }
        ensures fits { IsUnused self.old → FitIs dir.entry disks blocks self.old self.new result }
        ensures failing { SameFailing self.old self.new }
        ensures later { Later self.old self.new }
    {
        match self {
            DiskSet::Bare(rack) if rack.units() == 0 && !rack.is_down() => {
                rack.fit(alloc, dir, site, disks, blocks)
            }
            _ => Err(Stop::No(No::Role)),
        }
    }

    /// Makes each later call on a disk fail, or ends that.
    pub fn fail(&mut self, disk: u64, on: bool)
        ensures stands { (beside : KeptBeside) (n : Node) → SiteStands beside n self.old → SiteStands beside n self.new }
        ensures asked { disk < units_in self.old → SetsDisk disk on self.old self.new }
        ensures noted { OversStay self.old self.new }
        ensures role { KeepsRole self.old self.new }
        ensures later { Later self.old self.new }
    {
        match self {
            DiskSet::Bare(rack) if disk < rack.units() as u64 => rack.fail(disk as u32, on),
            DiskSet::Spoiled(rack) if disk < rack.units() as u64 => rack.fail(disk as u32, on),
            DiskSet::Up(rvg) if disk < rvg.shelf.units() as u64 => rvg.shelf.fail(disk as u32, on),
            DiskSet::Receives(site) if disk < site.rvg.shelf.units() as u64 => {
                site.rvg.shelf.fail(disk as u32, on)
            }
            DiskSet::Down(rack) if disk < rack.units() as u64 => rack.fail(disk as u32, on),
            DiskSet::OfGroup(group) => group.site.fail(disk, on),
            DiskSet::Over(over) => over.fail(disk, on),
            _ => {}
        }
    }

    /// Sets the fuse of a site that is up: so many writes and flushes pass, and the next is a crash.
    pub fn fuse(&mut self, calls: u64, pick: u64)
        ensures fused { (beside : KeptBeside) (n : Node) → SiteStands beside n self.old → n.state ≡ UpState → SiteStands beside (record n { fuse = FuseSet calls }) self.new }
        ensures asked { (beside : KeptBeside) (n : Node) → SiteStands beside n self.old → n.state ≡ UpState → SetsFuse calls pick self.old self.new }
        ensures noted { OversFused calls self.old self.new }
        ensures role { KeepsRole self.old self.new }
        ensures later { Later self.old self.new }
    {
        match self {
            DiskSet::Up(rvg) => rvg.shelf.fuse(calls, pick),
            DiskSet::Receives(site) => site.rvg.shelf.fuse(calls, pick),
            DiskSet::OfGroup(group) => group.site.fuse(calls, pick),
            DiskSet::Over(over) => over.fuse(calls, pick),
            _ => {}
        }
    }

    /// Crashes a site that is up: of the loose blocks each takes its latest value where its bit in `pick` is 1. One that runs keeps the writes
    /// that are durable, and nothing that waits in its memory.
    pub fn crash(self, pick: u64) -> DiskSet<R>
        ensures crashed { (beside : KeptBeside) (n : Node) → SiteStands beside n self → n.state ≡ UpState → CrashedAt beside n result }
        ensures durable { (beside : KeptBeside) (n : Node) → SiteStands beside n self → n.state ≡ UpState → n.halted ≡ None → CrashedTo beside n n.safe result }
        ensures asked { (beside : KeptBeside) (n : Node) → SiteStands beside n self → n.state ≡ UpState → CrashesBy pick self result }
        ensures cut { (beside : KeptBeside) (n : Node) → CutAt beside n self → CrashedAt beside n result }
        ensures stopped { MayCrash pick self result }
        ensures seen { IsToldAt result → IsToldAt self }
        ensures role { KeepsRole self result }
        ensures fallen { OversFall self result }
        ensures later { Later self result }
    {
        match self {
            DiskSet::Up(rvg) => {
                let mut rack = rvg.into_shelf();
                rack.crash(pick);
                DiskSet::Down(rack)
            }
            DiskSet::Receives(site) => {
                let mut rack = site.into_rvg().into_shelf();
                rack.crash(pick);
                DiskSet::Down(rack)
            }
            DiskSet::OfGroup(group) => DiskSet::OfGroup(GroupSet {
                site: group.site.crash(pick),
                cut: group.cut,
            }),
            DiskSet::Over(over) => DiskSet::Over(over.crash(pick)),
            other => other,
        }
    }

    /// The number of the last write that is durable at a site that is up and runs.
    pub fn last(&self) -> u64
        ensures is { (beside : KeptBeside) (n : Node) → SiteStands beside n self.now → n.state ≡ UpState → n.halted ≡ None → result ≡ n.safe }
        ensures few { result ≤ MOST_NUMBER }
    {
        match self {
            DiskSet::Up(rvg) => last_in(&rvg.core),
            DiskSet::Receives(site) => last_in(&site.rvg.core),
            DiskSet::Over(over) => over.last(),
            _ => 0,
        }
    }

    /// What the log of a site that is up keeps of it; of its links only where contents are told.
    pub fn state(&self) -> Option<&State>
        ensures is { (beside : KeptBeside) (n : Node) → SiteStands beside n self.now → n.state ≡ UpState → is_over_group n ≡ false → IfSome result (λ state. state.now ≡ state_with n state.now.links) × IsSome result }
        ensures links { (beside : KeptBeside) (n : Node) → SiteStands beside n self.now → n.state ≡ UpState → IsToldAt self.now → IfSome result (λ state. state.now.links ≡ beside.links) }
        ensures spelled { IfSome result (λ state. CanSpellState state.now) }
    {
        match self {
            DiskSet::Up(rvg) => Some(rvg.state()),
            DiskSet::Receives(site) => Some(site.rvg.state()),
            DiskSet::Over(over) => over.state(),
            _ => None,
        }
    }

    /// The session of a site that is up.
    pub fn session(&self) -> u64
        ensures is { (beside : KeptBeside) (n : Node) → SiteStands beside n self.now → n.state ≡ UpState → is_over_group n ≡ false → result ≡ n.session }
        ensures few { result ≤ MOST_NUMBER }
    {
        match self {
            DiskSet::Up(rvg) => rvg.session(),
            DiskSet::Receives(site) => site.rvg.session(),
            DiskSet::Over(over) => over.session(),
            _ => 0,
        }
    }
}
