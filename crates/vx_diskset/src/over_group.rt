// Calls on the disk group below a replicated volume group.
ghost use Rattle.std.specs.Prelude.{◌≡◌, ◌⊎◌, ◌≤◌, IfErr, IfOk, None, Some, length, true};
ghost use Rattle.vx_config.specs.Checks.{is_group as is_group_of};
ghost use Rattle.vx_config.specs.declared.config.Config.{Config as ConfigValue};
ghost use Rattle.vx_disk.specs.Causes.{OnDisks};
ghost use Rattle.vx_disk.specs.Disks.{Crashed};
ghost use Rattle.vx_diskset.specs.Aboves.{AboveStays, above_in, site_in};
ghost use Rattle.vx_diskset.specs.Asked.{FuseGoesOn, SameFailing};
ghost use Rattle.vx_diskset.specs.DiskSets.{CrashedAt, Later};
ghost use Rattle.vx_diskset.specs.Holds.{KeptBeside};
ghost use Rattle.vx_diskset.specs.Stands.{CutAt, RoleBy, SiteStands};
ghost use Rattle.vx_diskset.specs.declared.disk_set.DiskSet.TheVariants.{OfGroup as PlainSites, Over as OverSites};
ghost use Rattle.vx_grouped.specs.GroupSites.{CutNoted, DownNoted, UpNoted, laid_below, laid_disks, site_below, site_disks};
ghost use Rattle.vx_grouped.specs.SiteEnds.{MayCrashSite};
ghost use Rattle.vx_history.specs.Steps.{crashed};
ghost use Rattle.vx_watched.specs.Since.{CalledSince};
ghost use Rattle.vx_watched.specs.Traces.{TellsLess};
ghost use Rattle.vx_diskset.specs.GroupCalls.{AtSite, CalledOn, config_in};
ghost use Rattle.vx_diskset.specs.MakeSteps.{LoggedOn, MadeOn, NamedOn, RefusedOn, StaysWith};
ghost use Rattle.vx_diskset.specs.Makings.{IsFirstSite, MadeOver, UpOrFell};
ghost use Rattle.vx_diskset.specs.Works.{DoesMake, DoesRewrite};
ghost use Rattle.vx_diskset.specs.declared.above.Above.TheVariants.{Origin as OriginAbove};
ghost use Rattle.vx_ground.specs.Accounts.{GroundSince, ground_state};
ghost use Rattle.vx_ground.specs.Lifted.{laid_volumes};
ghost use Rattle.vx_model.specs.States.{first_state};
ghost use Rattle.vx_model.specs.declared.limits.TheConstants.{LEAST_BLOCKS};
ghost use Rattle.vx_rvg.specs.Views.{IsSound, UnitsPlaced};
ghost use Rattle.vx_diskset.specs.Noted.{IsNoteTidy, RestsNamed, SiteNoted};
ghost use Rattle.vx_events.specs.RvgFits.{entries_noted, rvg_noted};
ghost use Rattle.vx_model.specs.declared.units.Units.{Units as UnitsValue};
ghost use Rattle.vx_history.specs.Groups.{GroupNode};
ghost use Rattle.vx_history.specs.World.{Node};
ghost use Rattle.vx_model.specs.declared.site.SiteState.TheVariants.{Up as UpState};

use crate::idles::fell_idle;
use crate::over_work::{Makes, Rewrites};
use crate::{Above, DiskSet, GroupSet, OverSet, OverSite};
use std::alloc::Global;
use vx_disk::{Rack, ShelfError, refusal};
use vx_ground::{can_name, name_over, work_over};
use vx_grouped::{GroupSite, Laid};
use vx_model::{No, State, Stop, Units};
use vx_rvg::RvgCore;

// A group that stays up where its disks are, with this answer. Where its fuse ran out it crashes, and says so.
fn stays<R: Rack>(laid: Laid<R>, why: Stop) -> (GroupSite<R>, Stop)
    ensures since { CalledSince (laid_disks laid) (site_disks result.0) }
    ensures told { TellsLess (laid_below laid) (site_below result.0) }
    ensures calm { UpOrFell result.0 }
    ensures stays { StaysWith laid why result.0 result.1 }
{
    if laid.is_down() {
        let idle = fell_idle(laid, u64::MAX);
        return (GroupSite::Down(idle), Stop::No(No::Down));
    }
    (GroupSite::Up(laid), why)
}

// Writes each block of the data volumes as it reads.
fn rewrite_over<R: Rack>(laid: Laid<R>, units: &Units) -> (Laid<R>, Result<(), ShelfError>)
    requires may { is_group_of laid.core.inner.config.volumes units.now ≡ true }
    ensures does { DoesRewrite units.now.vols (laid_volumes laid) (laid_volumes result.0) result.1 }
    ensures ground { GroundSince (ground_state laid.core) (laid_disks laid) (ground_state result.0.core) (laid_disks result.0) }
    ensures since { CalledSince (laid_disks laid) (laid_disks result.0) }
    ensures told { TellsLess (laid_below laid) (laid_below result.0) }
{
    let volumes = units.vols.as_slice();
    work_over(laid, Rewrites { volumes })
}

// Begins a log.
fn log_over<R: Rack>(
    alloc: Global,
    laid: Laid<R>,
    site: u32,
    units: &Units,
) -> (Laid<R>, Result<RvgCore, Stop>)
    requires placed { UnitsPlaced units.now (laid_volumes laid) }
    requires large { LEAST_BLOCKS ≤ (laid_volumes laid).size units.now.srl }
    ensures does { DoesMake units.now (first_state site) (laid_volumes laid) (laid_volumes result.0) result.1 }
    ensures ground { GroundSince (ground_state laid.core) (laid_disks laid) (ground_state result.0.core) (laid_disks result.0) }
    ensures since { CalledSince (laid_disks laid) (laid_disks result.0) }
    ensures told { TellsLess (laid_below laid) (laid_below result.0) }
{
    let state = State::first(site);
    work_over(
        laid,
        Makes {
            alloc,
            units,
            state,
        },
    )
}

// Names the volumes of a replicated volume group whose log was begun.
fn name_log<R: Rack>(
    laid: Laid<R>,
    core: RvgCore,
    units: &Units,
) -> (GroupSite<R>, Result<RvgCore, Stop>)
    requires sound { IsSound core (laid_volumes laid) }
    requires may { is_group_of laid.core.inner.config.volumes units.now ≡ true }
    ensures sound { IfOk result.1 (λ k. AboveStays (OriginAbove k) result.0) }
    ensures since { CalledSince (laid_disks laid) (site_disks result.0) }
    ensures told { TellsLess (laid_below laid) (site_below result.0) }
    ensures calm { UpOrFell result.0 }
    ensures named { IfOk result.1 (λ k. (k ≡ core) × NamedOn units.now laid result.0) }
    ensures refused { IfErr result.1 (λ stop. RefusedOn units.now laid result.0 stop) }
{
    let (laid, named) = name_over(laid, units);
    match named {
        Ok(()) => (GroupSite::Up(laid), Ok(core)),
        Err(why) => {
            let (below, stop) = stays(laid, why);
            (below, Err(stop))
        }
    }
}

fn log_named<R: Rack>(
    alloc: Global,
    laid: Laid<R>,
    site: u32,
    units: &Units,
) -> (GroupSite<R>, Result<RvgCore, Stop>)
    requires placed { UnitsPlaced units.now (laid_volumes laid) }
    requires large { LEAST_BLOCKS ≤ (laid_volumes laid).size units.now.srl }
    requires may { is_group_of laid.core.inner.config.volumes units.now ≡ true }
    ensures sound { IfOk result.1 (λ k. AboveStays (OriginAbove k) result.0) }
    ensures since { CalledSince (laid_disks laid) (site_disks result.0) }
    ensures told { TellsLess (laid_below laid) (site_below result.0) }
    ensures calm { UpOrFell result.0 }
    ensures logged { IfOk result.1 (λ k. LoggedOn units.now (first_state site) laid result.0 k) }
    ensures refused { IfErr result.1 (λ stop. RefusedOn units.now laid result.0 stop) }
{
    let (laid, made) = log_over(alloc, laid, site, units);
    match made {
        Ok(core) => name_log(laid, core, units),
        Err(why) => {
            let (below, stop) = stays(laid, why);
            (below, Err(stop))
        }
    }
}

// Makes a replicated volume group of volumes of a group that is up: its log first, and then the commit that names it.
fn make_over<R: Rack>(
    alloc: Global,
    laid: Laid<R>,
    site: u32,
    units: &Units,
) -> (GroupSite<R>, Result<RvgCore, Stop>)
    requires may { is_group_of laid.core.inner.config.volumes units.now ≡ true }
    ensures sound { IfOk result.1 (λ k. AboveStays (OriginAbove k) result.0) }
    ensures since { CalledSince (laid_disks laid) (site_disks result.0) }
    ensures told { TellsLess (laid_below laid) (site_below result.0) }
    ensures calm { UpOrFell result.0 }
    ensures made { IfOk result.1 (λ k. MadeOn units.now (first_state site) laid result.0 k) }
    ensures refused { IfErr result.1 (λ stop. RefusedOn units.now laid result.0 stop) }
{
    let (laid, answer) = rewrite_over(laid, units);
    match answer {
        Ok(()) => log_named(alloc, laid, site, units),
        Err(error) => {
            let (below, stop) = stays(laid, Stop::No(refusal(error)));
            (below, Err(stop))
        }
    }
}

// The same of the disks of a site, with the write that is cut.
fn make_in<R: Rack>(
    alloc: Global,
    group: GroupSet<R>,
    site: u32,
    units: &Units,
) -> (DiskSet<R>, Result<(), Stop>)
    ensures made { (n : Node) (note : GroupNode) (c : ConfigValue) → SiteNoted n note (PlainSites group) → n.state ≡ UpState → IsFirstSite site n → config_in (PlainSites group) ≡ Some c → c.rvg ≡ None → is_group_of c.volumes units.now ≡ true → MadeOver site n note units.now c (PlainSites group) result.0 result.1 }
    ensures since { AtSite (λ e. CalledSince (site_disks group.site) (site_disks e)) result.0 }
    ensures told { AtSite (λ e. TellsLess (site_below group.site) (site_below e)) result.0 }
    ensures calm { (result.0 ≡ PlainSites group) ⊎ AtSite (λ e. UpOrFell e) result.0 }
{
    let GroupSet { site: below, cut } = group;
    match below {
        GroupSite::Up(laid) => {
            let (laid, may) = can_name(laid, units);
            if !may {
                let (below, stop) = stays(laid, Stop::No(No::Size));
                return (DiskSet::OfGroup(GroupSet { site: below, cut }), Err(stop));
            }
            let (below, answer) = make_over(alloc, laid, site, units);
            match answer {
                Ok(core) => (
                    DiskSet::Over(OverSet::of(below, Above::Origin(core), cut)),
                    Ok(()),
                ),
                Err(stop) => (DiskSet::OfGroup(GroupSet { site: below, cut }), Err(stop)),
            }
        }
        below => (
            DiskSet::OfGroup(GroupSet { site: below, cut }),
            Err(Stop::No(No::Role)),
        ),
    }
}

impl<R: Rack> OverSet<R> {
    /// Crashes the disks, up or down: of the loose blocks each takes its latest value where its bit in `pick` is 1.
    pub(crate) fn crash(self, pick: u64) -> OverSet<R>
        ensures crashed { (beside : KeptBeside) (n : Node) → SiteStands beside n (OverSites self) → n.state ≡ UpState → CrashedAt beside n (OverSites result) }
        ensures held { (beside : KeptBeside) (n : Node) → CutAt beside n (OverSites self) → CrashedAt beside n (OverSites result) }
        ensures noted { (n : Node) (note : GroupNode) → IsNoteTidy note → UpNoted n note (site_in self) → DownNoted (crashed n 0) note (site_in result) }
        ensures fallen { (n : Node) (note : GroupNode) → IsNoteTidy note → CutNoted n note (site_in self) → DownNoted (crashed n 0) note (site_in result) }
        ensures named { (n : Node) (note : GroupNode) (units : UnitsValue) → UpNoted n note (site_in self) ⊎ CutNoted n note (site_in self) → rvg_noted note ≡ Some units → RestsNamed units (length (entries_noted note)) (site_in result) }
        ensures cut { result.cut ≡ self.cut }
        ensures asked { (beside : KeptBeside) (n : Node) → SiteStands beside n (OverSites self) → n.state ≡ UpState → OnDisks (site_disks (site_in self)).disks (site_disks (site_in result)).disks (Crashed (site_disks (site_in self)).size pick) }
        ensures stopped { MayCrashSite pick (site_in self) (site_in result) }
        ensures told { TellsLess (site_below (site_in self)) (site_below (site_in result)) }
        ensures above { (n : Node) → RoleBy n (above_in result) }
    {
        let OverSet { site, cut } = self;
        match site {
            OverSite::Origin(founded) => {
                let (laid, _core) = founded.apart();
                let idle = fell_idle(laid, pick);
                let site = OverSite::Down(idle);
                OverSet { site, cut }
            }
            OverSite::Receiver(founded) => {
                let (laid, _core, _waiting) = founded.apart();
                let idle = fell_idle(laid, pick);
                let site = OverSite::Down(idle);
                OverSet { site, cut }
            }
            OverSite::Deported(idle) => {
                let site = OverSite::Deported(idle);
                OverSet { site, cut }
            }
            OverSite::Down(idle) => {
                let site = OverSite::Down(idle);
                OverSet { site, cut }
            }
            OverSite::Gone => {
                let site = OverSite::Gone;
                OverSet { site, cut }
            }
        }
    }
}

impl<R: Rack> DiskSet<R> {
    /// Makes a replicated volume group of volumes of the group of a site that is up: each block of its data volumes is first written as it reads, and
    /// then its log is begun; the commit that names them is the moment at which the site has it. A site whose fuse runs out crashes.
    ///
    /// Answers 19 where no serial is left, 7 where a disk failed, and 6 where the fuse ran out; or memory is wanted.
    pub fn make_rvg(self, alloc: Global, site: u32, units: &Units) -> (DiskSet<R>, Result<(), Stop>)
        ensures made { (n : Node) (note : GroupNode) (c : ConfigValue) → SiteNoted n note self → n.state ≡ UpState → IsFirstSite site n → config_in self ≡ Some c → c.rvg ≡ None → is_group_of c.volumes units.now ≡ true → MadeOver site n note units.now c self result.0 result.1 }
        ensures failing { SameFailing self result.0 }
        ensures fuse { FuseGoesOn self result.0 }
        ensures since { CalledOn self result.0 }
        ensures later { Later self result.0 }
    {
        match self {
            DiskSet::OfGroup(group) => make_in(alloc, group, site, units),
            other => (other, Err(Stop::No(No::Role))),
        }
    }
}
