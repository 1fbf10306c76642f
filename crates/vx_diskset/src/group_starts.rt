// How a group is made on the disks of a site, and how it comes up again.
ghost use Rattle.std.specs.Prelude.{◌≡◌, ◌<◌, ◌≤◌, IfErr, None, Some, true};
ghost use Rattle.vx_grouped.specs.GroupSites.{AwayNoted, DownNoted, GroupSiteStands, UpNoted, site_below, site_disks};
ghost use Rattle.vx_grouped.specs.Begins.{BeginsGroup, CanBegin};
ghost use Rattle.vx_disk.specs.Moves.{Nowhere};
ghost use Rattle.vx_grouped.specs.SiteMaps.{CameMapped, StaysMapped};
ghost use Rattle.vx_grouped.specs.SiteReturns.{SiteImports};
ghost use Rattle.vx_grouped.specs.Volumes.{SiteGoes};
ghost use Rattle.vx_history.specs.Groups.{GroupNode};
ghost use Rattle.vx_history.specs.World.{Node};
ghost use Rattle.vx_model.specs.declared.site.SiteState.TheVariants.{Bare as BareState, Deported as AwayState, Down as DownState};
ghost use Rattle.vx_model.specs.declared.limits.TheConstants.{LEAST_GROUP_BLOCKS};
ghost use Rattle.vx_watched.specs.Since.{CalledSince};
ghost use Rattle.vx_diskset.specs.Asked.{FuseGoesOn, SameFailing};
ghost use Rattle.vx_diskset.specs.DiskSets.{Later};
ghost use Rattle.vx_diskset.specs.Aboves.{site_in};
ghost use Rattle.vx_diskset.specs.OverRises.{FindsOver, LooksOver, RaisesAbove};
ghost use Rattle.vx_diskset.specs.OverStarts.{HandsOut, ImportsBy, ImportsIn, RaisesBy, RaisesIn, RaisesOver, TakesOver};
ghost use Rattle.vx_diskset.specs.OverTakes.{TakesAbove};
ghost use Rattle.vx_diskset.specs.GroupCalls.{AtFound, AtPlain, AtSite, ImportsOn, InitIs, OnSites, cut_above as cut_above_of, cut_behind as cut_behind_of, cut_in};
ghost use Rattle.vx_diskset.specs.Holds.{KeptBeside};
ghost use Rattle.vx_diskset.specs.Recovers.{LooksAt, LooksKept, RaisesGroup, RaisesMaps, RisesSince, RisesWith, cut_past};
ghost use Rattle.vx_diskset.specs.Stands.{SiteStands};
ghost use Rattle.vx_watched.specs.Traces.{TellsLess};

use crate::group_set::{CutWrite, KeptWrite};
use crate::over_starts::{with_plain, with_rvg};
use crate::{DiskSet, GroupSet, OverSet};
use std::alloc::Global;
use vx_disk::Rack;
use vx_grouped::{GroupSite, begin_group};
use vx_model::{No, Stop};

// Makes the disks of a bare site a group without volumes.
fn begin_on<R: Rack>(alloc: Global, rack: R, site: u32) -> (DiskSet<R>, Result<(), Stop>)
    ensures begun { (n : Node) → CanBegin n (R.meaning rack) → AtPlain (λ e. BeginsGroup site n (R.meaning rack) e result.1) result.0 }
    ensures cut { cut_in result.0 ≡ None }
    ensures since { AtSite (λ e. CalledSince (R.meaning rack) (site_disks e)) result.0 }
    ensures told { AtSite (λ e. TellsLess (R.meaning rack) (site_below e)) result.0 }
{
    let (group, answer) = begin_group(alloc, rack, site);
    (
        DiskSet::OfGroup(GroupSet {
            site: group,
            cut: None,
        }),
        answer,
    )
}

// The same of the disks of a bare site on which one was begun before.
fn begin_again<R: Rack>(
    alloc: Global,
    marked: GroupSite<R>,
    cut: Option<CutWrite>,
    site: u32,
) -> (DiskSet<R>, Result<(), Stop>)
    ensures begun { (n : Node) → GroupSiteStands n marked → n.state ≡ BareState → CanBegin n (site_disks marked) → AtPlain (λ e. BeginsGroup site n (site_disks marked) e result.1) result.0 × (cut_in result.0 ≡ None) }
    ensures since { AtSite (λ e. CalledSince (site_disks marked) (site_disks e)) result.0 }
    ensures told { AtSite (λ e. TellsLess (site_below marked) (site_below e)) result.0 }
{
    match marked {
        GroupSite::Marked(rack) => begin_on(alloc, rack, site),
        other => (
            DiskSet::OfGroup(GroupSet { site: other, cut }),
            Err(Stop::No(No::Role)),
        ),
    }
}

// Reads what is kept of a write that is cut, at a group that is up. Nothing is said of one whose volume is not there any more.
fn kept_at<R: Rack>(site: &mut GroupSite<R>, write: &CutWrite) -> Result<Option<KeptWrite>, No>
    ensures looks { (n : Node) (note : GroupNode) → UpNoted n note site.old → LooksKept n note (Some write.now) site.old site.new result }
    ensures maps { (n : Node) (note : GroupNode) → UpNoted n note site.old → StaysMapped site.old site.new }
    ensures volumes { SiteGoes Nowhere site.old site.new }
    ensures since { CalledSince (site_disks site.old) (site_disks site.new) }
    ensures told { TellsLess (site_below site.old) (site_below site.new) }
{
    let bytes = write.bytes.as_bytes();
    if site.fits(write.volume, write.block, bytes.len()) {
        match site.kept(write.volume, write.block, bytes) {
            Ok(bits) => Ok(Some(KeptWrite {
                write: *write,
                bits,
            })),
            Err(no) => Err(no),
        }
    } else {
        Ok(None)
    }
}

// The same where a write may be cut.
fn look_kept<R: Rack>(
    site: &mut GroupSite<R>,
    cut: &Option<CutWrite>,
) -> Result<Option<KeptWrite>, No>
    ensures looks { (n : Node) (note : GroupNode) → UpNoted n note site.old → LooksKept n note cut.now site.old site.new result }
    ensures maps { (n : Node) (note : GroupNode) → UpNoted n note site.old → StaysMapped site.old site.new }
    ensures volumes { SiteGoes Nowhere site.old site.new }
    ensures since { CalledSince (site_disks site.old) (site_disks site.new) }
    ensures told { TellsLess (site_below site.old) (site_below site.new) }
{
    match cut {
        Some(write) => kept_at(site, write),
        None => Ok(None),
    }
}

// A group that came up, with what is kept of the write that was cut. Where that cannot be read, it is down again.
fn stand_up<R: Rack>(
    site: GroupSite<R>,
    cut: Option<CutWrite>,
) -> (DiskSet<R>, Result<Option<KeptWrite>, Stop>)
    ensures rises { (n : Node) (note : GroupNode) → UpNoted n note site → RisesWith n note cut site result.0 result.1 }
    ensures maps { (n : Node) (note : GroupNode) → UpNoted n note site → AtPlain (StaysMapped site) result.0 }
    ensures since { AtSite (λ e. RisesSince (site_disks site) (site_disks e)) result.0 }
    ensures told { AtSite (λ e. TellsLess (site_below site) (site_below e)) result.0 }
{
    let mut site = site;
    match look_kept(&mut site, &cut) {
        Ok(kept) => (DiskSet::OfGroup(GroupSet { site, cut: None }), Ok(kept)),
        Err(no) => (
            DiskSet::OfGroup(GroupSet {
                site: site.crash(u64::MAX),
                cut,
            }),
            Err(Stop::No(no)),
        ),
    }
}

// Imports the group of a site that crashed or was deported.
fn import_in<R: Rack>(group: GroupSet<R>, alloc: Global) -> (DiskSet<R>, Result<(), Stop>)
    ensures imported { (n : Node) (note : GroupNode) → AwayNoted n note group.site → AtFound (λ e. SiteImports n note group.site e result.1) result.0 }
    ensures maps { (n : Node) (note : GroupNode) → AwayNoted n note group.site → AtFound (λ e. CameMapped group.site e result.1) result.0 }
    ensures brought { ImportsBy true group.site group.cut result.0 result.1 }
    ensures cut { cut_in result.0 ≡ cut_past result.1 (DiskSet.OfGroup group) }
    ensures since { AtSite (λ e. RisesSince (site_disks group.site) (site_disks e)) result.0 }
    ensures told { AtSite (λ e. TellsLess (site_below group.site) (site_below e)) result.0 }
{
    let cut = group.cut;
    let tells = group.site.rested();
    let (site, answer) = group.site.import(alloc);
    match answer {
        Ok(()) => with_plain(alloc, site, cut, true, tells),
        Err(stop) => (DiskSet::OfGroup(GroupSet { site, cut }), Err(stop)),
    }
}

// The write that was cut, where the group came up.
fn hands_out(started: Result<(), Stop>, cut: Option<CutWrite>) -> Result<Option<CutWrite>, Stop>
    ensures { HandsOut cut started result }
{
    match started {
        Ok(()) => Ok(cut),
        Err(stop) => Err(stop),
    }
}

// The write that was cut, unless a replicated volume group was found over the group.
fn cut_behind<R: Rack>(disk_set: &DiskSet<R>, cut: Option<CutWrite>) -> Option<CutWrite>
    ensures { result ≡ cut_behind_of disk_set.now cut }
{
    match disk_set {
        DiskSet::Over(_) => None,
        _ => cut,
    }
}

// The same of a group that had one: no write, where it has none any more.
fn cut_above<R: Rack>(disk_set: &DiskSet<R>, cut: Option<CutWrite>) -> Option<CutWrite>
    ensures { result ≡ cut_above_of disk_set.now cut }
{
    match disk_set {
        DiskSet::Over(_) => cut,
        _ => None,
    }
}

// The same of a site that crashed, which hands out the write that its crash cut.
fn raise_in<R: Rack>(
    group: GroupSet<R>,
    alloc: Global,
) -> (DiskSet<R>, Result<Option<CutWrite>, Stop>)
    ensures raised { (n : Node) (note : GroupNode) → DownNoted n note group.site → RaisesGroup n note (DiskSet.OfGroup group) result.0 result.1 }
    ensures maps { (n : Node) (note : GroupNode) → DownNoted n note group.site → RaisesMaps (DiskSet.OfGroup group) result.0 result.1 }
    ensures brought { RaisesBy group.site group.cut result.0 result.1 }
    ensures since { AtSite (λ e. RisesSince (site_disks group.site) (site_disks e)) result.0 }
    ensures told { AtSite (λ e. TellsLess (site_below group.site) (site_below e)) result.0 }
{
    let cut = group.cut;
    let kept = group.cut;
    let tells = group.site.rested();
    let (site, answer) = group.site.import(alloc);
    match answer {
        Ok(()) => {
            let (disk_set, started) = with_plain(alloc, site, cut, false, tells);
            let kept = cut_behind(&disk_set, kept);
            (disk_set, hands_out(started, kept))
        }
        Err(stop) => (DiskSet::OfGroup(GroupSet { site, cut }), Err(stop)),
    }
}

// The same of a site with a replicated volume group. One that is up is refused, and stays so.
fn raise_over<R: Rack>(
    over: OverSet<R>,
    alloc: Global,
) -> (DiskSet<R>, Result<Option<CutWrite>, Stop>)
    ensures brought { RaisesOver (site_in over) over.cut result.0 result.1 }
{
    let (site, above, cut) = over.parts();
    let kept = cut;
    let (site, answer) = site.import(alloc);
    match answer {
        Ok(()) => {
            let (disk_set, started) = with_rvg(alloc, site, cut, false);
            let kept = cut_above(&disk_set, kept);
            (disk_set, hands_out(started, kept))
        }
        Err(stop) => (DiskSet::Over(OverSet::of(site, above, cut)), Err(stop)),
    }
}

// The same of one that was deported. Where it is refused it is so still, or is down where its fuse ran out.
fn take_over<R: Rack>(over: OverSet<R>, alloc: Global) -> (DiskSet<R>, Result<(), Stop>)
    ensures brought { TakesOver (site_in over) over.cut result.0 result.1 }
{
    let (site, above, cut) = over.parts();
    let (site, answer) = site.import(alloc);
    match answer {
        Ok(()) => with_rvg(alloc, site, cut, true),
        Err(stop) => (DiskSet::Over(OverSet::of(site, above, cut)), Err(stop)),
    }
}

// What is kept of the write that was cut, of a group that came up with its replicated volume group.
fn stand_over<R: Rack>(
    over: OverSet<R>,
    cut: Option<CutWrite>,
) -> (DiskSet<R>, Result<Option<KeptWrite>, Stop>)
    ensures stands { LooksOver cut (DiskSet.Over over) result.0 result.1 }
    ensures since { AtSite (λ e. RisesSince (site_disks (site_in over)) (site_disks e)) result.0 }
    ensures told { AtSite (λ e. TellsLess (site_below (site_in over)) (site_below e)) result.0 }
{
    let (site, above, was) = over.parts();
    let mut site = site;
    match look_kept(&mut site, &cut) {
        Ok(kept) => (DiskSet::Over(OverSet::of(site, above, was)), Ok(kept)),
        Err(no) => (
            DiskSet::Over(OverSet::of(site, above, cut).crash(u64::MAX)),
            Err(Stop::No(no)),
        ),
    }
}

impl<R: Rack> DiskSet<R> {
    /// Makes a bare site's disks a group without volumes. Where it is not made, labels of it may stand on them.
    pub fn init_group(self, alloc: Global, site: u32) -> (DiskSet<R>, Result<(), Stop>)
        ensures begun { (beside : KeptBeside) (n : Node) → SiteStands beside n self → n.state ≡ BareState → 0 < n.disks → LEAST_GROUP_BLOCKS ≤ n.blocks → InitIs site n self result.0 result.1 }
        ensures stays { (beside : KeptBeside) (n : Node) → SiteStands beside n self → n.state ≡ BareState → 0 < n.disks → LEAST_GROUP_BLOCKS ≤ n.blocks → IfErr result.1 (λ stop. SiteStands beside n result.0) }
        ensures fuse { (beside : KeptBeside) (n : Node) → SiteStands beside n self → n.state ≡ BareState → 0 < n.disks → LEAST_GROUP_BLOCKS ≤ n.blocks → FuseGoesOn self result.0 }
        ensures failing { SameFailing self result.0 }
        ensures later { Later self result.0 }
    {
        match self {
            DiskSet::Bare(rack) => begin_on(alloc, rack, site),
            DiskSet::Spoiled(rack) => begin_on(alloc, rack, site),
            DiskSet::OfGroup(group) => begin_again(alloc, group.site, group.cut, site),
            other => (other, Err(Stop::No(No::Role))),
        }
    }

    /// Imports the group of a site that was deported. Where it is refused, the site stays as it was, or is down where its fuse ran out.
    pub fn import_group(self, alloc: Global) -> (DiskSet<R>, Result<(), Stop>)
        ensures imported { (n : Node) (note : GroupNode) → AtSite (AwayNoted n note) self → ImportsOn (λ o e. SiteImports n note o e result.1) self result.0 }
        ensures maps { (n : Node) (note : GroupNode) → AtSite (AwayNoted n note) self → ImportsOn (λ o e. CameMapped o e result.1) self result.0 }
        ensures cut { cut_in result.0 ≡ cut_past result.1 self }
        ensures brought { ImportsIn self result.0 result.1 }
        ensures above { TakesAbove self result.0 result.1 }
        ensures found { (beside : KeptBeside) (n : Node) (note : GroupNode) → SiteStands beside n self → n.group ≡ Some note → n.state ≡ AwayState → FindsOver beside n note self result.0 }
        ensures fuse { (n : Node) (note : GroupNode) → AtSite (AwayNoted n note) self → FuseGoesOn self result.0 }
        ensures failing { SameFailing self result.0 }
        ensures later { Later self result.0 }
    {
        match self {
            DiskSet::OfGroup(group) => import_in(group, alloc),
            DiskSet::Over(over) => take_over(over, alloc),
            other => (other, Err(Stop::No(No::Role))),
        }
    }

    /// Imports the group of a site that crashed, and hands out the write that its crash cut, unless a replicated volume group was found over a group that had
    /// none. Where it is refused, the site stays down.
    pub fn raise_group(self, alloc: Global) -> (DiskSet<R>, Result<Option<CutWrite>, Stop>)
        ensures raised { (n : Node) (note : GroupNode) → AtSite (DownNoted n note) self → RaisesGroup n note self result.0 result.1 }
        ensures maps { (n : Node) (note : GroupNode) → AtSite (DownNoted n note) self → RaisesMaps self result.0 result.1 }
        ensures brought { RaisesIn self result.0 result.1 }
        ensures above { RaisesAbove self result.0 result.1 }
        ensures found { (beside : KeptBeside) (n : Node) (note : GroupNode) → SiteStands beside n self → n.group ≡ Some note → n.state ≡ DownState → FindsOver beside n note self result.0 }
        ensures failing { SameFailing self result.0 }
        ensures later { Later self result.0 }
    {
        match self {
            DiskSet::OfGroup(group) => raise_in(group, alloc),
            DiskSet::Over(over) => raise_over(over, alloc),
            other => (other, Err(Stop::No(No::Role))),
        }
    }

    /// Says what is kept of a write that was cut, of a group that came up. Where a disk fails in that, the site is down again, and the write is cut still.
    pub fn look_at_cut(self, cut: Option<CutWrite>) -> (DiskSet<R>, Result<Option<KeptWrite>, Stop>)
        ensures looks { (n : Node) (note : GroupNode) → AtSite (UpNoted n note) self → LooksAt n note cut self result.0 result.1 }
        ensures maps { (n : Node) (note : GroupNode) → AtSite (UpNoted n note) self → OnSites StaysMapped self result.0 }
        ensures stands { LooksOver cut self result.0 result.1 }
        ensures failing { SameFailing self result.0 }
        ensures later { Later self result.0 }
    {
        match self {
            DiskSet::OfGroup(group) => stand_up(group.site, cut),
            DiskSet::Over(over) => stand_over(over, cut),
            other => (other, Err(Stop::No(No::Role))),
        }
    }
}
