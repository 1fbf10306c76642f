// How the replicated volume group of a group of disks that came up is started.
ghost use Rattle.std.specs.Prelude.{◌≡◌, ◌&&◌, ◌*◌, ◌<◌, ◌≤◌, ℕ, IfOk, IsTrue, length, not, slice_index, true};
ghost use Rattle.vx_disk.specs.Maps.{maps_of};
ghost use Rattle.vx_diskset.specs.OverStarts.{PlainBack, PlainStarts, PlainUnits, StartsIn, StartsOver, WithPlain, WithRvg, WithUnits, has_no_links, is_alone, is_dark as is_dark_of, is_idle_phase};
ghost use Rattle.vx_grouped.specs.SiteEnds.{stops_down};
ghost use Rattle.vx_ground.specs.Lifted.{laid_volumes};
ghost use Rattle.vx_grouped.specs.GroupSites.{laid_disks};
ghost use Rattle.vx_model.specs.Sizes.{ring_of};
ghost use Rattle.vx_model.specs.declared.errors.Stop.TheVariants.{No as RefusedStop};
ghost use Rattle.vx_model.specs.declared.limits.TheConstants.{LINK_PLACES, MOST_DATA_VOLUMES, MOST_NUMBER as GREATEST};
ghost use Rattle.vx_model.specs.declared.no.Counted.TheVariants.{Number as Numbers};
ghost use Rattle.vx_model.specs.declared.no.No.TheVariants.{Down as IsOff, Limit as LimitNo};
ghost use Rattle.vx_rvg.specs.Views.{UnitsPlaced};

use crate::group_set::CutWrite;
use crate::idles::{back_at, dark_back, is_dark};
use crate::over_work::Starts;
use crate::{Above, DiskSet, GroupSet, OverSet};
use std::alloc::Global;
use vx_config::Config;
use vx_disk::Rack;
use vx_ground::work_over;
use vx_grouped::{GroupSite, Laid, is_down_stop};
use vx_logimport::Rested;
use vx_model::limits::{LEAST_BLOCKS, LINK_PLACES, MOST_NUMBER};
use vx_model::{
    Counted, KeptLink, No, OutOfMemory, SPhase, State, Stop, Units, is_origin, map_blocks,
};
use vx_rvg::{RvgCore, StartRoom};

fn is_idle(phase: SPhase) -> bool
    ensures { result ≡ is_idle_phase phase }
{
    match phase {
        SPhase::Quiet => true,
        SPhase::Regions | SPhase::Log | SPhase::ForkKept => false,
    }
}

fn is_unlinked(links: &[KeptLink]) -> bool
    ensures { result ≡ has_no_links links.now }
{
    match links {
        [] => true,
        [_, ..] => false,
    }
}

fn all_three(a: bool, b: bool, c: bool) -> bool
    ensures { result ≡ (a && (b && c)) }
{
    a && (b && c)
}

// Whether a site with this log stands by itself: an origin without links, in no replay.
fn stands_alone(state: &State) -> bool
    ensures { result ≡ is_alone state.now }
{
    let origin = is_origin(&state.role);
    let unlinked = is_unlinked(state.links.as_slice());
    let idle = is_idle(state.phase);
    all_three(origin, unlinked, idle)
}

// How many blocks the change maps of these data volumes of a group take.
fn maps_over<R: Rack>(laid: &Laid<R>, vols: &[u32]) -> u64
    requires few { length vols.now ≤ MOST_DATA_VOLUMES }
    requires exist { (v : ℕ) → v < length vols.now → slice_index vols.now v < (laid_volumes laid.now).units }
    ensures { result ≡ LINK_PLACES * maps_of vols.now (laid_volumes laid.now) }
{
    let mut total = 0;
    for k in 0..vols.len() {
        let blocks = laid.size(vols[k]);
        let maps = map_blocks(blocks);
        total += maps;
    }
    LINK_PLACES as u64 * total
}

// Memory for a start, whose log and change maps have so many blocks.
fn start_room(alloc: Global, blocks: u64, maps: u64) -> Result<StartRoom, OutOfMemory>
    requires { LEAST_BLOCKS ≤ blocks }
    ensures { IfOk result (λ room. (room.ring ≡ ring_of blocks) × (room.maps ≡ maps)) }
{
    StartRoom::new(alloc, blocks, maps)
}

// Why it was refused: where the fuse ran out in it, that is why.
fn why_refused<R: Rack>(laid: &Laid<R>, no: No) -> No
    ensures off { IsTrue (laid_disks laid.now).down → result ≡ IsOff }
    ensures up { (IsTrue (laid_disks laid.now).down → ⊥) → result ≡ no }
{
    if laid.is_down() { No::Down } else { no }
}

// Starts the replicated volume group over the volumes of a group, with memory taken before. One that does not stand by itself is refused.
fn start_with<R: Rack>(
    laid: Laid<R>,
    units: &Units,
    room: StartRoom,
) -> (Laid<R>, Result<RvgCore, Stop>)
    requires there { UnitsPlaced units.now (laid_volumes laid) }
    requires large { LEAST_BLOCKS ≤ (laid_volumes laid).size units.now.srl }
    requires room { room.ring ≡ ring_of ((laid_volumes laid).size units.now.srl) }
    requires maps { LINK_PLACES * maps_of units.now.vols (laid_volumes laid) ≤ room.maps }
    ensures starts { StartsIn units.now laid result.0 result.1 }
{
    let (laid, started) = work_over(laid, Starts { room, units });
    match started {
        Ok(core) => {
            if stands_alone(core.state()) {
                (laid, Ok(core))
            } else {
                (laid, Err(Stop::No(No::NoConfig)))
            }
        }
        Err(no) => {
            let why = why_refused(&laid, no);
            (laid, Err(Stop::No(why)))
        }
    }
}

fn start_in<R: Rack>(
    alloc: Global,
    laid: Laid<R>,
    units: &Units,
) -> (Laid<R>, Result<RvgCore, Stop>)
    requires there { UnitsPlaced units.now (laid_volumes laid) }
    requires large { LEAST_BLOCKS ≤ (laid_volumes laid).size units.now.srl }
    ensures starts { StartsIn units.now laid result.0 result.1 }
{
    let blocks = laid.size(units.srl);
    let vols = units.vols.as_slice();
    let maps = maps_over(&laid, vols);
    match start_room(alloc, blocks, maps) {
        Ok(room) => start_with(laid, units, room),
        Err(_) => (laid, Err(Stop::OutOfMemory)),
    }
}

// Whether the disks of a site that was deported, or not, are by themselves behind a refusal: not where the fuse ran out.
fn rests_away(away: bool, stop: &Stop) -> bool
    ensures { result ≡ (away && not (stops_down stop.now)) }
{
    if away { !is_down_stop(stop) } else { false }
}

// The same of the disks of a site. Where it is refused, the disks crash, and the write is cut still; those of a site that was deported are by themselves
// then.
fn start_over<R: Rack>(
    alloc: Global,
    laid: Laid<R>,
    cut: Option<CutWrite>,
    units: &Units,
    away: bool,
) -> (DiskSet<R>, Result<(), Stop>)
    requires there { UnitsPlaced units.now (laid_volumes laid) }
    requires large { LEAST_BLOCKS ≤ (laid_volumes laid).size units.now.srl }
    ensures starts { StartsOver away units.now laid cut result.0 result.1 }
{
    let (laid, started) = start_in(alloc, laid, units);
    match started {
        Ok(core) => (
            DiskSet::Over(OverSet::of(GroupSite::Up(laid), Above::Origin(core), None)),
            Ok(()),
        ),
        Err(stop) => {
            let rests = rests_away(away, &stop);
            let site = back_at(laid, rests);
            (
                DiskSet::Over(OverSet::of(site, Above::Nothing, cut)),
                Err(stop),
            )
        }
    }
}

// The disks of a site that had no replicated volume group, behind an import that is refused.
fn plain_back<R: Rack>(
    laid: Laid<R>,
    cut: Option<CutWrite>,
    away: bool,
    rested: Option<Rested>,
    stop: Stop,
) -> (DiskSet<R>, Result<(), Stop>)
    ensures { PlainBack away rested laid cut stop result.0 result.1 }
{
    let rests = rests_away(away, &stop);
    let site = dark_back(laid, rests, rested);
    (DiskSet::OfGroup(GroupSet { site, cut }), Err(stop))
}

// The replicated volume group that was found over a group of a site that had none, of disks that tell nothing.
fn start_dark<R: Rack>(
    alloc: Global,
    laid: Laid<R>,
    cut: Option<CutWrite>,
    units: &Units,
    away: bool,
    rested: Option<Rested>,
) -> (DiskSet<R>, Result<(), Stop>)
    requires there { UnitsPlaced units.now (laid_volumes laid) }
    requires large { LEAST_BLOCKS ≤ (laid_volumes laid).size units.now.srl }
    ensures starts { is_dark_of laid.shelf ≡ true → PlainStarts away rested units.now laid cut result.0 result.1 }
{
    let (laid, started) = start_in(alloc, laid, units);
    match started {
        Ok(core) => (
            DiskSet::Over(OverSet::of(GroupSite::Up(laid), Above::Origin(core), None)),
            Ok(()),
        ),
        Err(stop) => plain_back(laid, cut, away, rested, stop),
    }
}

// The refusal of an import for want of serials.
fn too_few() -> Stop
    ensures { result ≡ RefusedStop (LimitNo Numbers GREATEST) }
{
    Stop::No(No::Limit {
        what: Counted::Number,
        most: MOST_NUMBER,
    })
}

// The same of any disks: of those that tell their contents it is not taken up, and the import is refused as one for which no serial is left.
fn start_found<R: Rack>(
    alloc: Global,
    laid: Laid<R>,
    cut: Option<CutWrite>,
    units: &Units,
    away: bool,
    rested: Option<Rested>,
) -> (DiskSet<R>, Result<(), Stop>)
    requires there { UnitsPlaced units.now (laid_volumes laid) }
    requires large { LEAST_BLOCKS ≤ (laid_volumes laid).size units.now.srl }
    ensures starts { PlainStarts away rested units.now laid cut result.0 result.1 }
{
    if is_dark(&laid.shelf) {
        start_dark(alloc, laid, cut, units, away, rested)
    } else {
        plain_back(laid, cut, away, rested, too_few())
    }
}

// The replicated volume group that a configuration has.
fn units_in(config: &Config) -> Option<Units>
    ensures { result ≡ config.now.rvg }
{
    match &config.rvg {
        Some(units) => Some(units.copy()),
        None => None,
    }
}

// A group that came up, with its replicated volume group where its configuration has one.
fn with_units<R: Rack>(
    alloc: Global,
    laid: Laid<R>,
    cut: Option<CutWrite>,
    away: bool,
) -> (DiskSet<R>, Result<(), Stop>)
    ensures over { WithUnits away laid.core.inner.config.rvg laid cut result.0 result.1 }
{
    match units_in(laid.config()) {
        Some(units) => start_over(alloc, laid, cut, &units, away),
        None => (
            DiskSet::OfGroup(GroupSet {
                site: GroupSite::Up(laid),
                cut: None,
            }),
            Ok(()),
        ),
    }
}

// The same of a site that had none.
fn plain_units<R: Rack>(
    alloc: Global,
    laid: Laid<R>,
    cut: Option<CutWrite>,
    away: bool,
    rested: Option<Rested>,
) -> (DiskSet<R>, Result<(), Stop>)
    ensures over { PlainUnits away rested laid.core.inner.config.rvg laid cut result.0 result.1 }
{
    match units_in(laid.config()) {
        Some(units) => start_found(alloc, laid, cut, &units, away, rested),
        None => (
            DiskSet::OfGroup(GroupSet {
                site: GroupSite::Up(laid),
                cut: None,
            }),
            Ok(()),
        ),
    }
}

/// The same of the site. No write is cut any more then; where the replicated volume group does not start, it is cut still.
pub(crate) fn with_rvg<R: Rack>(
    alloc: Global,
    site: GroupSite<R>,
    cut: Option<CutWrite>,
    away: bool,
) -> (DiskSet<R>, Result<(), Stop>)
    ensures over { WithRvg away site cut result.0 result.1 }
{
    match site {
        GroupSite::Up(laid) => with_units(alloc, laid, cut, away),
        site => (
            DiskSet::OfGroup(GroupSet { site, cut }),
            Err(Stop::No(No::Role)),
        ),
    }
}

/// The same of a site that had none. What its disks told of volumes before the import is kept where what is found is not taken up.
pub(crate) fn with_plain<R: Rack>(
    alloc: Global,
    site: GroupSite<R>,
    cut: Option<CutWrite>,
    away: bool,
    rested: Option<Rested>,
) -> (DiskSet<R>, Result<(), Stop>)
    ensures over { WithPlain away rested site cut result.0 result.1 }
{
    match site {
        GroupSite::Up(laid) => plain_units(alloc, laid, cut, away, rested),
        site => (
            DiskSet::OfGroup(GroupSet { site, cut }),
            Err(Stop::No(No::Role)),
        ),
    }
}
