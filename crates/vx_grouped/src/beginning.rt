// A group that is begun on the disks of a bare site.
ghost use Rattle.std.specs.Prelude.{◌≡◌, ◌<◌, ◌≤◌, IfErr, IfOk, None};
ghost use Rattle.vx_history.specs.World.{Node};
ghost use Rattle.vx_model.specs.declared.limits.TheConstants.{MOST_DISKS};
ghost use Rattle.vx_group.specs.Creates.{IsNewGroup};
ghost use Rattle.vx_grouped.specs.Begins.{BeginRefuses, BeginsGroup, CanBegin, CreateSince};
ghost use Rattle.vx_grouped.specs.GroupSites.{site_below, site_disks};
ghost use Rattle.vx_watched.specs.Since.{CalledSince};
ghost use Rattle.vx_watched.specs.Traces.{TellsLess};

use crate::{GroupSite, Laid};
use std::alloc::Global;
use std::marker::Brand;
use vx_disk::Rack;
use vx_loggroup::{LoggedGroup, Opened};
use vx_model::limits::MOST_DISKS;
use vx_model::{No, Stop};
use vx_untold::Shade;
use vx_watched::{Begun, Watched};

fn create_from<B: Begun, R: Rack>(
    alloc: Global,
    rack: R,
    site: u32,
) -> Result<LoggedGroup<R>, (R, Stop)>
    requires some { 0 < (R.meaning rack).units }
    requires few { (R.meaning rack).units ≤ MOST_DISKS }
    requires since { CalledSince B.first (R.meaning rack) }
    ensures made { IfOk result (λ g. IsNewGroup site (R.meaning rack) g.core.inner (R.meaning g.shelf) × (g.core.held ≡ None)) }
    ensures refusals { IfErr result (λ e. BeginRefuses (R.meaning rack) (R.meaning e.0) e.1) }
    ensures since { CreateSince B.first (λ s. R.meaning s) (λ g. g.shelf) result }
{
    let watched = Watched::<R, B>::over(rack);
    let made = LoggedGroup::create(alloc, watched, site);
    match made {
        Ok(group) => {
            let (watched, rest) = group.apart();
            let rack = watched.into_shelf();
            Ok(LoggedGroup::together(rack, rest))
        }
        Err((watched, stop)) => Err((watched.into_shelf(), stop)),
    }
}

// A group without volumes, made of the disks of a rack, whose calls it accounts for.
fn create_watched<R: Rack>(alloc: Global, rack: R, site: u32) -> Result<LoggedGroup<R>, (R, Stop)>
    requires some { 0 < (R.meaning rack).units }
    requires few { (R.meaning rack).units ≤ MOST_DISKS }
    ensures made { IfOk result (λ g. IsNewGroup site (R.meaning rack) g.core.inner (R.meaning g.shelf) × (g.core.held ≡ None)) }
    ensures refusals { IfErr result (λ e. BeginRefuses (R.meaning rack) (R.meaning e.0) e.1) }
    ensures since { CreateSince (R.meaning rack) (λ s. R.meaning s) (λ g. g.shelf) result }
{
    create_from::<Brand, R>(alloc, rack, site)
}

// A group on disks of which the contents are told.
fn brightened<R: Rack>(group: LoggedGroup<R>) -> Laid<R>
    ensures core { result.core ≡ group.core }
    ensures shelf { result.shelf ≡ Shade.Bright group.shelf }
{
    let (rack, rest) = group.apart();
    let Opened {
        core,
        logs,
        alike,
        fresh,
        stopped,
    } = rest;
    Laid {
        shelf: Shade::Bright(rack),
        core,
        logs,
        alike,
        fresh,
        stopped,
    }
}

/// Makes the disks of a bare site a group without volumes. Where it is not made, labels of it may stand on them.
///
/// Answers 7 only where the count of the disk that it names rose, and may run out of memory. Nothing else is answered of 1 to 8 disks of 1,024
/// blocks and more.
pub fn begin_group<R: Rack>(alloc: Global, rack: R, site: u32) -> (GroupSite<R>, Result<(), Stop>)
    ensures begun { (n : Node) → CanBegin n (R.meaning rack) → BeginsGroup site n (R.meaning rack) result.0 result.1 }
    ensures since { CalledSince (R.meaning rack) (site_disks result.0) }
    ensures told { TellsLess (R.meaning rack) (site_below result.0) }
{
    let disks = rack.units();
    if disks == 0 || disks > MOST_DISKS {
        return (GroupSite::Marked(rack), Err(Stop::No(No::Role)));
    }
    match create_watched(alloc, rack, site) {
        Ok(group) => {
            let laid = brightened(group);
            laid.spelled();
            (GroupSite::Up(laid), Ok(()))
        }
        Err((rack, stop)) => (GroupSite::Marked(rack), Err(stop)),
    }
}
