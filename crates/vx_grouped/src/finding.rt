// A group that is found on disks of which it is not known what they hold.
ghost use Rattle.std.specs.Prelude.{◌≡◌, IfErr, IfOk};
ghost use Rattle.vx_config.specs.declared.config.Config.{Config as ConfigValue};
ghost use Rattle.vx_group.specs.Imports.{ImportStops};
ghost use Rattle.vx_history.specs.Groups.{GroupNode, MissedNote};
ghost use Rattle.vx_history.specs.World.{Node};
ghost use Rattle.vx_grouped.specs.Away.{AwayLies};
ghost use Rattle.vx_grouped.specs.Finds.{CanFind, FindStops, FindsParts, FindsUp, FoundSince, FoundTells};
ghost use Rattle.vx_grouped.specs.GroupSites.{site_below, site_disks};
ghost use Rattle.vx_grouped.specs.PlainMaps.{PartsNoted, map_parts};
ghost use Rattle.vx_untold.specs.Shades.{rack_of, shade_meaning};
ghost use Rattle.vx_untold.specs.Untold.{untold};
ghost use Rattle.vx_watched.specs.Since.{CalledSince};

use crate::importing::import_group;
use crate::{GroupSite, Laid};
use std::alloc::Global;
use std::marker::Brand;
use vx_disk::Rack;
use vx_loggroup::{LoggedGroup, Opened};
use vx_logimport::Rested;
use vx_model::Stop;
use vx_untold::{Shade, Untold};
use vx_watched::{Begun, Watched};

// A group on disks of which nothing is told.
fn dimmed<R: Rack>(group: LoggedGroup<Untold<R>>) -> Laid<R>
    ensures core { result.core ≡ group.core }
    ensures logs { result.logs ≡ group.logs }
    ensures alike { result.alike ≡ group.alike }
    ensures fresh { result.fresh ≡ group.fresh }
    ensures stopped { result.stopped ≡ group.stopped }
    ensures shelf { result.shelf ≡ Shade.Dark group.shelf.shelf }
{
    let (untold, rest) = group.apart();
    let Opened {
        core,
        logs,
        alike,
        fresh,
        stopped,
    } = rest;
    Laid {
        shelf: Shade::Dark(untold.shelf),
        core,
        logs,
        alike,
        fresh,
        stopped,
    }
}

fn find_from<B: Begun, R: Rack>(alloc: Global, rack: R) -> Result<Laid<R>, (R, Stop)>
    requires since { CalledSince B.first (R.meaning rack) }
    ensures leaves { (n : Node) (note : GroupNode) (last : ConfigValue) → AwayLies n note last (untold (R.meaning rack)) → FindsParts n note last (untold (R.meaning rack)) (λ g. g.core) (λ g. shade_meaning (λ s. R.meaning s) g.shelf) result }
    ensures maps { IfOk result (λ g. (w : MissedNote) × PartsNoted w (map_parts g.core.inner.config g.logs.items g.alike g.stopped)) }
    ensures stops { IfErr result (λ e. ImportStops (untold (R.meaning rack)) (untold (R.meaning e.0)) e.1) }
    ensures since { FoundSince B.first (λ s. R.meaning s) (λ g. shade_meaning (λ s. R.meaning s) g.shelf) result }
    ensures told { FoundTells B.first (λ s. R.meaning s) (λ g. R.meaning (rack_of g.shelf)) result }
{
    let watched = Untold {
        shelf: Watched::<R, B>::over(rack),
    };
    match import_group(alloc, watched, &Rested::found()) {
        Ok(group) => {
            let (watched, rest) = group.apart();
            let rack = watched.shelf.into_shelf();
            Ok(dimmed(LoggedGroup::together(Untold { shelf: rack }, rest)))
        }
        Err((watched, stop)) => Err((watched.shelf.into_shelf(), stop)),
    }
}

// Imports a group of disks as of ones that tell nothing, whose calls it accounts for.
fn find_watched<R: Rack>(alloc: Global, rack: R) -> Result<Laid<R>, (R, Stop)>
    ensures leaves { (n : Node) (note : GroupNode) (last : ConfigValue) → AwayLies n note last (untold (R.meaning rack)) → FindsParts n note last (untold (R.meaning rack)) (λ g. g.core) (λ g. shade_meaning (λ s. R.meaning s) g.shelf) result }
    ensures maps { IfOk result (λ g. (w : MissedNote) × PartsNoted w (map_parts g.core.inner.config g.logs.items g.alike g.stopped)) }
    ensures stops { IfErr result (λ e. ImportStops (untold (R.meaning rack)) (untold (R.meaning e.0)) e.1) }
    ensures since { FoundSince (R.meaning rack) (λ s. R.meaning s) (λ g. shade_meaning (λ s. R.meaning s) g.shelf) result }
    ensures told { FoundTells (R.meaning rack) (λ s. R.meaning s) (λ g. R.meaning (rack_of g.shelf)) result }
{
    find_from::<Brand, R>(alloc, rack)
}

/// Imports the group that lies on the disks of a bare site, of which it is not known what they hold. Nothing is told of them from then on. Where
/// none comes up the disks are handed back.
///
/// Answers what an import answers, and takes memory.
pub fn find_group<R: Rack>(alloc: Global, rack: R, site: u32) -> Result<GroupSite<R>, (R, Stop)>
    ensures found { (n : Node) → CanFind n (R.meaning rack) → FindsUp site n result }
    ensures stops { (n : Node) → CanFind n (R.meaning rack) → IfErr result (λ e. FindStops n (R.meaning rack) (R.meaning e.0) e.1) }
    ensures since { FoundSince (R.meaning rack) (λ s. R.meaning s) (λ e. site_disks e) result }
    ensures told { FoundTells (R.meaning rack) (λ s. R.meaning s) (λ e. site_below e) result }
{
    match find_watched(alloc, rack) {
        Ok(laid) => {
            laid.spelled();
            Ok(GroupSite::Up(laid))
        }
        Err((rack, stop)) => Err((rack, stop)),
    }
}
