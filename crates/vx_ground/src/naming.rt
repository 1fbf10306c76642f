// The volumes of a group with logs that are its replicated volume group.
ghost use Rattle.std.specs.Prelude.{◌≡◌, ◌≤◌, ℕ, Err, IfErr, IsTrue, None, OnOk, Some, true};
ghost use Rattle.vx_config.specs.Checks.{is_group};
ghost use Rattle.vx_copies.specs.Commits.{MoreFailed};
ghost use Rattle.vx_disk.specs.Shelf.{Goes, Nothing};
ghost use Rattle.vx_group.specs.Dets.{DetStops};
ghost use Rattle.vx_group.specs.Finds.{GroupFinds};
ghost use Rattle.vx_group.specs.Holding.{wide};
ghost use Rattle.vx_group.specs.Rvgs.{RvgEnds, set_rvg_refusal};
ghost use Rattle.vx_group.specs.Stands.{inner_meaning};
ghost use Rattle.vx_ground.specs.Named.{FewStop, NamesGroup, SameVolumes};
ghost use Rattle.vx_model.specs.declared.errors.Stop.TheVariants.{No as Refused};
ghost use Rattle.vx_model.specs.declared.no.No.{No as NoValue};
ghost use Rattle.vx_untold.specs.Shades.{rack_of, shade_meaning};
ghost use Rattle.vx_watched.specs.Since.{CalledSince};
ghost use Rattle.vx_watched.specs.Traces.{TellsLess};

use crate::numbers::few_stop;
use std::marker::Brand;
use vx_disk::{Rack, Shelf};
use vx_group::{may_name, set_rvg_in};
use vx_grouped::{Laid, trace, untrace};
use vx_loggroup::{LoggedGroup, Opened};
use vx_model::{Stop, Units};
use vx_untold::Shade;
use vx_watched::{Begun, Traced, Watched};

/// Names the volumes that are the replicated volume group, by a commit. Every volume is left as it was, and so are its logs.
///
/// Answers 19 exactly where too few serials are left, else 4 exactly where these may not be such a group, and then nothing has changed; else
/// 7 only where the count of the disk that it names rose, and 6 only where the shelf is then down. Then memory has the group of before, or
/// none.
pub fn name_rvg<S: Shelf>(
    group: LoggedGroup<S>,
    units: &Units,
) -> (LoggedGroup<S>, Result<(), Stop>)
    ensures refused { (no : NoValue) → set_rvg_refusal group.core.inner.config units.now ≡ Some no → (result.1 ≡ Err (Refused no)) × (result.0.core ≡ group.core) × (result.0.shelf ≡ group.shelf) }
    ensures goes { Goes Nothing (inner_meaning (wide group.core) (S.meaning group.shelf)) (inner_meaning (wide result.0.core) (S.meaning result.0.shelf)) }
    ensures same { SameVolumes group.core.inner.config result.0.core.inner.config }
    ensures disks { MoreFailed (S.meaning group.shelf) (S.meaning result.0.shelf) group.core.inner.config.disks result.0.core.inner.config.disks }
    ensures ends { RvgEnds units.now group.core.inner.config result.0.core.inner.config (S.meaning result.0.shelf) result.1 }
    ensures trust { OnOk result.1 (group.core.inner.committed ≡ true → result.0.core.inner.committed ≡ true) }
    ensures agreed { IfErr result.1 (λ e. group.core.inner.committed ≡ true → result.0.core.inner.agreed ≡ true) }
    ensures later { group.core.inner.config.serial ≤ result.0.core.inner.config.serial }
    ensures finds { GroupFinds group.core result.0.core (S.meaning group.shelf) (S.meaning result.0.shelf) }
    ensures up { OnOk result.1 (IsTrue (S.meaning result.0.shelf).down → ⊥) }
    ensures cause { set_rvg_refusal group.core.inner.config units.now ≡ None → DetStops (S.meaning group.shelf) (S.meaning result.0.shelf) result.1 }
    ensures few { FewStop result.1 }
{
    let (mut shelf, rest) = group.apart();
    let Opened {
        mut core,
        logs,
        alike,
        fresh,
        stopped,
    } = rest;
    let answer = set_rvg_in(&mut shelf, &mut core, units);
    few_stop(&answer);
    let rest = Opened {
        core,
        logs,
        alike,
        fresh,
        stopped,
    };
    (LoggedGroup::together(shelf, rest), answer)
}

// The same over disks whose calls are accounted for.
fn name_watched<B: Begun, R: Rack>(
    group: LoggedGroup<R>,
    units: &Units,
) -> (LoggedGroup<R>, Result<(), Stop>)
    requires since { CalledSince B.first (R.meaning group.shelf) }
    ensures names { NamesGroup units.now group.core (R.meaning group.shelf) result.0.core (R.meaning result.0.shelf) result.1 }
    ensures since { CalledSince B.first (R.meaning result.0.shelf) }
{
    let (rack, rest) = group.apart();
    let watched = Watched::<R, B>::over(rack);
    let group = LoggedGroup::together(watched, rest);
    let (group, answer) = name_rvg(group, units);
    let (watched, rest) = group.apart();
    let rack = watched.into_shelf();
    (LoggedGroup::together(rack, rest), answer)
}

// The same over disks of which contents are told or not.
fn name_shaded<R: Rack>(
    group: LoggedGroup<Shade<R>>,
    units: &Units,
) -> (LoggedGroup<Shade<R>>, Result<(), Stop>)
    ensures names { NamesGroup units.now group.core (shade_meaning (λ s. R.meaning s) group.shelf) result.0.core (shade_meaning (λ s. R.meaning s) result.0.shelf) result.1 }
    ensures since { CalledSince (shade_meaning (λ s. R.meaning s) group.shelf) (shade_meaning (λ s. R.meaning s) result.0.shelf) }
{
    name_watched::<Brand, Shade<R>>(group, units)
}

// The same over the disks of a site, with an account of what the rack inside tells.
fn name_traced<C: Begun, R: Rack>(laid: Laid<R>, units: &Units) -> (Laid<R>, Result<(), Stop>)
    requires told { TellsLess C.first (R.meaning (rack_of laid.shelf)) }
    ensures names { NamesGroup units.now laid.core (shade_meaning (λ s. R.meaning s) laid.shelf) result.0.core (shade_meaning (λ s. R.meaning s) result.0.shelf) result.1 }
    ensures since { CalledSince (shade_meaning (λ s. R.meaning s) laid.shelf) (shade_meaning (λ s. R.meaning s) result.0.shelf) }
    ensures told { TellsLess C.first (R.meaning (rack_of result.0.shelf)) }
{
    let (group, answer) = name_shaded::<Traced<R, C>>(trace::<C, R>(laid), units);
    (untrace(group), answer)
}

/// Names the volumes that are the replicated volume group of a group that is up on the disks of a site, by a commit.
pub fn name_over<R: Rack>(laid: Laid<R>, units: &Units) -> (Laid<R>, Result<(), Stop>)
    ensures names { NamesGroup units.now laid.core (shade_meaning (λ s. R.meaning s) laid.shelf) result.0.core (shade_meaning (λ s. R.meaning s) result.0.shelf) result.1 }
    ensures since { CalledSince (shade_meaning (λ s. R.meaning s) laid.shelf) (shade_meaning (λ s. R.meaning s) result.0.shelf) }
    ensures told { TellsLess (R.meaning (rack_of laid.shelf)) (R.meaning (rack_of result.0.shelf)) }
{
    name_traced::<Brand, R>(laid, units)
}

// Whether these volumes may be the replicated volume group. The group is given back as it was.
fn can_name_in<S: Shelf>(group: LoggedGroup<S>, units: &Units) -> (LoggedGroup<S>, bool)
    ensures core { result.0.core ≡ group.core }
    ensures shelf { result.0.shelf ≡ group.shelf }
    ensures is { result.1 ≡ is_group group.core.inner.config.volumes units.now }
{
    let (shelf, rest) = group.apart();
    let Opened {
        mut core,
        logs,
        alike,
        fresh,
        stopped,
    } = rest;
    let may = may_name(&mut core.inner.config, units);
    let rest = Opened {
        core,
        logs,
        alike,
        fresh,
        stopped,
    };
    (LoggedGroup::together(shelf, rest), may)
}

/// Whether these volumes may be the replicated volume group of a group that is up on the disks of a site. It is given back as it was.
pub fn can_name<R: Rack>(laid: Laid<R>, units: &Units) -> (Laid<R>, bool)
    ensures core { result.0.core ≡ laid.core }
    ensures shelf { result.0.shelf ≡ laid.shelf }
    ensures is { result.1 ≡ is_group laid.core.inner.config.volumes units.now }
{
    let (group, may) = can_name_in(laid.together(), units);
    (Laid::of(group), may)
}
