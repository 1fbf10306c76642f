// Work on the volumes of a group, with an account of what becomes of the group and of its disks.
ghost use Rattle.std.specs.Prelude.{◌≡◌, ℕ};
ghost use Rattle.vx_ground.specs.Accounts.{GroundSince, ground_state};
ghost use Rattle.vx_ground.specs.Lifted.{laid_volumes, volumes_over};
ghost use Rattle.vx_untold.specs.Shades.{rack_of, shade_meaning};
ghost use Rattle.vx_watched.specs.Since.{CalledSince};
ghost use Rattle.vx_watched.specs.Traces.{TellsLess};

use crate::founding::Founding;
use crate::ground::Ground;
use crate::work::Work;
use std::marker::Brand;
use vx_disk::{Rack, Shelf};
use vx_grouped::{Laid, trace, untrace};
use vx_loggroup::LoggedGroup;
use vx_untold::Shade;
use vx_watched::{Begun, Traced, Watched};

fn work_from<D: Founding, S: Shelf, W: Work>(
    group: LoggedGroup<S>,
    work: W,
) -> (LoggedGroup<S>, W::Answer)
    requires counts { (s : S) (d : ℕ) → (S.meaning s).disk_faults d ≡ (S.meaning s).faults d }
    requires since { GroundSince D.state D.disks (ground_state group.core) (S.meaning group.shelf) }
    requires asks { W.asks work (volumes_over group.core (S.meaning group.shelf)) }
    ensures does { W.does work (volumes_over group.core (S.meaning group.shelf)) (volumes_over result.0.core (S.meaning result.0.shelf)) result.1 }
    ensures since { GroundSince D.state D.disks (ground_state result.0.core) (S.meaning result.0.shelf) }
{
    let ground = Ground::<S, D>::over(group);
    let (ground, answer) = work.run(ground);
    (ground.into_group(), answer)
}

// The same with its account.
fn work_grounded<S: Shelf, W: Work>(group: LoggedGroup<S>, work: W) -> (LoggedGroup<S>, W::Answer)
    requires counts { (s : S) (d : ℕ) → (S.meaning s).disk_faults d ≡ (S.meaning s).faults d }
    requires asks { W.asks work (volumes_over group.core (S.meaning group.shelf)) }
    ensures does { W.does work (volumes_over group.core (S.meaning group.shelf)) (volumes_over result.0.core (S.meaning result.0.shelf)) result.1 }
    ensures since { GroundSince (ground_state group.core) (S.meaning group.shelf) (ground_state result.0.core) (S.meaning result.0.shelf) }
{
    work_from::<Brand, S, W>(group, work)
}

// The same over disks whose calls are accounted for.
fn work_watched<B: Begun, R: Rack, W: Work>(
    group: LoggedGroup<R>,
    work: W,
) -> (LoggedGroup<R>, W::Answer)
    requires since { CalledSince B.first (R.meaning group.shelf) }
    requires asks { W.asks work (volumes_over group.core (R.meaning group.shelf)) }
    ensures does { W.does work (volumes_over group.core (R.meaning group.shelf)) (volumes_over result.0.core (R.meaning result.0.shelf)) result.1 }
    ensures ground { GroundSince (ground_state group.core) (R.meaning group.shelf) (ground_state result.0.core) (R.meaning result.0.shelf) }
    ensures since { CalledSince B.first (R.meaning result.0.shelf) }
{
    let (rack, rest) = group.apart();
    let watched = Watched::<R, B>::over(rack);
    let group = LoggedGroup::together(watched, rest);
    let (group, answer) = work_grounded(group, work);
    let (watched, rest) = group.apart();
    let rack = watched.into_shelf();
    (LoggedGroup::together(rack, rest), answer)
}

// The same over disks of which contents are told or not.
fn work_shaded<R: Rack, W: Work>(
    group: LoggedGroup<Shade<R>>,
    work: W,
) -> (LoggedGroup<Shade<R>>, W::Answer)
    requires asks { W.asks work (volumes_over group.core (shade_meaning (λ s. R.meaning s) group.shelf)) }
    ensures does { W.does work (volumes_over group.core (shade_meaning (λ s. R.meaning s) group.shelf)) (volumes_over result.0.core (shade_meaning (λ s. R.meaning s) result.0.shelf)) result.1 }
    ensures ground { GroundSince (ground_state group.core) (shade_meaning (λ s. R.meaning s) group.shelf) (ground_state result.0.core) (shade_meaning (λ s. R.meaning s) result.0.shelf) }
    ensures since { CalledSince (shade_meaning (λ s. R.meaning s) group.shelf) (shade_meaning (λ s. R.meaning s) result.0.shelf) }
{
    work_watched::<Brand, Shade<R>, W>(group, work)
}

// The same over the disks of a site, with an account of what the rack inside tells.
fn work_traced<C: Begun, R: Rack, W: Work>(laid: Laid<R>, work: W) -> (Laid<R>, W::Answer)
    requires told { TellsLess C.first (R.meaning (rack_of laid.shelf)) }
    requires asks { W.asks work (laid_volumes laid) }
    ensures does { W.does work (laid_volumes laid) (laid_volumes result.0) result.1 }
    ensures ground { GroundSince (ground_state laid.core) (shade_meaning (λ s. R.meaning s) laid.shelf) (ground_state result.0.core) (shade_meaning (λ s. R.meaning s) result.0.shelf) }
    ensures since { CalledSince (shade_meaning (λ s. R.meaning s) laid.shelf) (shade_meaning (λ s. R.meaning s) result.0.shelf) }
    ensures told { TellsLess C.first (R.meaning (rack_of result.0.shelf)) }
{
    let (group, answer) = work_shaded::<Traced<R, C>, W>(trace::<C, R>(laid), work);
    (untrace(group), answer)
}

/// Works on the volumes of a group that is up on the disks of a site, as on any shelf.
pub fn work_over<R: Rack, W: Work>(laid: Laid<R>, work: W) -> (Laid<R>, W::Answer)
    requires { W.asks work (laid_volumes laid) }
    ensures does { W.does work (laid_volumes laid) (laid_volumes result.0) result.1 }
    ensures ground { GroundSince (ground_state laid.core) (shade_meaning (λ s. R.meaning s) laid.shelf) (ground_state result.0.core) (shade_meaning (λ s. R.meaning s) result.0.shelf) }
    ensures since { CalledSince (shade_meaning (λ s. R.meaning s) laid.shelf) (shade_meaning (λ s. R.meaning s) result.0.shelf) }
    ensures told { TellsLess (R.meaning (rack_of laid.shelf)) (R.meaning (rack_of result.0.shelf)) }
{
    work_traced::<Brand, R, W>(laid, work)
}
