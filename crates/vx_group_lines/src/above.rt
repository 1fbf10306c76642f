// The sites with a replicated volume group over their group, as the tests of a line see them.
ghost use Rattle.std.specs.Prelude.{◌≡◌, ◌<◌, IsSome, length};
ghost use Rattle.vx_history.specs.Doubts.{Doubted};
ghost use Rattle.vx_events.specs.Facts.{seat_of};
ghost use Rattle.vx_events.specs.RvgSteps.{over_rvg_at};
ghost use Rattle.vx_events.specs.RvgViews.{is_over_rvg};
ghost use Rattle.vx_yard.specs.Standing.{StandsFor};
ghost use Rattle.vx_yard.specs.Yards.{IsYardKept};

use crate::lines::leads_with_data;
use vx_disk::Rack;
use vx_model::Name;
use vx_yard::Yard;

// Whether the site of this number has one.
fn has_rvg_in<R: Rack>(yard: &Yard<R>, site: usize) -> bool
    requires there { site < length yard.now.facts.items }
    ensures { (d : Doubted) → StandsFor d yard.now → result ≡ is_over_rvg (d.world.nodes site) }
{
    yard.facts[site].grouped && leads_with_data(yard.facts[site].volumes.as_slice())
}

/// Whether the site of this name has one.
pub fn has_rvg<R: Rack>(yard: &Yard<R>, name: &Name) -> bool
    requires kept { IsYardKept yard.now }
    requires named { IsSome (seat_of yard.now.facts.items name.now) }
    ensures { (d : Doubted) → StandsFor d yard.now → result ≡ over_rvg_at d.world name.now }
{
    let site = yard.site_of(name);
    has_rvg_in(yard, site)
}
