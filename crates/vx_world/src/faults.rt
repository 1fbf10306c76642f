// A disk fails.
ghost use Rattle.std.specs.Prelude.{◌≡◌};
ghost use Rattle.vx_history.specs.Refusals.{says};
ghost use Rattle.vx_history.specs.Step.{outcome_of};
ghost use Rattle.vx_history.specs.declared.event.Event.TheVariants.{Fault};
ghost use Rattle.vx_sites.specs.Shapes.{world_of};

use vx_history::Said;
use vx_model::No;
use vx_sites::World;
use vx_sites::refusals::{refuse_not_up, refuse_site};

/// The disk halts its site. Refused with 1 and 6.
pub fn fault(world: &mut World, site: u32, disk: u32) -> Said
    ensures { says (world_of world.new) result ≡ outcome_of (world_of world.old) (Fault site disk) }
{
    if let Some(no) = refuse_site(world, site) {
        return Said::Refused(no);
    }
    if let Some(no) = refuse_not_up(world, site) {
        return Said::Refused(no);
    }
    world.halt(site, disk);
    Said::Refused(No::Device { disk })
}
