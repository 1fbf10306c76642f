// A site is asked whether a write is confirmed.
ghost use Rattle.std.specs.Prelude.{◌≡◌, ◌<◌, length, IfOk};
ghost use Rattle.vx_history.specs.Refusals.{says};
ghost use Rattle.vx_history.specs.Step.{outcome_of};
ghost use Rattle.vx_history.specs.declared.event.Event.TheVariants.{Wait};
ghost use Rattle.vx_sites.specs.Refusing.{Refuses};
ghost use Rattle.vx_sites.specs.Shapes.{world_of};
ghost use Rattle.vx_world.specs.Confirming.{may_confirm, confirmed};

use vx_history::Said;
use vx_model::{Named, No, OutOfMemory, is_origin};
use vx_sites::World;
use vx_sites::refusals::{refuse_site, refuse_work};

/// Whether the write of this number is confirmed as the site's links say: done, with a promise by each attached link that fails
/// writes, or pending. Refused with 1, 6, 20 and 5, with 1 for a number that is not durable, and where a link can't confirm it.
pub fn wait(world: &mut World, site: u32, number: u64) -> Result<Said, OutOfMemory>
    ensures { IfOk result (λ said. says (world_of world.new) said ≡ outcome_of (world_of world.old) (Wait site number)) }
{
    if let Some(no) = refuse_site(world, site) {
        return Ok(Said::Refused(no));
    }
    if let Some(no) = refuse_work(world, site) {
        return Ok(Said::Refused(no));
    }
    if let Some(no) = refuse_number(world, site, number) {
        return Ok(Said::Refused(no));
    }
    confirm(world, site, number)
}

// 5 where no writes arise at the site, 1 where the number is not durable there, and where a link can't confirm it.
fn refuse_number(world: &World, site: u32, number: u64) -> Option<No>
    requires { site < length world.now.nodes.items }
    ensures { Refuses result (world_of world.now) (may_confirm (world_of world.now) site number) }
{
    let node = world.node(site);
    if !is_origin(&node.role) {
        return Some(No::Role);
    }
    if number == 0 || node.safe < number {
        return Some(No::Unknown {
            what: Named::Number(number),
        });
    }
    if world.is_unconfirmed(site, number) {
        Some(No::Unconfirmed { number })
    } else {
        None
    }
}

// Pending where a link has still to confirm the number, and done with what the links promise where none has.
fn confirm(world: &mut World, site: u32, number: u64) -> Result<Said, OutOfMemory>
    requires { site < length world.old.nodes.items }
    ensures { IfOk result (λ said. says (world_of world.new) said ≡ confirmed (world_of world.old) site number) }
{
    if world.is_held_back(site, number) {
        return Ok(Said::Pending(number));
    }
    world.promise_number(site, number)?;
    Ok(Said::DoneAt(number))
}
