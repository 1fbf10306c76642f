// Links that are connected, cut, paused and resumed.
ghost use Rattle.std.specs.Prelude.{◌≡◌, IfOk};
ghost use Rattle.vx_history.specs.Refusals.{says};
ghost use Rattle.vx_history.specs.Step.{outcome_of};
ghost use Rattle.vx_history.specs.declared.event.Event.TheVariants.{Cut, Pause, Resume};
ghost use Rattle.vx_sites.specs.Shapes.{world_of};

use crate::rule::move_link;
use vx_history::{SEvent, Said};
use vx_model::OutOfMemory;
use vx_sites::World;
use vx_sites::refusals::refuse_link;

/// The link is cut. Refused with 1, 5, 6 and 20.
pub fn cut(world: &mut World, from: u32, to: u32) -> Result<Said, OutOfMemory>
    ensures { IfOk result (λ said. says (world_of world.new) said ≡ outcome_of (world_of world.old) (Cut from to)) }
{
    if let Some(no) = refuse_link(world, from, to) {
        return Ok(Said::Refused(no));
    }
    move_link(world, from, to, &SEvent::Cut)?;
    Ok(Said::Done)
}

/// The link is paused. Refused with 1, 5, 6 and 20.
pub fn pause(world: &mut World, from: u32, to: u32) -> Result<Said, OutOfMemory>
    ensures { IfOk result (λ said. says (world_of world.new) said ≡ outcome_of (world_of world.old) (Pause from to)) }
{
    if let Some(no) = refuse_link(world, from, to) {
        return Ok(Said::Refused(no));
    }
    move_link(world, from, to, &SEvent::Pause)?;
    Ok(Said::Done)
}

/// The link is paused no longer. Refused with 1, 5, 6 and 20.
pub fn resume(world: &mut World, from: u32, to: u32) -> Result<Said, OutOfMemory>
    ensures { IfOk result (λ said. says (world_of world.new) said ≡ outcome_of (world_of world.old) (Resume from to)) }
{
    if let Some(no) = refuse_link(world, from, to) {
        return Ok(Said::Refused(no));
    }
    move_link(world, from, to, &SEvent::Resume)?;
    Ok(Said::Done)
}
