// Sites that crash or are deported, and deported ones that are down.
ghost use Rattle.std.specs.Prelude.{◌≡◌, ◌<◌, length, IfOk, OnOk};
ghost use Rattle.vx_history.specs.Refusals.{says};
ghost use Rattle.vx_history.specs.Events.{kept_of, crash_world, crash_at, deport_at};
ghost use Rattle.vx_history.specs.Step.{outcome_of};
ghost use Rattle.vx_history.specs.declared.event.Event.TheVariants.{Crash, Deport, Fall};
ghost use Rattle.vx_history.specs.declared.event.Said.TheVariants.{Done};
ghost use Rattle.vx_history.specs.Steps.{fallen_world};
ghost use Rattle.vx_sites.specs.Shapes.{world_of};

use vx_history::Said;
use vx_model::{No, OutOfMemory, SiteState, is_origin};
use vx_sites::World;
use vx_sites::refusals::{refuse_not_up, refuse_site, refuse_work};

/// The site is down, and keeps its first writes: as many as are nearest to `kept` of those that a crash may keep. Refused with 1
/// and 6.
pub fn crash(world: &mut World, site: u32, kept: u64) -> Result<Said, OutOfMemory>
    ensures { IfOk result (λ said. says (world_of world.new) said ≡ outcome_of (world_of world.old) (Crash site kept)) }
{
    if let Some(no) = refuse_site(world, site) {
        return Ok(Said::Refused(no));
    }
    if let Some(no) = refuse_not_up(world, site) {
        return Ok(Said::Refused(no));
    }
    crash_site(world, site, kept)?;
    Ok(Said::Done)
}

/// The site gives its disks up, and keeps what a crash keeps for certain. Refused with 1, 6 and 20.
pub fn deport(world: &mut World, site: u32) -> Result<Said, OutOfMemory>
    ensures { IfOk result (λ said. says (world_of world.new) said ≡ outcome_of (world_of world.old) (Deport site)) }
{
    if let Some(no) = refuse_site(world, site) {
        return Ok(Said::Refused(no));
    }
    if let Some(no) = refuse_work(world, site) {
        return Ok(Said::Refused(no));
    }
    deport_site(world, site)?;
    Ok(Said::Done)
}

/// A deported site is down. Refused with 1 and 5.
pub fn fall(world: &mut World, site: u32) -> Said
    ensures { says (world_of world.new) result ≡ outcome_of (world_of world.old) (Fall site) }
{
    if let Some(no) = refuse_site(world, site) {
        return Said::Refused(no);
    }
    match world.node(site).state {
        SiteState::Bare => Said::Refused(No::Role),
        SiteState::Up => Said::Refused(No::Role),
        SiteState::Deported => fall_down(world, site),
        SiteState::Down => Said::Refused(No::Role),
    }
}

fn fall_down(world: &mut World, site: u32) -> Said
    requires { site < length world.old.nodes.items }
    ensures { says (world_of world.new) result ≡ says (fallen_world (world_of world.old) site) Done }
{
    world.fall(site);
    Said::Done
}

fn deport_site(world: &mut World, site: u32) -> Result<(), OutOfMemory>
    requires { site < length world.old.nodes.items }
    ensures { OnOk result (world_of world.new ≡ deport_at (world_of world.old) site) }
{
    crash_site(world, site, 0)?;
    world.deport(site);
    Ok(())
}

fn crash_site(world: &mut World, site: u32, kept: u64) -> Result<(), OutOfMemory>
    requires { site < length world.old.nodes.items }
    ensures { OnOk result (let w = world_of world.old in world_of world.new ≡ crash_at w site (kept_of (w.nodes site) kept)) }
{
    let node = world.node(site);
    let kept = (node.log.len() as u64).min(kept.max(node.safe));
    world.mark_kept(site, kept)?;
    take_down(world, site, kept)?;
    world.lose_touch(site);
    world.empty(site);
    Ok(())
}

// The line of an origin then holds what its origin kept.
fn take_down(world: &mut World, site: u32, kept: u64) -> Result<(), OutOfMemory>
    requires { site < length world.old.nodes.items }
    ensures { OnOk result (world_of world.new ≡ crash_world (world_of world.old) site kept) }
{
    if !is_origin(&world.node(site).role) {
        world.go_down(site, kept)?;
        return Ok(());
    }
    world.keep_line(site, kept)?;
    world.go_down(site, kept)?;
    Ok(())
}
