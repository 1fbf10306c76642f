// Sites that are made, groups of disks that come up again, and those that get a replicated volume group.
ghost use Rattle.std.specs.Prelude.{◌≡◌, ◌<◌, length, IfOk};
ghost use Rattle.vx_history.specs.Refusals.{says};
ghost use Rattle.vx_history.specs.Events.{group_again};
ghost use Rattle.vx_history.specs.Step.{outcome_of};
ghost use Rattle.vx_history.specs.Steps.{group_made};
ghost use Rattle.vx_history.specs.declared.event.Event.TheVariants.{Site, Raw, Group, Volumes};
ghost use Rattle.vx_history.specs.declared.event.Said.TheVariants.{Done};
ghost use Rattle.vx_sites.specs.Shapes.{world_of};

use vx_history::{DataVolumes, Said};
use vx_model::{Name, No, OutOfMemory, SiteState};
use vx_sites::bounds::{refuse_new_site, refuse_raw};
use vx_sites::groups::refuse_no_group;
use vx_sites::refusals::{refuse_site, refuse_work};
use vx_sites::{Node, World};

/// A further site, of which nothing is made yet. Refused with 2, 4 and 19.
pub fn add_site(
    world: &mut World,
    name: &Name,
    disks: u32,
    blocks: u64,
) -> Result<Said, OutOfMemory>
    ensures { IfOk result (λ said. says (world_of world.new) said ≡ outcome_of (world_of world.old) (Site name.now disks blocks)) }
{
    if let Some(no) = refuse_new_site(world, name, disks, blocks) {
        return Ok(Said::Refused(no));
    }
    world.add_site(Node::bare(world.alloc, *name, disks, blocks))?;
    Ok(Said::Done)
}

/// A bare site becomes a raw set. Refused with 1, 5 and 4.
pub fn make_raw(world: &mut World, site: u32) -> Result<Said, OutOfMemory>
    ensures { IfOk result (λ said. says (world_of world.new) said ≡ outcome_of (world_of world.old) (Raw site)) }
{
    if let Some(no) = refuse_site(world, site) {
        return Ok(Said::Refused(no));
    }
    if let Some(no) = refuse_raw(world, site) {
        return Ok(Said::Refused(no));
    }
    world.make_raw(site)?;
    Ok(Said::Done)
}

/// A bare site becomes a group of disks without volumes, and a group without volumes and log that is down or deported comes up again.
/// Refused with 1 and 5.
pub fn make_group(world: &mut World, site: u32) -> Result<Said, OutOfMemory>
    ensures { IfOk result (λ said. says (world_of world.new) said ≡ outcome_of (world_of world.old) (Group site)) }
{
    if let Some(no) = refuse_site(world, site) {
        return Ok(Said::Refused(no));
    }
    match world.node(site).state {
        SiteState::Bare => begin_group(world, site),
        SiteState::Up => Ok(Said::Refused(No::Role)),
        SiteState::Deported => Ok(bring_group_up(world, site)),
        SiteState::Down => Ok(bring_group_up(world, site)),
    }
}

/// A group of disks gets a replicated volume group, with a log in a volume of so many blocks and these data volumes. Refused with 1, 6, 20
/// and 5.
pub fn make_volumes(
    world: &mut World,
    site: u32,
    log: u64,
    volumes: &DataVolumes,
) -> Result<Said, OutOfMemory>
    ensures { IfOk result (λ said. says (world_of world.new) said ≡ outcome_of (world_of world.old) (Volumes site log volumes.now)) }
{
    if let Some(no) = refuse_site(world, site) {
        return Ok(Said::Refused(no));
    }
    if let Some(no) = refuse_work(world, site) {
        return Ok(Said::Refused(no));
    }
    if let Some(no) = refuse_no_group(world, site) {
        return Ok(Said::Refused(no));
    }
    world.make_volumes(site, log, volumes)?;
    Ok(Said::Done)
}

fn begin_group(world: &mut World, site: u32) -> Result<Said, OutOfMemory>
    requires { site < length world.old.nodes.items }
    ensures { IfOk result (λ said. says (world_of world.new) said ≡ says (group_made (world_of world.old) site) Done) }
{
    world.make_group(site)?;
    Ok(Said::Done)
}

fn bring_group_up(world: &mut World, site: u32) -> Said
    requires { site < length world.old.nodes.items }
    ensures { says (world_of world.new) result ≡ group_again (world_of world.old) site }
{
    if let Some(no) = refuse_no_group(world, site) {
        return Said::Refused(no);
    }
    world.bring_group_up(site);
    Said::Done
}
