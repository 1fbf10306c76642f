// Sites that come up again.
ghost use Rattle.std.specs.Prelude.{◌≡◌, ◌<◌, length, None, IfOk, OnOk};
ghost use Rattle.vx_history.specs.Sends.{sending};
ghost use Rattle.vx_history.specs.Steps.{recovered};
ghost use Rattle.vx_history.specs.Refusals.{says, unless_at_most};
ghost use Rattle.vx_history.specs.Events.{recovery, recovery_greeting, come_back};
ghost use Rattle.vx_history.specs.Step.{outcome_of};
ghost use Rattle.vx_history.specs.declared.event.Event.TheVariants.{Recover};
ghost use Rattle.vx_sites.specs.Shapes.{world_of, node_of};

use crate::applies::mark_at;
use vx_history::Said;
use vx_model::limits::MOST_NUMBER;
use vx_model::{Mark, No, OutOfMemory, SiteState, is_origin};
use vx_sites::bounds::refuse_most;
use vx_sites::refusals::refuse_site;
use vx_sites::{Dispatch, Message, Node, World};

/// A site that is down or deported comes up in its next session, and a receiver greets its primary. Where a disk fails the session
/// has begun, and the site is down or deported still. Refused with 1, with 9 where the site is bare, with 5 where it is up, and with 19.
pub fn recover(world: &mut World, site: u32, fails: Option<u32>) -> Result<Said, OutOfMemory>
    ensures { IfOk result (λ said. says (world_of world.new) said ≡ outcome_of (world_of world.old) (Recover site fails)) }
{
    if let Some(no) = refuse_site(world, site) {
        return Ok(Said::Refused(no));
    }
    match world.node(site).state {
        SiteState::Bare => Ok(Said::Refused(No::NoConfig)),
        SiteState::Up => Ok(Said::Refused(No::Role)),
        SiteState::Down => recover_down(world, site, fails),
        SiteState::Deported => recover_down(world, site, fails),
    }
}

fn recover_down(world: &mut World, site: u32, fails: Option<u32>) -> Result<Said, OutOfMemory>
    requires { site < length world.old.nodes.items }
    ensures { let w = world_of world.old in IfOk result (λ said. says (world_of world.new) said ≡ unless_at_most (w.nodes site).session w (recovery w site fails)) }
{
    if let Some(no) = refuse_most(world.node(site).session) {
        return Ok(Said::Refused(no));
    }
    match fails {
        None => bring_up(world, site),
        Some(disk) => {
            world.begin_session(site);
            Ok(Said::Refused(No::Device { disk }))
        }
    }
}

fn bring_up(world: &mut World, site: u32) -> Result<Said, OutOfMemory>
    requires within { site < length world.old.nodes.items }
    requires room { ((world_of world.old).nodes site).session < MOST_NUMBER }
    ensures { let w = world_of world.old in IfOk result (λ said. says (world_of world.new) said ≡ recovery w site None) }
{
    let node = world.node(site);
    let count = node.log.len() as u64;
    let mark = mark_after(node);
    world.come_up(site, mark);
    world.restart_links(site);
    greet(world, site)?;
    Ok(Said::Recovered(count))
}

// The mark of the site as it comes up.
fn mark_after(node: &Node) -> Mark
    ensures { let n = node_of node.now in come_back n ≡ record (recovered n) { mark = result } }
{
    if is_origin(&node.role) {
        return node.mark;
    }
    mark_at(node.mark, &node.phase, node.end, node.log.len() as u64)
}

// A receiver greets its primary.
fn greet(world: &mut World, site: u32) -> Result<(), OutOfMemory>
    requires { site < length world.old.nodes.items }
    ensures { OnOk result (let w = world_of world.old in world_of world.new ≡ sending w (recovery_greeting site (w.nodes site))) }
{
    let node = world.node(site);
    if is_origin(&node.role) {
        return Ok(());
    }
    let hello = Dispatch {
        source: site,
        target: node.other,
        line: node.line,
        message: Message::Hello {
            session: node.session,
            number: node.log.len() as u64,
            stored: node.safe,
        },
    };
    world.send(hello)?;
    Ok(())
}
