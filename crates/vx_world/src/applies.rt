// Records that are brought into their volumes.
ghost use Rattle.std.specs.Prelude.{◌≡◌, ◌<◌, length, IfOk};
ghost use Rattle.vx_history.specs.Receiving.{marked_by};
ghost use Rattle.vx_history.specs.Refusals.{says};
ghost use Rattle.vx_history.specs.Events.{apply_at};
ghost use Rattle.vx_history.specs.Step.{outcome_of};
ghost use Rattle.vx_history.specs.declared.receiver.RState.{RState};
ghost use Rattle.vx_history.specs.declared.event.Event.TheVariants.{Apply};
ghost use Rattle.vx_sites.specs.Shapes.{world_of};

use vx_history::Said;
use vx_model::{Mark, OutOfMemory, SPhase, is_origin};
use vx_sites::refusals::{refuse_site, refuse_work};
use vx_sites::{Dispatch, Message, World};

/// The next waiting records, so many, are durable at a receiver, and are acknowledged from disk, to the
/// site that feeds it. At a site where writes arise
/// nothing changes. Refused with 1, 6 and 20.
pub fn apply(world: &mut World, site: u32, count: u64, reached: u64) -> Result<Said, OutOfMemory>
    ensures { IfOk result (λ said. says (world_of world.new) said ≡ outcome_of (world_of world.old) (Apply site count reached)) }
{
    if let Some(no) = refuse_site(world, site) {
        return Ok(Said::Refused(no));
    }
    if let Some(no) = refuse_work(world, site) {
        return Ok(Said::Refused(no));
    }
    let node = world.node(site);
    let head = node.safe;
    if is_origin(&node.role) {
        return Ok(Said::DoneAt(head.min(reached.max(count.min(head)))));
    }
    apply_received(world, site, count)
}

fn apply_received(world: &mut World, site: u32, count: u64) -> Result<Said, OutOfMemory>
    requires { site < length world.old.nodes.items }
    ensures { IfOk result (λ said. says (world_of world.new) said ≡ apply_at (world_of world.old) site count) }
{
    let node = world.node(site);
    let last = node.log.len() as u64;
    let waiting = last.saturating_sub(node.safe);
    if count == 0 || waiting == 0 {
        return Ok(Said::DoneAt(node.safe));
    }
    let number = last - waiting.saturating_sub(count);
    let mark = mark_at(node.mark, &node.phase, node.end, number);
    let ack = Dispatch {
        source: site,
        target: node.fed_by,
        line: node.line,
        message: Message::DataAck { number },
    };
    world.apply(site, number, mark)?;
    world.send(ack)?;
    Ok(Said::DoneAt(number))
}

/// The mark of a receiver in this phase of a replay that ends at `end`, with so many records applied.
pub fn mark_at(mark: Mark, phase: &SPhase, end: u64, applied: u64) -> Mark
    ensures { (s : RState) → s.mark ≡ mark → s.phase ≡ phase.now → s.end ≡ end → result ≡ (marked_by s applied).mark }
{
    match phase {
        SPhase::Log if end <= applied => Mark::Consistent,
        _ => mark,
    }
}
