// The step of the world: what an event makes of it, and what is answered.
ghost use Rattle.std.specs.Prelude.{◌≡◌, IfOk, OnOk};
ghost use Rattle.vx_history.specs.Refusals.{says};
ghost use Rattle.vx_history.specs.Step.{outcome_of};
ghost use Rattle.vx_sites.specs.Shapes.{world_of};
ghost use Rattle.vx_world.specs.Answers.{numbers_sent};

use crate::applies::apply;
use crate::deliveries::deliver;
use crate::faults::fault;
use crate::greetings::connect;
use crate::outages::{crash, deport, fall};
use crate::pumps::pump;
use crate::reads::read;
use crate::recoveries::recover;
use crate::settings::{attach, detach, link_sites, set};
use crate::sites::{add_site, make_group, make_raw, make_volumes};
use crate::switches::{cut, pause, resume};
use crate::ticks::tick;
use crate::waits::wait;
use crate::writes::write;
use vx_history::{Event, Said};
use vx_model::OutOfMemory;
use vx_sites::World;

/// What an event is answered.
#[derive(Clone, Copy)]
pub struct Answer {
    pub said: Said,
    /// The first and the last number of the packets that were sent. None where none was.
    pub sent: Option<(u64, u64)>,
}

/// The event happens, and headers are not counted. A refused event changes nothing. Where memory ran out nothing is said of the world.
pub fn step(world: &mut World, event: &Event) -> Result<Answer, OutOfMemory>
    ensures world { OnOk result (world_of world.new ≡ (outcome_of (world_of world.old) event.now).world) }
    ensures said { IfOk result (λ answer. answer.said ≡ (outcome_of (world_of world.old) event.now).said) }
    ensures sent { IfOk result (λ answer. answer.sent ≡ numbers_sent (world_of world.old).packets (world_of world.new).packets) }
{
    let before = world.packets.len();
    let said = happen(world, event)?;
    let after = world.packets.len();
    let sent = if before < after {
        Some((before + 1, after))
    } else {
        None
    };
    Ok(Answer { said, sent })
}

fn happen(world: &mut World, event: &Event) -> Result<Said, OutOfMemory>
    ensures { IfOk result (λ said. says (world_of world.new) said ≡ outcome_of (world_of world.old) event.now) }
{
    match event {
        Event::Site {
            name,
            disks,
            blocks,
        } => add_site(world, name, *disks, *blocks),
        Event::Raw { site } => make_raw(world, *site),
        Event::Group { site } => make_group(world, *site),
        Event::Volumes { site, log, volumes } => make_volumes(world, *site, *log, volumes),
        Event::Write {
            site,
            vol,
            start,
            bytes,
            fails,
        } => write(world, *site, *vol, *start, *bytes, *fails),
        Event::Read {
            site,
            vol,
            start,
            count,
        } => read(world, *site, *vol, *start, *count),
        Event::Apply {
            site,
            count,
            reached,
        } => apply(world, *site, *count, *reached),
        Event::Deliver { packet } => deliver(world, *packet),
        Event::Wait { site, number } => wait(world, *site, *number),
        Event::Crash { site, kept } => crash(world, *site, *kept),
        Event::Deport { site } => deport(world, *site),
        Event::Fall { site } => Ok(fall(world, *site)),
        Event::Recover { site, fails } => recover(world, *site, *fails),
        Event::Fault { site, disk } => Ok(fault(world, *site, *disk)),
        Event::Pump { site, to } => pump(world, *site, *to),
        Event::Tick { site, to } => tick(world, *site, *to),
        Event::Connect { site, to } => connect(world, *site, *to),
        Event::Cut { site, to } => cut(world, *site, *to),
        Event::Pause { site, to } => pause(world, *site, *to),
        Event::Resume { site, to } => resume(world, *site, *to),
        Event::Link {
            site,
            to,
            sync,
            prot,
            part,
        } => link_sites(world, *site, *to, *sync, *prot, *part),
        Event::Set {
            site,
            to,
            sync,
            prot,
        } => set(world, *site, *to, *sync, *prot),
        Event::Attach { site, to } => attach(world, *site, *to),
        Event::Detach { site, to } => detach(world, *site, *to),
    }
}
