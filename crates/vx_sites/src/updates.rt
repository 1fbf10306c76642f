// Writes that are sent as updates.
ghost use Rattle.std.specs.Prelude.{◌≡◌, ◌+◌, ◌≤◌, ◌<◌, ◌^◌, ◌++◌, length, OnOk};
ghost use Rattle.vx_history.specs.Sends.{updates, between, sending};
ghost use Rattle.vx_sites.specs.Shapes.{world_of};

use crate::{Dispatch, Dispatches, Message, World, Write};
use std::alloc::Global;
use vx_model::{Line, OutOfMemory};

// The two ends of an update, and the line that it is of.
#[derive(Clone, Copy)]
struct Route {
    source: u32,
    target: u32,
    line: Line,
}

impl World {
    /// Sends those of the source's writes that have these numbers, both ends included, to the target.
    pub fn send_updates(
        &mut self,
        source: u32,
        target: u32,
        from: u64,
        to: u64,
    ) -> Result<(), OutOfMemory>
        requires { source < length self.old.nodes.items }
        ensures { OnOk result (let w = world_of self.old in world_of self.new ≡ sending w (updates source target (w.nodes source).line from (between from to (w.nodes source).log))) }
    {
        let node = &self.nodes[source as usize];
        let route = Route {
            source,
            target,
            line: node.line,
        };
        send_writes(
            self.alloc,
            &mut self.packets,
            &route,
            from,
            writes_between(&node.log, from, to),
        )
    }
}

// Those of the writes of a log that have these numbers, both ends included.
fn writes_between(log: &[Write], from: u64, to: u64) -> &[Write]
    ensures is { result.now ≡ between from to log.now }
    ensures few { from + length result.now ≤ 2 ^ 64 }
{
    let first = from.saturating_sub(1).min(log.len() as u64) as usize;
    let last = to.min(log.len() as u64) as usize;
    if first < last {
        &log[first..last]
    } else {
        &log[..0]
    }
}

// Sends these writes as updates, the first under this number.
fn send_writes(
    alloc: Global,
    packets: &mut Dispatches,
    route: &Route,
    number: u64,
    writes: &[Write],
) -> Result<(), OutOfMemory>
    requires { number + length writes.now ≤ 2 ^ 64 }
    ensures { OnOk result (packets.new ≡ packets.old ++ updates route.now.source route.now.target route.now.line number writes.now) }
{
    for (past, write) in writes.iter().enumerate() {
        packets.send(Dispatch {
            source: route.source,
            target: route.target,
            line: route.line,
            message: Message::Update {
                number: number + past as u64,
                write: Box::new(alloc, *write)?,
            },
        })?;
    }
    Ok(())
}
