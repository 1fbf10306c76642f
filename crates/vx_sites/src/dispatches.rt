// The messages that were sent, each once.
ghost use Rattle.std.specs.Prelude.{◌≡◌, ◌<◌, ◌≤◌, ◌+◌, ◌-◌, ◌++◌, [], length, take, get_or, Some, slice_get, IfOk, OnOk};
ghost use Rattle.vx_history.specs.Sends.{packets_of, parts_of as parts};
ghost use Rattle.vx_sites.specs.Messages.{message_of, packets_in};
ghost use Rattle.vx_sites.specs.Shapes.{packet_of};
ghost use Rattle.vx_sites.specs.declared.packet.Dispatch.{Dispatch as Sent};

use crate::packet::{Dispatch, Packet, parts_of};
use std::alloc::Global;
use std::marker::Model;
use vx_model::OutOfMemory;

/// All packets that were ever sent, number 1 first: those of each message, which stands here once. Contracts see the packets.
#[derive(Drop)]
pub struct Dispatches {
    sent: Vec<Dispatch>,
    /// How many packets they are.
    count: u64,
}

impl Model for Dispatches {
    ghost use Rattle.std.specs.Prelude.{List, ◌≡◌, length};
    ghost use Rattle.vx_history.specs.World.{Packet as PlainPacket};
    ghost use Rattle.vx_sites.specs.Messages.{packets_in};

    ghost Value = { List PlainPacket };

    ghost view = { λ d. packets_in d.sent.items };

    ghost invariant = { λ d. d.count ≡ length (packets_in d.sent.items) };
}

impl Dispatches {
    /// None was sent.
    pub fn new(alloc: Global) -> Dispatches
        ensures { result ≡ [] }
    {
        Dispatches {
            sent: Vec::new(alloc),
            count: 0,
        }
    }

    /// How many packets were sent.
    pub fn len(&self) -> u64
        ensures { result ≡ length self.now }
    {
        self.count
    }

    /// Sends the packets of a message, behind those that were sent. More than a number of 64 bits have no memory.
    pub fn send(&mut self, dispatch: Dispatch) -> Result<(), OutOfMemory>
        ensures { OnOk result (self.new ≡ self.old ++ packets_of dispatch.source dispatch.target dispatch.line (message_of dispatch.message)) }
    {
        let count = match self
            .count
            .checked_add(u64::from(parts_of(&dispatch.message)))
        {
            Some(count) => count,
            None => return Err(OutOfMemory),
        };
        self.sent.push(dispatch)?;
        self.count = count;
        Ok(())
    }

    /// The packet of this number, with a copy of its message.
    pub fn packet(&self, alloc: Global, number: u64) -> Result<Packet, OutOfMemory>
        requires some { 0 < number }
        requires within { number ≤ length self.now }
        ensures { IfOk result (λ p. slice_get self.now (number - 1) ≡ Some (packet_of p)) }
    {
        let (place, part) = seek(&self.sent, self.count, number);
        let dispatch = &self.sent[place];
        Ok(Packet {
            source: dispatch.source,
            target: dispatch.target,
            line: dispatch.line,
            message: dispatch.message.copy(alloc)?,
            part,
        })
    }
}

// Whose message the packet of this number carries, by its place, and which part, of messages with so many packets.
// The last is looked at first.
fn seek(sent: &[Dispatch], count: u64, number: u64) -> (usize, u32)
    requires many { count ≡ length (packets_in sent.now) }
    requires some { 0 < number }
    requires within { number ≤ count }
    ensures place { result.0 < length sent.now }
    ensures part { (d : Sent) → result.1 < parts (message_of (get_or sent.now result.0 d).message) }
    ensures is { number ≡ length (packets_in (take result.0 sent.now)) + result.1 + 1 }
{
    let mut end = count;
    for back in 0..sent.len() {
        let place = sent.len() - 1 - back;
        let first = end - u64::from(parts_of(&sent[place].message));
        if first < number {
            return (place, (number - 1 - first) as u32);
        }
        end = first;
    }
    unreachable!()
}
