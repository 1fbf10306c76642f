// Packets that were sent, and writes that sites receive.
ghost use Rattle.std.specs.Prelude.{◌≡◌, ◌<◌, length, MatchOption, None, Some, IfOk, OnOk};
ghost use Rattle.vx_history.specs.World.{with_node};
ghost use Rattle.vx_history.specs.Sends.{sending, greeting};
ghost use Rattle.vx_history.specs.Events.{packet_at, with_write};
ghost use Rattle.vx_sites.specs.Shapes.{world_of, packet_of};

use crate::{Dispatch, Message, Packet, World, Write};
use vx_model::OutOfMemory;
use vx_model::limits::MOST_PACKETS;

impl World {
    /// The packet of this number, the first of which is number 1, among the newest that are kept. A number that is not kept takes no memory.
    pub fn packet(&self, number: u64) -> Result<Option<Packet>, OutOfMemory>
        ensures found { IfOk result (λ packet. let found = packet_at (world_of self.now).packets number in MatchOption packet (found ≡ None) (λ p. found ≡ Some (packet_of p))) }
        ensures unknown { packet_at (world_of self.now).packets number ≡ None → result ≡ Ok None }
    {
        let sent = self.packets.len();
        if number == 0 || sent < number || MOST_PACKETS as u64 <= sent - number {
            return Ok(None);
        }
        let packet = self.packets.packet(self.alloc, number)?;
        Ok(Some(packet))
    }

    /// The site receives a write from the source, which waits.
    pub fn receive(&mut self, site: u32, source: u32, write: Write) -> Result<(), OutOfMemory>
        requires { site < length self.old.nodes.items }
        ensures { OnOk result (let w = world_of self.old in world_of self.new ≡ with_node w site (with_write (w.nodes site) source write)) }
    {
        let node = &mut self.nodes[site as usize];
        node.log.push(write)?;
        node.fed_by = source;
        Ok(())
    }

    /// The source greets the target.
    pub fn greet(&mut self, source: u32, target: u32) -> Result<(), OutOfMemory>
        requires { source < length self.old.nodes.items }
        ensures { OnOk result (let w = world_of self.old in world_of self.new ≡ sending w (greeting source target (w.nodes source))) }
    {
        let node = &self.nodes[source as usize];
        let hello = Dispatch {
            source,
            target,
            line: node.line,
            message: Message::Hello {
                session: node.session,
                number: node.log.len() as u64,
                stored: node.safe,
            },
        };
        self.send(hello)
    }
}
