// The packets of a run, in memory.
ghost use Rattle.std.specs.Prelude.{◌≡◌, ◌≤◌, ◌<◌, IfOk};
ghost use Rattle.vx_net.specs.Flights.{nothing_sent};

use crate::Net;
use crate::packet::Packet;
use circular_buffer::HeapCircularBuffer;
use std::alloc::Global;
use std::marker::Model;
use vx_model::OutOfMemory;
use vx_model::limits::{MOST_NUMBER, MOST_PACKETS};

/// The newest 65,536 packets under their numbers.
#[derive(Drop)]
pub struct Flight {
    count: u64,
    packets: HeapCircularBuffer<Packet>,
}

impl Model for Flight {
    ghost use Rattle.std.specs.Prelude.{◌≡◌};
    ghost use Rattle.vx_net.specs.Flights.{Flying, IsFullNet, most_kept};

    ghost Value = { Flying };

    ghost view = { λ f. record { count = f.count; kept = f.packets.items } };

    ghost invariant = { λ f. (f.packets.capacity ≡ most_kept) × IsFullNet (record { count = f.count; kept = f.packets.items }) };
}

impl Flight {
    /// No packets, and room for 65,536.
    pub fn new(alloc: Global) -> Result<Flight, OutOfMemory>
        ensures { IfOk result (λ f. f ≡ nothing_sent) }
    {
        let packets = HeapCircularBuffer::with_capacity(alloc, MOST_PACKETS)?;
        Ok(Flight { count: 0, packets })
    }
}

impl Net for Flight {
    ghost flying = { λ f. f };

    fn send(&mut self, bytes: &[u8]) -> u64 {
        if self.count < MOST_NUMBER {
            drop(self.packets.push_back(Packet::new(bytes)));
            self.count += 1;
        }
        self.count
    }

    fn count(&self) -> u64 {
        self.count
    }

    fn first(&self) -> u64 {
        self.count + 1 - self.packets.len() as u64
    }

    fn get(&self, k: u64) -> Option<&[u8]> {
        let first = self.first();
        if k < first {
            return None;
        }
        let packet = self.packets.get((k - first) as usize)?;
        Some(packet.as_slice())
    }
}
