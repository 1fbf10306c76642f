// A log, and what it tells of itself.
ghost use Rattle.std.specs.Prelude.{◌≡◌, ◌+◌, ◌<◌, ◌≤◌, [], length};
ghost use Rattle.std.specs.VecDeque.{deque_capacity};
ghost use Rattle.vx_srl.specs.Kepts.{IsLogKept};
ghost use Rattle.vx_srl.specs.Views.{IsOrdered, IsFront, free_of, head_number, next_of, blocks_above, all_of, most_number};
ghost use Rattle.vx_srlfmt.specs.Headers.{CanSpellState};

use crate::Kept;
use std::collections::VecDeque;
use std::marker::Model;
use vx_model::State;
use vx_srlfmt::{Header, RecordHead};

/// A log in one unit of a shelf. The shelf is handed to each call.
#[derive(Drop)]
pub struct Srl {
    pub(crate) unit: u32,
    pub(crate) ring: u64,
    pub(crate) header: Header,
    // What is held, and behind it what is staged.
    pub(crate) records: VecDeque<Kept>,
    pub(crate) sealed: usize,
    // The place of the next record, and the blocks that all of them take.
    pub(crate) end: u32,
    pub(crate) used: u64,
}

impl Model for Srl {
    ghost use Rattle.std.specs.Prelude.{take, drop};
    ghost use Rattle.std.specs.VecDeque.{deque_capacity};
    ghost use Rattle.vx_srl.specs.Kepts.{IsLogKept};
    ghost use Rattle.vx_srl.specs.Views.{Log};

    ghost Value = { Log };

    ghost view = { λ s. record { unit = s.unit; ring = s.ring; header = s.header; held = take s.sealed s.records.items; staged = drop s.sealed s.records.items } };

    ghost invariant = { λ s. IsLogKept s.ring s.header s.records.items (deque_capacity s.records) s.sealed s.end s.used };
}

impl Srl {
    /// A log of which nothing is staged.
    pub(crate) fn made(
        unit: u32,
        ring: u64,
        header: Header,
        records: VecDeque<Kept>,
        end: u32,
        used: u64,
    ) -> Srl
        requires { IsLogKept ring header records.items (deque_capacity records) (length records.items) end used }
        ensures { result ≡ record { unit = unit; ring = ring; header = header; held = records.items; staged = [] } }
    {
        let sealed = records.len();
        Srl {
            unit,
            ring,
            header,
            records,
            sealed,
            end,
            used,
        }
    }

    /// The blocks of the ring that no record takes, held or staged.
    pub fn free(&self) -> u64
        ensures { result ≡ free_of self.now }
    {
        self.ring - self.used
    }

    /// The unit that it lies in.
    pub fn unit(&self) -> u32
        ensures { result ≡ self.now.unit }
    {
        self.unit
    }

    /// The blocks of the unit that hold records.
    pub fn ring(&self) -> u64
        ensures is { result ≡ self.now.ring }
        ensures ordered { IsOrdered self.now.ring self.now.header (all_of self.now) }
    {
        self.ring
    }

    /// The lowest number that is held, or would be. Each run of the log began with a header.
    pub fn low(&self) -> u64
        ensures is { result ≡ self.now.header.low }
        ensures some { 0 < self.now.header.low }
        ensures run { self.now.header.run ≤ self.now.header.stamp }
    {
        self.header.low
    }

    /// The number of the last record that is part of the log.
    pub fn head(&self) -> u64
        ensures { result ≡ head_number self.now }
    {
        self.header.low + self.sealed as u64 - 1
    }

    /// The number of the next record, behind what is staged.
    pub fn next(&self) -> u64
        ensures { result ≡ next_of self.now }
    {
        self.header.low + self.records.len() as u64
    }

    /// How often the log was started, its making counted.
    pub fn session(&self) -> u64
        ensures is { result ≡ self.now.header.incarnation }
        ensures few { result ≤ most_number }
    {
        self.header.incarnation
    }

    /// What the log keeps of its site.
    pub fn state(&self) -> &State
        ensures is { result.now ≡ self.now.header.state }
        ensures spelled { CanSpellState result.now }
    {
        &self.header.state
    }

    /// What stands before the blocks of a number that is held.
    pub fn front(&self, n: u64) -> &RecordHead
        requires low { self.now.header.low ≤ n }
        requires held { n ≤ head_number self.now }
        ensures { IsFront self.now n result.now }
    {
        &self.records[(n - self.header.low) as usize].head
    }

    /// The blocks that the numbers above one take, those that are staged included.
    pub fn used(&self, above: u64) -> u64
        requires low { self.now.header.low ≤ above + 1 }
        requires known { above < next_of self.now }
        ensures { result ≡ blocks_above self.now above }
    {
        let low = self.header.low;
        let gone = (above + 1 - low) as usize;
        if gone == self.records.len() {
            return 0;
        }
        let place = self.records[gone].place as u64;
        let before = (place + self.ring - self.header.place as u64) % self.ring;
        self.used - before
    }
}
