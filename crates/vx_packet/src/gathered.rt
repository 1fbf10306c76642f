// The parts of one message that have come.
ghost use Rattle.std.specs.Prelude.{◌≡◌, ℕ, List, ◌+◌, ◌*◌, ◌<◌, ◌≤◌, false, true, [], set, replicate, length, take, Some, None, IfOk, MatchOption};
ghost use Rattle.std.specs.List.{list_all};
ghost use Rattle.std.specs.Option.{is_some};
ghost use Rattle.vx_packet.specs.Gathering.{all_parts_came, parts_came, joined_parts, kept_payload, AreFull, whole_length};

use std::alloc::Global;
use std::marker::Model;
use vx_model::OutOfMemory;
use vx_model::limits::PART_BYTES;
use vx_wire::put_bytes;

// So many parts a packet can tell of, and so many a message has at most.
const MOST_TOLD: usize = 65535;

const MOST_PARTS: usize = 65;

/// The parts of one message that have come, in room for the longest. Contracts see of each part its payload, where it has
/// come.
#[derive(Drop)]
pub struct Gathered {
    // In how many parts the message goes.
    count: usize,
    // The length of each part that has come.
    lengths: Vec<Option<u16>>,
    // The payloads, each in its place of 1,024 bytes.
    buffer: Vec<u8>,
}

impl Model for Gathered {
    ghost use Rattle.std.specs.Prelude.{take};
    ghost use Rattle.vx_packet.specs.Gathering.{Parts, parts_came, IsGathered};

    ghost Value = { Parts };

    ghost view = { λ g. parts_came (take g.count g.lengths.items) g.buffer.items };

    ghost invariant = { λ g. IsGathered g.count g.lengths.items g.buffer.items };
}

// Marks parts as ones that have not come.
fn reset(lengths: &mut [Option<u16>])
    ensures { lengths.new ≡ replicate (length lengths.old) None }
{
    lengths.fill(None);
}

// Marks the first so many parts as ones that have not come.
fn clear(lengths: &mut [Option<u16>], count: usize)
    requires { count ≤ length lengths.old }
    ensures none { (buffer : List ℕ) → parts_came (take count lengths.new) buffer ≡ replicate count None }
    ensures full { AreFull (take count lengths.new) }
    ensures told { length lengths.new ≡ length lengths.old }
{
    reset(&mut lengths[..count]);
}

// Keeps a part of so many.
fn keep(lengths: &mut [Option<u16>], count: usize, buffer: &mut [u8], part: usize, payload: &[u8])
    requires part { part < count }
    requires count { count ≤ length lengths.old }
    requires few { length payload.now ≤ PART_BYTES }
    requires whole { part + 1 < count → length payload.now ≡ PART_BYTES }
    requires room { length buffer.old ≡ 66560 }
    ensures came { parts_came (take count lengths.new) buffer.new ≡ set (parts_came (take count lengths.old) buffer.old) part (Some (kept_payload part payload.now)) }
    ensures full { AreFull (take count lengths.old) → AreFull (take count lengths.new) }
    ensures told { length lengths.new ≡ length lengths.old }
    ensures room { length buffer.new ≡ length buffer.old }
{
    lengths[part] = Some(payload.len() as u16);
    if part < MOST_PARTS {
        put_bytes(buffer, PART_BYTES * part, payload);
    }
}

// Whether every part has come.
fn is_whole(lengths: &[Option<u16>]) -> bool
    ensures { result ≡ list_all is_some lengths.now }
{
    lengths.iter().all(|length| length.is_some())
}

// How many bytes the payloads are together, where every part has come.
fn total(lengths: &[Option<u16>]) -> usize
    requires some { 0 < length lengths.now }
    requires few { length lengths.now ≤ 65535 }
    ensures { result ≡ whole_length lengths.now }
{
    let last = lengths.len() - 1;
    PART_BYTES * last + lengths[last].unwrap_or(0) as usize
}

impl Gathered {
    /// Room for a message, and no part of one.
    pub fn new(alloc: Global) -> Result<Gathered, OutOfMemory>
        ensures { IfOk result (λ g. g ≡ []) }
    {
        Ok(Gathered {
            count: 0,
            lengths: vec![in alloc; None; MOST_TOLD]?,
            buffer: vec![in alloc; 0; PART_BYTES * MOST_PARTS]?,
        })
    }

    /// No part of a message that goes in so many.
    pub fn begin(&mut self, parts: u16)
        ensures { self.new ≡ replicate parts None }
    {
        let count = parts as usize;
        clear(&mut self.lengths, count);
        self.count = count;
    }

    /// Takes a part, in place of an earlier one.
    pub fn put(&mut self, part: u16, payload: &[u8])
        requires part { part < length self.old }
        requires few { length payload.now ≤ PART_BYTES }
        requires whole { part + 1 < length self.old → length payload.now ≡ PART_BYTES }
        ensures { self.new ≡ set self.old part (Some (kept_payload part payload.now)) }
    {
        keep(
            &mut self.lengths,
            self.count,
            &mut self.buffer,
            part as usize,
            payload,
        );
    }

    /// The payloads one after the other, where every part has come.
    pub fn payload(&self) -> Option<&[u8]>
        requires { 0 < length self.now }
        ensures { MatchOption result (all_parts_came self.now ≡ false) (λ bytes. (all_parts_came self.now ≡ true) × (bytes.now ≡ joined_parts self.now)) }
    {
        let lengths = &self.lengths[..self.count];
        if !is_whole(lengths) {
            return None;
        }
        Some(&self.buffer[..total(lengths).min(self.buffer.len())])
    }
}
