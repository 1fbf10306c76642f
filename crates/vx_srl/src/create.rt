// The making of a log.
ghost use Rattle.std.specs.Prelude.{◌≡◌, ◌⊎◌, ◌+◌, ◌-◌, ◌<◌, ◌≤◌, ◌%◌, ℕ, true, Err, OnOk, IfOk};
ghost use Rattle.vx_disk.specs.Causes.{Works};
ghost use Rattle.vx_disk.specs.Moves.{Moves, Run, Anything};
ghost use Rattle.vx_model.specs.Sizes.{ring_of};
ghost use Rattle.vx_model.specs.declared.errors.Stop.TheVariants.{No as Refused};
ghost use Rattle.vx_model.specs.declared.no.No.TheVariants.{Size, Limit};
ghost use Rattle.vx_model.specs.declared.no.Counted.TheVariants.{Number};
ghost use Rattle.vx_ringio.specs.Classes.{is_of_ring};
ghost use Rattle.vx_disk.specs.Spends.{Spends};
ghost use Rattle.vx_ringio.specs.Tracks.{RingLies};
ghost use Rattle.vx_srl.specs.Causes.{CallsEnded};
ghost use Rattle.vx_srl.specs.Headers.{new_header};
ghost use Rattle.vx_srl.specs.Starts.{Makes, HasNewHeaders};
ghost use Rattle.vx_srl.specs.Views.{most_number};
ghost use Rattle.vx_srlfmt.specs.Headers.{CanSpellHeader, CanSpellState};

use crate::Srl;
use std::alloc::Global;
use std::collections::VecDeque;
use vx_disk::{Shelf, ShelfError, refusal};
use vx_model::limits::{LEAST_BLOCKS, LOG_HEADERS, MOST_LOG_BLOCKS, MOST_NUMBER};
use vx_model::{Counted, No, State, Stop, ring_blocks};
use vx_ringio::{blank_ring, write_header};
use vx_srlfmt::Header;

// The header of a new log, with this stamp.
fn new_header(state: &State, head: u64, stamp: u64) -> Header
    requires number { head < most_number }
    requires state { CanSpellState state.now }
    requires some { 1 ≤ stamp }
    requires few { stamp ≤ 2 }
    ensures is { result ≡ record (new_header state.now head) { stamp = stamp } }
    ensures spell { CanSpellHeader result }
    ensures of_ring { (ring : ℕ) → 0 < ring → is_of_ring ring result ≡ true }
{
    Header {
        stamp,
        state: state.copy(),
        incarnation: 1,
        floor: 0,
        run: 1,
        low: head + 1,
        place: 0,
        applied: head,
    }
}

// Zeros, and over them both headers.
fn write_new<S: Shelf>(
    shelf: &mut S,
    unit: u32,
    ring: u64,
    first: &Header,
    second: &Header,
) -> Result<(), ShelfError>
    requires lies { RingLies unit ring (S.meaning shelf.old) }
    requires some { 0 < ring }
    requires few { ring ≤ MOST_LOG_BLOCKS - LOG_HEADERS }
    requires spell { CanSpellHeader first.now }
    requires spell_second { CanSpellHeader second.now }
    requires of_ring { is_of_ring ring first.now ≡ true }
    requires second_of_ring { is_of_ring ring second.now ≡ true }
    ensures moves { Moves (Run unit 0 (ring + 2)) Anything (S.meaning shelf.old) (S.meaning shelf.new) }
    ensures written { OnOk result (HasNewHeaders unit ring first.now second.now (S.meaning shelf.old) (S.meaning shelf.new)) }
    ensures cause { CallsEnded (S.meaning shelf.old) (S.meaning shelf.new) result }
    ensures spends { Spends (S.meaning shelf.old) (S.meaning shelf.new) }
    ensures works { OnOk result (Works (S.meaning shelf.old).disks unit) }
{
    blank_ring(shelf, unit, ring)?;
    write_header(shelf, unit, ring, second)?;
    write_header(shelf, unit, ring, first)
}

impl Srl {
    /// Makes an empty log in a unit of at least 8 blocks, of which at most 65,536 are used: two for headers, and the others as a
    /// ring, which is written with zeros first. `head` is the number before its first record.
    ///
    /// Answers 4 exactly where the unit is smaller, then 19 exactly where no number is left, else 7, 6, or want of memory.
    pub fn create<S: Shelf>(
        alloc: Global,
        shelf: &mut S,
        unit: u32,
        state: &State,
        head: u64,
    ) -> Result<Srl, Stop>
        requires exists { unit < (S.meaning shelf.old).units }
        requires number { head ≤ most_number }
        requires state { CanSpellState state.now }
        ensures small { (S.meaning shelf.old).size unit < LEAST_BLOCKS → result ≡ Err (Refused Size) }
        ensures limit { LEAST_BLOCKS ≤ (S.meaning shelf.old).size unit → most_number ≤ head → result ≡ Err (Refused (Limit Number most_number)) }
        ensures unchanged { ((S.meaning shelf.old).size unit < LEAST_BLOCKS) ⊎ (most_number ≤ head) → shelf.new ≡ shelf.old }
        ensures makes { LEAST_BLOCKS ≤ (S.meaning shelf.old).size unit → head < most_number
            → Makes unit (ring_of ((S.meaning shelf.old).size unit)) head state.now (S.meaning shelf.old) (S.meaning shelf.new) result }
        ensures moves { Moves (Run unit 0 (ring_of ((S.meaning shelf.old).size unit) + 2)) Anything (S.meaning shelf.old) (S.meaning shelf.new) }
        ensures spends { Spends (S.meaning shelf.old) (S.meaning shelf.new) }
        ensures works { OnOk result (Works (S.meaning shelf.old).disks unit) }
    {
        let size = shelf.size(unit);
        if size < LEAST_BLOCKS {
            return Err(Stop::No(No::Size));
        }
        if head >= MOST_NUMBER {
            return Err(Stop::No(No::Limit {
                what: Counted::Number,
                most: MOST_NUMBER,
            }));
        }
        let ring = ring_blocks(size);
        let records = VecDeque::with_capacity(alloc, (ring as usize).div_ceil(2))?;
        let second = new_header(state, head, 1);
        let first = new_header(state, head, 2);
        if let Err(error) = write_new(shelf, unit, ring, &first, &second) {
            return Err(Stop::No(refusal(error)));
        }
        Ok(Srl::made(unit, ring, first, records, 0, 0))
    }
}
