// The start of a log from what stands on its unit.
ghost use Rattle.std.specs.Prelude.{◌≡◌, ◌⊎◌, ◌+◌, ◌-◌, ◌<◌, ◌≤◌, ◌%◌, ℕ, List, true, IsTrue, IfOk, IfErr, OnOk};
ghost use Rattle.vx_disk.specs.Causes.{Works};
ghost use Rattle.vx_disk.specs.Moves.{Anything, Moves, Run};
ghost use Rattle.vx_disk.specs.Shelf.{Goes, Nothing};
ghost use Rattle.vx_model.specs.Sizes.{ring_of};
ghost use Rattle.vx_ringio.specs.Classes.{is_of_ring};
ghost use Rattle.vx_ringio.specs.Reading.{IsTopSeen, DigestsDiffer};
ghost use Rattle.vx_disk.specs.Spends.{Spends};
ghost use Rattle.vx_ringio.specs.Tracks.{RingLies, Follows, Arrives};
ghost use Rattle.vx_ringlog.specs.Acts.{head_acts};
ghost use Rattle.vx_srl.specs.Causes.{CallsStopped};
ghost use Rattle.vx_srl.specs.Headers.{raised};
ghost use Rattle.vx_srl.specs.Standings.{IsPicked, IsStanding, StandingCause, TakeOverCause, taken_over, taking_over, first_step_of};
ghost use Rattle.vx_srl.specs.Starts.{ReadsAtLimit, Restarting, StartInIs, StartIs, StopReadsAtLimit};
ghost use Rattle.vx_srl.specs.Views.{most_number};
ghost use Rattle.vx_srlfmt.specs.Headers.{CanSpellHeader};

use crate::scan::scan;
use crate::{Kept, Srl};
use std::alloc::Global;
use std::collections::VecDeque;
use std::marker::Model;
use vx_disk::{Shelf, ShelfError, refusal};
use vx_model::limits::{LEAST_BLOCKS, MOST_NUMBER};
use vx_model::{Counted, No, OutOfMemory, Stop, ring_blocks};
use vx_ringio::{TopSeen, read_top, write_header};
use vx_srlfmt::Header;

/// The header that counts, and its block.
#[derive(Drop)]
pub(crate) struct Standing {
    pub header: Header,
    pub block: u64,
}

/// What both header blocks are.
#[derive(Drop)]
pub(crate) enum Picked {
    Stands(Standing),
    /// Neither is a header, and the lower one that is broken has these digests.
    Broken {
        block: u64,
        stored: [u8; 32],
        computed: [u8; 32],
    },
    Nothing,
}

// The header of block 0, unless the other one has a stamp as great.
fn pick(first: TopSeen, second: TopSeen) -> Picked
    ensures { IsPicked first second result }
{
    match (first, second) {
        (TopSeen::Valid(one), TopSeen::Valid(two)) => {
            if two.stamp < one.stamp {
                Picked::Stands(Standing {
                    header: one,
                    block: 0,
                })
            } else {
                Picked::Stands(Standing {
                    header: two,
                    block: 1,
                })
            }
        }
        (TopSeen::Valid(header), _) => Picked::Stands(Standing { header, block: 0 }),
        (_, TopSeen::Valid(header)) => Picked::Stands(Standing { header, block: 1 }),
        (TopSeen::Broken { stored, computed }, _) => Picked::Broken {
            block: 0,
            stored,
            computed,
        },
        (_, TopSeen::Broken { stored, computed }) => Picked::Broken {
            block: 1,
            stored,
            computed,
        },
        (TopSeen::Other, TopSeen::Other) => Picked::Nothing,
    }
}

// The header that counts.
fn find_header<S: Shelf>(shelf: &mut S, unit: u32, ring: u64) -> Result<Standing, No>
    requires lies { RingLies unit ring (S.meaning shelf.old) }
    ensures found { IfOk result (λ standing. IsStanding unit ring standing (S.meaning shelf.old)) }
    ensures goes { Goes Nothing (S.meaning shelf.old) (S.meaning shelf.new) }
    ensures spends { Spends (S.meaning shelf.old) (S.meaning shelf.new) }
    ensures up { OnOk result (IsTrue (S.meaning shelf.new).down → ⊥) }
    ensures cause { IfErr result (λ why. StandingCause unit ring (S.meaning shelf.old) (S.meaning shelf.new) why) }
    ensures works { OnOk result (Works (S.meaning shelf.old).disks unit) }
{
    let first = match read_top(shelf, unit, ring, 0) {
        Ok(top) => top,
        Err(error) => return Err(refusal(error)),
    };
    let second = match read_top(shelf, unit, ring, 1) {
        Ok(top) => top,
        Err(error) => return Err(refusal(error)),
    };
    match pick(first, second) {
        Picked::Stands(standing) => Ok(standing),
        Picked::Broken {
            block,
            stored,
            computed,
        } => Err(No::Damaged {
            unit,
            block,
            stored,
            computed,
        }),
        Picked::Nothing => Err(No::NoConfig),
    }
}

// The header that a start writes: of the next incarnation, with a stamp that is so much greater.
fn raise(header: &Header, by: u64) -> Header
    requires stamp { header.now.stamp + by ≤ most_number }
    requires incarnation { header.now.incarnation < most_number }
    requires spell { CanSpellHeader header.now }
    ensures is { result ≡ raised header.now by }
    ensures spell { CanSpellHeader result }
    ensures of_ring { (ring : ℕ) → is_of_ring ring header.now ≡ true → is_of_ring ring result ≡ true }
{
    Header {
        stamp: header.stamp + by,
        state: header.state.copy(),
        incarnation: header.incarnation + 1,
        floor: header.floor,
        run: header.run,
        low: header.low,
        place: header.place,
        applied: header.applied,
    }
}

// By how much the stamp of the first header that a start writes is greater, so that it does not stand over the one that counts.
fn first_step(stamp: u64, block: u64) -> u64
    requires block { block < 2 }
    ensures is { result ≡ first_step_of stamp block }
    ensures other { (stamp + result) % 2 ≡ 1 - block }
{
    if stamp % 2 == block { 1 } else { 2 }
}

// Writes both headers, each of the next incarnation, first over the one that does not count. Gives the second.
fn take_over<S: Shelf>(
    shelf: &mut S,
    unit: u32,
    ring: u64,
    standing: &Standing,
) -> Result<Header, No>
    requires lies { RingLies unit ring (S.meaning shelf.old) }
    requires block { standing.now.block < 2 }
    requires spell { CanSpellHeader standing.now.header }
    requires of_ring { is_of_ring ring standing.now.header ≡ true }
    ensures header { IfOk result (λ header. header ≡ taken_over standing.now) }
    ensures spell { IfOk result CanSpellHeader }
    ensures of_ring { IfOk result (λ header. is_of_ring ring header ≡ true) }
    ensures follows { Follows unit ring (taking_over standing.now) (S.meaning shelf.old) (S.meaning shelf.new) }
    ensures arrives { OnOk result (Arrives unit ring (taking_over standing.now) (S.meaning shelf.old) (S.meaning shelf.new)) }
    ensures aside { Moves (Run unit 0 2) Anything (S.meaning shelf.old) (S.meaning shelf.new) }
    ensures up { OnOk result (IsTrue (S.meaning shelf.new).down → ⊥) }
    ensures cause { IfErr result (λ why. TakeOverCause standing.now.header (S.meaning shelf.old) (S.meaning shelf.new) why) }
    ensures limit { IfErr result (λ why. ReadsAtLimit (S.meaning shelf.old) (S.meaning shelf.new) why) }
    ensures spends { Spends (S.meaning shelf.old) (S.meaning shelf.new) }
{
    let header = &standing.header;
    if header.stamp > MOST_NUMBER - 3 || header.incarnation >= MOST_NUMBER {
        return Err(No::Limit {
            what: Counted::Number,
            most: MOST_NUMBER,
        });
    }
    let step = first_step(header.stamp, standing.block);
    let raised = raise(header, step);
    if let Err(error) = write_header(shelf, unit, ring, &raised) {
        return Err(refusal(error));
    }
    let again = raise(header, step + 1);
    if let Err(error) = write_header(shelf, unit, ring, &again) {
        return Err(refusal(error));
    }
    Ok(again)
}

/// Memory for the start of a log: for as many records as its ring may have.
#[derive(Drop)]
pub struct LogRoom {
    ring: u64,
    records: VecDeque<Kept>,
}

impl Model for LogRoom {
    ghost use Rattle.std.specs.VecDeque.{deque_capacity};
    ghost use Rattle.vx_srl.specs.Kepts.{IsEmptyRoom};
    ghost use Rattle.vx_srl.specs.Starts.{LogSpace};

    ghost Value = { LogSpace };

    ghost view = { λ r. record { ring = r.ring } };

    ghost invariant = { λ r. IsEmptyRoom r.ring r.records.items (deque_capacity r.records) };
}

impl LogRoom {
    /// For a log in a unit of so many blocks.
    pub fn new(alloc: Global, blocks: u64) -> Result<LogRoom, OutOfMemory>
        requires { LEAST_BLOCKS ≤ blocks }
        ensures { IfOk result (λ room. room.ring ≡ ring_of blocks) }
    {
        let ring = ring_blocks(blocks);
        let records = VecDeque::with_capacity(alloc, (ring as usize).div_ceil(2))?;
        Ok(LogRoom { ring, records })
    }
}

impl Srl {
    /// Starts the log that stands on a unit of at least 8 blocks, with memory taken before: it takes up the records that were sealed, or
    /// a first part of those that were being sealed, and raises its incarnation, durably, before anything can be staged. Both header
    /// blocks are written.
    ///
    /// Refusals: 9 where neither header block is a header of the log, or 22 for the lower one whose digest differs; 22 for a record
    /// whose header or body has another digest; 19 where no stamp or incarnation is left, which changes nothing; 7 and 6. Of the
    /// blocks of a log nothing changes but its headers.
    pub fn start_in<S: Shelf>(room: LogRoom, shelf: &mut S, unit: u32) -> Result<Srl, No>
        requires exists { unit < (S.meaning shelf.old).units }
        requires large { LEAST_BLOCKS ≤ (S.meaning shelf.old).size unit }
        requires room { room.ring ≡ ring_of ((S.meaning shelf.old).size unit) }
        ensures starts { StartInIs unit (ring_of ((S.meaning shelf.old).size unit)) (S.meaning shelf.old) (S.meaning shelf.new) result }
        ensures limit { IfErr result (λ why. ReadsAtLimit (S.meaning shelf.old) (S.meaning shelf.new) why) }
        ensures moves { Moves (Run unit 0 (ring_of ((S.meaning shelf.old).size unit) + 2)) (Restarting unit (ring_of ((S.meaning shelf.old).size unit)) (S.meaning shelf.old)) (S.meaning shelf.old) (S.meaning shelf.new) }
        ensures spends { Spends (S.meaning shelf.old) (S.meaning shelf.new) }
        ensures works { OnOk result (Works (S.meaning shelf.old).disks unit) }
    {
        let LogRoom { ring, mut records } = room;
        let standing = match find_header(shelf, unit, ring) {
            Ok(standing) => standing,
            Err(no) => return Err(no),
        };
        let scanned = match scan(shelf, unit, ring, &standing.header, &mut records) {
            Ok(scanned) => scanned,
            Err(no) => return Err(no),
        };
        match take_over(shelf, unit, ring, &standing) {
            Ok(header) => Ok(Srl::made(unit, ring, header, records, scanned.end, scanned.used)),
            Err(no) => Err(no),
        }
    }

    /// The same, or want of memory, which changes nothing.
    pub fn start<S: Shelf>(alloc: Global, shelf: &mut S, unit: u32) -> Result<Srl, Stop>
        requires exists { unit < (S.meaning shelf.old).units }
        requires large { LEAST_BLOCKS ≤ (S.meaning shelf.old).size unit }
        ensures starts { StartIs unit (ring_of ((S.meaning shelf.old).size unit)) (S.meaning shelf.old) (S.meaning shelf.new) result }
        ensures limit { IfErr result (λ stop. StopReadsAtLimit (S.meaning shelf.old) (S.meaning shelf.new) stop) }
        ensures moves { Moves (Run unit 0 (ring_of ((S.meaning shelf.old).size unit) + 2)) (Restarting unit (ring_of ((S.meaning shelf.old).size unit)) (S.meaning shelf.old)) (S.meaning shelf.old) (S.meaning shelf.new) }
        ensures spends { Spends (S.meaning shelf.old) (S.meaning shelf.new) }
        ensures works { OnOk result (Works (S.meaning shelf.old).disks unit) }
    {
        let Ok(room) = LogRoom::new(alloc, shelf.size(unit)) else {
            return Err(Stop::OutOfMemory);
        };
        match Srl::start_in(room, shelf, unit) {
            Ok(srl) => Ok(srl),
            Err(no) => Err(Stop::No(no)),
        }
    }
}
