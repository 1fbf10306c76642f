// The scan of a ring: the records that a start takes up.
ghost use Rattle.std.specs.Prelude.{◌≡◌, ◌↔◌, ◌+◌, ◌-◌, ◌*◌, ◌<◌, ◌≤◌, ◌%◌, ℕ, [], List, length, true, All, IsTrue, OnOk, IfOk, IfErr};
ghost use Rattle.std.specs.VecDeque.{deque_capacity};
ghost use Rattle.vx_disk.specs.Causes.{Cause};
ghost use Rattle.vx_disk.specs.Shelf.{Goes, Nothing};
ghost use Rattle.vx_ringio.specs.Bodies.{IsBlocks, all_blocks};
ghost use Rattle.vx_ringio.specs.Reading.{ReadsAs};
ghost use Rattle.vx_disk.specs.Spends.{Spends};
ghost use Rattle.vx_ringio.specs.Tracks.{RingLies};
ghost use Rattle.vx_ringlog.specs.Cells.{RingImage};
ghost use Rattle.vx_ringlog.specs.Chain.{HasBody, Scan, total};
ghost use Rattle.vx_ringlog.specs.Records.{Genuine, Record, era_of};
ghost use Rattle.vx_ringio.specs.Classes.{is_of_ring};
ghost use Rattle.vx_srl.specs.Causes.{CallsStopped};
ghost use Rattle.vx_srl.specs.Damages.{SeesFronts};
ghost use Rattle.vx_srl.specs.Kepts.{IsLogKept};
ghost use Rattle.vx_srl.specs.Rings.{heads_of, kept_heads};
ghost use Rattle.vx_srl.specs.Scans.{MayFollow, BodyShown, BodyStands, IsOf, IsShown, FindsByScan, StandsThere, TakenFits, Differ, Scans, AreChained, ScanCause};
ghost use Rattle.vx_srlfmt.specs.Headers.{CanSpellHeader};
ghost use Rattle.vx_srlfmt.specs.Kinds.{IsBody};
ghost use Rattle.vx_srlfmt.specs.Records.{CanSpellHead};

use crate::Kept;
use std::collections::VecDeque;
use vx_disk::{Shelf, ShelfError, refusal};
use vx_model::No;
use vx_model::limits::{BLOCK, LOG_HEADERS, MOST_CALL_BYTES, MOST_LOG_BLOCKS};
use vx_ringio::{Body, read_body, read_front, unmask_body};
use vx_srlfmt::{Header, RecordHead, Seen};

/// What stands at a place of the ring.
#[derive(Clone, Copy)]
pub(crate) enum Found {
    Taken(RecordHead),
    /// No record that is taken.
    End,
    /// A block whose digest, or whose body's, is not the one computed.
    Broken {
        block: u64,
        stored: [u8; 32],
        computed: [u8; 32],
    },
}

// Whether the header of a record is taken as this number, behind a record of incarnation `last`.
fn may_follow(header: &Header, number: u64, last: u64, head: &RecordHead) -> bool
    ensures { IsTrue result ↔ MayFollow (era_of header.now) number last head.now }
{
    head.number == number
        && head.run == header.run
        && head.line == header.state.line
        && last <= head.incarnation
        && head.incarnation <= header.incarnation
}

// Whether each block is one of a body.
fn is_body(bytes: &[u8]) -> bool
    requires { IsBlocks bytes.now }
    ensures { IsTrue result ↔ All IsBody (all_blocks bytes.now) }
{
    for k in 0..bytes.len() / BLOCK {
        let at = BLOCK * k;
        if bytes[at] != 0x42 {
            return false;
        }
    }
    true
}

// A record whose header is taken: its body is read, and its digest compared.
fn take<S: Shelf>(
    shelf: &mut S,
    unit: u32,
    ring: u64,
    place: u64,
    head: RecordHead,
) -> Result<Found, ShelfError>
    requires lies { RingLies unit ring (S.meaning shelf.old) }
    requires few { ring ≤ MOST_LOG_BLOCKS - LOG_HEADERS }
    requires place { place < ring }
    requires spell { CanSpellHead head }
    requires fits { head.count < ring }
    ensures has { IfOk result (λ found. (c : RingImage) (r : Record) → ReadsAs unit ring c (S.meaning shelf.old) → r.head ≡ head → Genuine r
        → HasBody ring c (place + 1) r.body → found ≡ Found.Taken head) }
    ensures stands { IfOk result (λ found. (c : RingImage) → ReadsAs unit ring c (S.meaning shelf.old) → BodyStands ring c (place + 1) found) }
    ensures taken { IfOk result (IsOf head) }
    ensures shown { IfOk result (λ found. IsTrue (S.meaning shelf.old).tells → BodyShown unit ring place head (S.meaning shelf.old) found) }
    ensures differ { IfOk result Differ }
    ensures goes { Goes Nothing (S.meaning shelf.old) (S.meaning shelf.new) }
    ensures spends { Spends (S.meaning shelf.old) (S.meaning shelf.new) }
    ensures cause { Cause (S.meaning shelf.old) (S.meaning shelf.new) unit result }
{
    let mut room = [0; MOST_CALL_BYTES];
    let bytes = &mut room[..BLOCK * head.count as usize];
    read_body(shelf, unit, ring, place + 1, bytes)?;
    if !is_body(bytes) {
        return Ok(Found::End);
    }
    match unmask_body(bytes, &head) {
        Body::Whole => Ok(Found::Taken(head)),
        Body::Differs { stored, computed } => {
            let block = 2 + (place + 1) % ring;
            Ok(Found::Broken {
                block,
                stored,
                computed,
            })
        }
    }
}

// What stands at a place, of which `left` blocks lie before the place of the first record.
fn look<S: Shelf>(
    shelf: &mut S,
    unit: u32,
    ring: u64,
    header: &Header,
    place: u64,
    number: u64,
    last: u64,
    left: u64,
) -> Result<Found, ShelfError>
    requires lies { RingLies unit ring (S.meaning shelf.old) }
    requires some { 0 < ring }
    requires few { ring ≤ MOST_LOG_BLOCKS - LOG_HEADERS }
    requires place { place < ring }
    requires left { left ≤ ring }
    ensures agrees { IfOk result (λ found. (c : RingImage) (rs : List Record) → ReadsAs unit ring c (S.meaning shelf.old)
        → Scan ring c (era_of header.now) place number last rs → total rs ≤ left → FindsByScan rs found) }
    ensures stands { IfOk result (λ found. (c : RingImage) → ReadsAs unit ring c (S.meaning shelf.old) → StandsThere ring c (era_of header.now) place number last found) }
    ensures fits { IfOk result (λ found. TakenFits left number found) }
    ensures shown { IfOk result (λ found. IsTrue (S.meaning shelf.old).tells → IsShown unit ring place (S.meaning shelf.old) found) }
    ensures differ { IfOk result Differ }
    ensures goes { Goes Nothing (S.meaning shelf.old) (S.meaning shelf.new) }
    ensures spends { Spends (S.meaning shelf.old) (S.meaning shelf.new) }
    ensures cause { Cause (S.meaning shelf.old) (S.meaning shelf.new) unit result }
{
    let head = match read_front(shelf, unit, ring, place)? {
        Seen::Record(head) => head,
        Seen::Damaged { stored, computed } => {
            let block = 2 + place % ring;
            return Ok(Found::Broken {
                block,
                stored,
                computed,
            });
        }
        Seen::Other => return Ok(Found::End),
    };
    if !may_follow(header, number, last, &head) || head.count as u64 >= left {
        return Ok(Found::End);
    }
    take(shelf, unit, ring, place, head)
}

/// The place behind the records that a scan took, and the blocks that they take.
#[derive(Clone, Copy)]
pub(crate) struct Scanned {
    pub end: u32,
    pub used: u64,
}

/// Takes up the records behind a header, each by its number, run, line, incarnation and digest, up to the first block that is none.
pub(crate) fn scan<S: Shelf>(
    shelf: &mut S,
    unit: u32,
    ring: u64,
    header: &Header,
    records: &mut VecDeque<Kept>,
) -> Result<Scanned, No>
    requires lies { RingLies unit ring (S.meaning shelf.old) }
    requires some { 6 ≤ ring }
    requires few { ring ≤ MOST_LOG_BLOCKS - LOG_HEADERS }
    requires spell { CanSpellHeader header.now }
    requires of_ring { is_of_ring ring header.now ≡ true }
    requires none { records.old.items ≡ [] }
    requires room { ring ≤ 2 * deque_capacity records.old }
    ensures kept { IfOk result (λ scanned. IsLogKept ring header.now records.new.items (deque_capacity records.new) (length records.new.items) scanned.end scanned.used) }
    ensures finds { (rs : List Record) → Scans unit ring header.now rs (S.meaning shelf.old) → OnOk result (kept_heads records.new.items ≡ heads_of rs) }
    ensures takes { OnOk result (AreChained unit ring header.now records.new.items (S.meaning shelf.old)) }
    ensures fronts { OnOk result (IsTrue (S.meaning shelf.old).tells → SeesFronts unit ring records.new.items (S.meaning shelf.old)) }
    ensures goes { Goes Nothing (S.meaning shelf.old) (S.meaning shelf.new) }
    ensures spends { Spends (S.meaning shelf.old) (S.meaning shelf.new) }
    ensures cause { IfErr result (λ why. ScanCause unit ring header.now (S.meaning shelf.old) (S.meaning shelf.new) why) }
{
    let mut place = header.place as u64;
    let mut last = header.floor;
    let mut left = ring;
    for _ in 0..ring {
        let number = header.low + records.len() as u64;
        match look(shelf, unit, ring, header, place, number, last, left) {
            Err(error) => return Err(refusal(error)),
            Ok(Found::End) => break,
            Ok(
                Found::Broken {
                    block,
                    stored,
                    computed,
                },
            ) => {
                return Err(No::Damaged {
                    unit,
                    block,
                    stored,
                    computed,
                });
            }
            Ok(Found::Taken(head)) => {
                records.push_back_reserved(Kept {
                    place: place as u32,
                    head,
                });
                let width = head.count as u64 + 1;
                place = (place + width) % ring;
                left -= width;
                last = head.incarnation;
            }
        }
    }
    Ok(Scanned {
        end: place as u32,
        used: ring - left,
    })
}
