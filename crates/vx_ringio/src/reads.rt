// The reads of a log.
ghost use Rattle.std.specs.Prelude.{◌≡◌, ◌+◌, ◌*◌, ◌/◌, ◌%◌, ◌<◌, ◌≤◌, ℕ, length, IsTrue, OnOk, IfOk};
ghost use Rattle.vx_disk.specs.Causes.{Cause, Names, OnDisks, Works};
ghost use Rattle.vx_disk.specs.Disks.{Untouched};
ghost use Rattle.vx_disk.specs.Shelf.{Goes, Nothing};
ghost use Rattle.vx_ringio.specs.Bodies.{IsBlocks, all_blocks};
ghost use Rattle.vx_ringio.specs.Reading.{ReadsAs, IsTopSeen, SeesFront, SeesTop, DigestsDiffer, TopIsOfRing, ShowsFront, FrontDigestsDiffer, FrontCanSpell, GaveBlocks, ShowsBlocks};
ghost use Rattle.vx_disk.specs.Spends.{Spends};
ghost use Rattle.vx_ringio.specs.Tracks.{RingLies};
ghost use Rattle.vx_ringlog.specs.Cells.{RingImage};
ghost use Rattle.vx_ringlog.specs.Chain.{block as block_of_place};

use crate::TopSeen;
use vx_disk::{Shelf, ShelfError};
use vx_model::limits::BLOCK;
use vx_srlfmt::{HEADER_MAGIC, Seen, get_header, get_record};
use vx_wire::{broken_seal, get_u64};

// What a block is as a header of a ring of so many blocks.
fn top_of(ring: u64, block: &[u8; BLOCK]) -> TopSeen
    ensures is { IsTopSeen ring block.now result }
    ensures differ { DigestsDiffer result }
    ensures of_ring { TopIsOfRing ring result }
{
    if let Some(header) = get_header(block) {
        if (header.place as u64) < ring && header.low > 0 && header.run <= header.stamp {
            return TopSeen::Valid(header);
        }
        return TopSeen::Other;
    }
    if get_u64(block, 0) != HEADER_MAGIC {
        return TopSeen::Other;
    }
    match broken_seal(block) {
        Some(broken) => {
            let (stored, computed) = (broken.stored, broken.computed);
            TopSeen::Broken { stored, computed }
        }
        None => TopSeen::Other,
    }
}

/// Reads header block 0 or 1 of the log.
pub fn read_top<S: Shelf>(
    shelf: &mut S,
    unit: u32,
    ring: u64,
    block: u64,
) -> Result<TopSeen, ShelfError>
    requires lies { RingLies unit ring (S.meaning shelf.old) }
    requires header { block < 2 }
    ensures sees { IfOk result (λ seen. IsTrue (S.meaning shelf.old).tells → SeesTop unit ring block (S.meaning shelf.old) seen) }
    ensures differ { IfOk result DigestsDiffer }
    ensures of_ring { IfOk result (TopIsOfRing ring) }
    ensures goes { Goes Nothing (S.meaning shelf.old) (S.meaning shelf.new) }
    ensures spends { Spends (S.meaning shelf.old) (S.meaning shelf.new) }
    ensures cause { Cause (S.meaning shelf.old) (S.meaning shelf.new) unit result }
    ensures works { OnOk result (Works (S.meaning shelf.old).disks unit) }
{
    let mut bytes = [0; BLOCK];
    shelf.read(unit, block, &mut bytes)?;
    Ok(top_of(ring, &bytes))
}

/// Reads the block of a place as the header of a record.
pub fn read_front<S: Shelf>(
    shelf: &mut S,
    unit: u32,
    ring: u64,
    place: u64,
) -> Result<Seen, ShelfError>
    requires lies { RingLies unit ring (S.meaning shelf.old) }
    requires some { 0 < ring }
    requires few { ring ≤ 65534 }
    ensures shows { IfOk result (λ seen. (c : RingImage) → ReadsAs unit ring c (S.meaning shelf.old) → ShowsFront seen (c (block_of_place ring place))) }
    ensures sees { IfOk result (λ seen. IsTrue (S.meaning shelf.old).tells → SeesFront unit (block_of_place ring place) (S.meaning shelf.old) seen) }
    ensures differ { IfOk result FrontDigestsDiffer }
    ensures spell { IfOk result FrontCanSpell }
    ensures goes { Goes Nothing (S.meaning shelf.old) (S.meaning shelf.new) }
    ensures spends { Spends (S.meaning shelf.old) (S.meaning shelf.new) }
    ensures cause { Cause (S.meaning shelf.old) (S.meaning shelf.new) unit result }
{
    let mut bytes = [0; BLOCK];
    shelf.read(unit, 2 + place % ring, &mut bytes)?;
    Ok(get_record(&bytes))
}

// Reads body blocks from a place within the ring on, of which none passes the ring's end.
fn read_part<S: Shelf>(
    shelf: &mut S,
    unit: u32,
    ring: u64,
    first: u64,
    into: &mut [u8],
) -> Result<(), ShelfError>
    requires lies { RingLies unit ring (S.meaning shelf.old) }
    requires few { ring ≤ 65534 }
    requires blocks { IsBlocks into.old }
    requires room { first + length into.old / BLOCK ≤ ring }
    ensures shows { OnOk result ((c : RingImage) → ReadsAs unit ring c (S.meaning shelf.old) → ShowsBlocks ring c first (all_blocks into.new)) }
    ensures gave { OnOk result (IsTrue (S.meaning shelf.old).tells → GaveBlocks unit ring (S.meaning shelf.old) first (all_blocks into.new)) }
    ensures size { length into.new ≡ length into.old }
    ensures goes { Goes Nothing (S.meaning shelf.old) (S.meaning shelf.new) }
    ensures down { (S.meaning shelf.new).down ≡ (S.meaning shelf.old).down }
    ensures disks { OnDisks (S.meaning shelf.old).disks (S.meaning shelf.new).disks Untouched }
    ensures spends { Spends (S.meaning shelf.old) (S.meaning shelf.new) }
    ensures cause { Cause (S.meaning shelf.old) (S.meaning shelf.new) unit result }
    ensures names { Names (S.meaning shelf.old).disks unit result }
    ensures works { OnOk result (Works (S.meaning shelf.old).disks unit) }
{
    shelf.read(unit, 2 + first, into)
}

/// Reads 1 to 16 body blocks, as they stand on disk, from a place on. They take two calls where they pass the ring's end.
pub fn read_body<S: Shelf>(
    shelf: &mut S,
    unit: u32,
    ring: u64,
    place: u64,
    into: &mut [u8],
) -> Result<(), ShelfError>
    requires lies { RingLies unit ring (S.meaning shelf.old) }
    requires few { ring ≤ 65534 }
    requires blocks { IsBlocks into.old }
    requires room { length into.old / BLOCK ≤ ring }
    ensures shows { OnOk result ((c : RingImage) → ReadsAs unit ring c (S.meaning shelf.old) → ShowsBlocks ring c place (all_blocks into.new)) }
    ensures gave { OnOk result (IsTrue (S.meaning shelf.old).tells → GaveBlocks unit ring (S.meaning shelf.old) place (all_blocks into.new)) }
    ensures size { length into.new ≡ length into.old }
    ensures goes { Goes Nothing (S.meaning shelf.old) (S.meaning shelf.new) }
    ensures down { (S.meaning shelf.new).down ≡ (S.meaning shelf.old).down }
    ensures disks { OnDisks (S.meaning shelf.old).disks (S.meaning shelf.new).disks Untouched }
    ensures spends { Spends (S.meaning shelf.old) (S.meaning shelf.new) }
    ensures cause { Cause (S.meaning shelf.old) (S.meaning shelf.new) unit result }
    ensures names { Names (S.meaning shelf.old).disks unit result }
    ensures works { OnOk result (Works (S.meaning shelf.old).disks unit) }
{
    let first = place % ring;
    let before_end = (ring - first).min((into.len() / BLOCK) as u64);
    let (one, two) = into.split_at_mut(BLOCK * before_end as usize);
    read_part(shelf, unit, ring, first, one)?;
    if two.is_empty() {
        Ok(())
    } else {
        read_part(shelf, unit, ring, 0, two)
    }
}
