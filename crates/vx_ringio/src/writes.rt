// The writes of a log.
ghost use Rattle.std.specs.Prelude.{◌≡◌, ◌+◌, ◌*◌, ◌/◌, ◌%◌, ◌<◌, ◌≤◌, ◌^◌, ℕ, [], ◌∷◌, ◌++◌, length, true, All, OnOk};
ghost use Rattle.vx_disk.specs.Causes.{Cause, Names, Works};
ghost use Rattle.vx_disk.specs.Moves.{Anything, Moves, Run};
ghost use Rattle.vx_disk.specs.Shelf.{Goes, Nothing};
ghost use Rattle.vx_ringio.specs.Bodies.{IsBlocks, all_blocks};
ghost use Rattle.vx_disk.specs.Burns.{FallsShort, MakesCalls};
ghost use Rattle.vx_ringio.specs.Classes.{is_of_ring};
ghost use Rattle.vx_disk.specs.Spends.{MakesAtLeast, Spends};
ghost use Rattle.vx_ringio.specs.Tracks.{RingLies, Follows, Arrives};
ghost use Rattle.vx_ringlog.specs.Acts.{body_acts, head_acts};
ghost use Rattle.vx_ringlog.specs.Cells.{Write as WriteAct, Flush};
ghost use Rattle.vx_ringlog.specs.Chain.{block};
ghost use Rattle.vx_srlfmt.specs.Headers.{CanSpellHeader};
ghost use Rattle.vx_srlfmt.specs.Kinds.{Front, IsBody};
ghost use Rattle.vx_srlfmt.specs.Records.{CanSpellHead};

use vx_disk::{Shelf, ShelfError};
use vx_model::limits::BLOCK;
use vx_srlfmt::{Header, RecordHead, put_header, put_record};

/// Makes all that was written to the log's unit durable.
pub fn flush_ring<S: Shelf>(shelf: &mut S, unit: u32) -> Result<(), ShelfError>
    requires exists { unit < (S.meaning shelf.old).units }
    ensures follows { (ring : ℕ) → Follows unit ring (Flush ∷ []) (S.meaning shelf.old) (S.meaning shelf.new) }
    ensures arrives { OnOk result ((ring : ℕ) → Arrives unit ring (Flush ∷ []) (S.meaning shelf.old) (S.meaning shelf.new)) }
    ensures goes { Goes Nothing (S.meaning shelf.old) (S.meaning shelf.new) }
    ensures cause { Cause (S.meaning shelf.old) (S.meaning shelf.new) unit result }
    ensures calls { OnOk result (MakesCalls 1 (S.meaning shelf.old) (S.meaning shelf.new)) }
    ensures short { FallsShort 1 (S.meaning shelf.old) (S.meaning shelf.new) }
    ensures names { Names (S.meaning shelf.old).disks unit result }
    ensures spends { Spends (S.meaning shelf.old) (S.meaning shelf.new) }
{
    shelf.flush(unit)
}

/// Writes the header of a record to its place.
pub fn write_front<S: Shelf>(
    shelf: &mut S,
    unit: u32,
    ring: u64,
    place: u64,
    head: &RecordHead,
) -> Result<(), ShelfError>
    requires lies { RingLies unit ring (S.meaning shelf.old) }
    requires some { 0 < ring }
    requires few { ring ≤ 65534 }
    requires spell { CanSpellHead head.now }
    ensures follows { Follows unit ring (WriteAct (block ring place) (Front head.now) ∷ []) (S.meaning shelf.old) (S.meaning shelf.new) }
    ensures arrives { OnOk result (Arrives unit ring (WriteAct (block ring place) (Front head.now) ∷ []) (S.meaning shelf.old) (S.meaning shelf.new)) }
    ensures cause { Cause (S.meaning shelf.old) (S.meaning shelf.new) unit result }
    ensures calls { OnOk result (MakesCalls 1 (S.meaning shelf.old) (S.meaning shelf.new)) }
    ensures short { FallsShort 1 (S.meaning shelf.old) (S.meaning shelf.new) }
    ensures names { Names (S.meaning shelf.old).disks unit result }
    ensures spends { Spends (S.meaning shelf.old) (S.meaning shelf.new) }
{
    let mut bytes = [0; BLOCK];
    put_record(head, &mut bytes);
    shelf.write(unit, 2 + place % ring, &bytes)
}

/// Writes a header of the log to its block, which goes by its stamp, and makes it durable. The blocks of the ring stay as they are.
pub fn write_header<S: Shelf>(
    shelf: &mut S,
    unit: u32,
    ring: u64,
    header: &Header,
) -> Result<(), ShelfError>
    requires lies { RingLies unit ring (S.meaning shelf.old) }
    requires spell { CanSpellHeader header.now }
    requires of_ring { is_of_ring ring header.now ≡ true }
    ensures follows { Follows unit ring (head_acts (header.now.stamp % 2) header.now) (S.meaning shelf.old) (S.meaning shelf.new) }
    ensures arrives { OnOk result (Arrives unit ring (head_acts (header.now.stamp % 2) header.now) (S.meaning shelf.old) (S.meaning shelf.new)) }
    ensures aside { Moves (Run unit 0 2) Anything (S.meaning shelf.old) (S.meaning shelf.new) }
    ensures cause { Cause (S.meaning shelf.old) (S.meaning shelf.new) unit result }
    ensures calls { OnOk result (MakesCalls 2 (S.meaning shelf.old) (S.meaning shelf.new)) }
    ensures short { FallsShort 2 (S.meaning shelf.old) (S.meaning shelf.new) }
    ensures names { Names (S.meaning shelf.old).disks unit result }
    ensures spends { Spends (S.meaning shelf.old) (S.meaning shelf.new) }
    ensures works { OnOk result (Works (S.meaning shelf.old).disks unit) }
{
    let mut bytes = [0; BLOCK];
    put_header(header, &mut bytes);
    shelf.write(unit, header.stamp % 2, &bytes)?;
    flush_ring(shelf, unit)
}

// Writes blocks of a body from a place within the ring on, of which none passes the ring's end.
fn write_part<S: Shelf>(
    shelf: &mut S,
    unit: u32,
    ring: u64,
    first: u64,
    bytes: &[u8],
) -> Result<(), ShelfError>
    requires lies { RingLies unit ring (S.meaning shelf.old) }
    requires few { ring ≤ 65534 }
    requires blocks { IsBlocks bytes.now }
    requires room { first + length bytes.now / BLOCK ≤ ring }
    requires body { All IsBody (all_blocks bytes.now) }
    ensures follows { Follows unit ring (body_acts ring first (all_blocks bytes.now)) (S.meaning shelf.old) (S.meaning shelf.new) }
    ensures arrives { OnOk result (Arrives unit ring (body_acts ring first (all_blocks bytes.now)) (S.meaning shelf.old) (S.meaning shelf.new)) }
    ensures cause { Cause (S.meaning shelf.old) (S.meaning shelf.new) unit result }
    ensures calls { OnOk result (MakesCalls 1 (S.meaning shelf.old) (S.meaning shelf.new)) }
    ensures short { FallsShort 1 (S.meaning shelf.old) (S.meaning shelf.new) }
    ensures names { Names (S.meaning shelf.old).disks unit result }
    ensures spends { Spends (S.meaning shelf.old) (S.meaning shelf.new) }
    ensures works { OnOk result (Works (S.meaning shelf.old).disks unit) }
{
    shelf.write(unit, 2 + first, bytes)
}

/// Writes the 1 to 16 blocks of a body, as they stand on disk, from a place on. They take two calls where they pass the ring's end.
pub fn write_body<S: Shelf>(
    shelf: &mut S,
    unit: u32,
    ring: u64,
    place: u64,
    bytes: &[u8],
) -> Result<(), ShelfError>
    requires lies { RingLies unit ring (S.meaning shelf.old) }
    requires few { ring ≤ 65534 }
    requires blocks { IsBlocks bytes.now }
    requires room { length bytes.now / BLOCK ≤ ring }
    requires body { All IsBody (all_blocks bytes.now) }
    ensures follows { Follows unit ring (body_acts ring place (all_blocks bytes.now)) (S.meaning shelf.old) (S.meaning shelf.new) }
    ensures arrives { OnOk result (Arrives unit ring (body_acts ring place (all_blocks bytes.now)) (S.meaning shelf.old) (S.meaning shelf.new)) }
    ensures cause { Cause (S.meaning shelf.old) (S.meaning shelf.new) unit result }
    ensures calls { OnOk result (place % ring + length bytes.now / BLOCK ≤ ring → MakesCalls 1 (S.meaning shelf.old) (S.meaning shelf.new)) }
    ensures short { place % ring + length bytes.now / BLOCK ≤ ring → FallsShort 1 (S.meaning shelf.old) (S.meaning shelf.new) }
    ensures least { OnOk result (MakesAtLeast 1 (S.meaning shelf.old) (S.meaning shelf.new)) }
    ensures names { Names (S.meaning shelf.old).disks unit result }
    ensures spends { Spends (S.meaning shelf.old) (S.meaning shelf.new) }
    ensures works { OnOk result (Works (S.meaning shelf.old).disks unit) }
{
    let first = place % ring;
    let before_end = (ring - first).min((bytes.len() / BLOCK) as u64);
    let (one, two) = bytes.split_at(BLOCK * before_end as usize);
    write_part(shelf, unit, ring, first, one)?;
    if two.is_empty() {
        Ok(())
    } else {
        write_part(shelf, unit, ring, 0, two)
    }
}
