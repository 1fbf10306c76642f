// The writing of copies to several disks.
ghost use Rattle.std.specs.Prelude.{◌≡◌, ◌*◌, ◌%◌, ◌≤◌, false, length, take, true, OnOk, IfErr};
ghost use Rattle.vx_copyfmt.specs.Areas.{CanSpellArea};
ghost use Rattle.vx_copyio.specs.Labelling.{AreLarge};
ghost use Rattle.vx_copyio.specs.Orders.{Ordered};
ghost use Rattle.vx_copyio.specs.Putting.{AllNew, Copied, CopyStops, GoodFirst, IsMember, KeepsUp, part_of};
ghost use Rattle.vx_disk.specs.Blocks.{bit_at};
ghost use Rattle.vx_disk.specs.Burns.{MakesCalls};
ghost use Rattle.vx_disk.specs.Disks.{count_below};
ghost use Rattle.vx_wire.specs.Seals.{digest_of};

use crate::put_copy;
use vx_copyfmt::AreaHeader;
use vx_disk::{Shelf, ShelfError};
use vx_model::limits::{BLOCK, MOST_CONFIG_BYTES};

/// The disk to which a copy could not be written, and why.
#[derive(Clone, Copy, Debug, PartialEq, Eq)]
pub struct CopyFailed {
    pub disk: u32,
    pub error: ShelfError,
}

/// Whether a disk is a member of a set: bit D says so of disk D.
pub fn is_member(set: u8, disk: u32) -> bool
    ensures { result ≡ bit_at set disk }
{
    (set as u64 >> disk.min(63)) % 2 == 1
}

// Whether a disk is a member of a set, and a member of the other set or not.
fn is_part(set: u8, good: u8, which: bool, disk: u32) -> bool
    ensures { result ≡ part_of set good which disk }
{
    if which {
        is_member(set, disk) && is_member(good, disk)
    } else {
        is_member(set, disk) && !is_member(good, disk)
    }
}

// Writes a copy to each disk of a part of a set, in order, and stops at the first to which it cannot be written.
fn put_part<S: Shelf>(
    shelf: &mut S,
    set: u8,
    good: u8,
    which: bool,
    header: &AreaHeader,
    body: &[u8],
) -> Result<(), CopyFailed>
    requires large { AreLarge (S.meaning shelf.old) }
    requires can { CanSpellArea header.now }
    requires whole { length body.now % BLOCK ≡ 0 }
    requires few { length body.now ≤ MOST_CONFIG_BYTES }
    requires long { header.now.length ≤ length body.now }
    requires digest { header.now.digest ≡ digest_of (take header.now.length body.now) }
    ensures copied { Copied (IsMember (part_of set good which) (S.meaning shelf.old).units) header.now body.now (S.meaning shelf.old) (S.meaning shelf.new) }
    ensures ok { OnOk result (AllNew (IsMember (part_of set good which) (S.meaning shelf.old).units) header.now body.now (S.meaning shelf.old) (S.meaning shelf.new)) }
    ensures stops { IfErr result (CopyStops (part_of set good which) (S.meaning shelf.old).units header.now body.now (S.meaning shelf.old) (S.meaning shelf.new)) }
    ensures up { OnOk result (KeepsUp (S.meaning shelf.old) (S.meaning shelf.new)) }
    ensures calls { OnOk result (MakesCalls (4 * count_below (part_of set good which) (S.meaning shelf.old).units) (S.meaning shelf.old) (S.meaning shelf.new)) }
{
    for disk in 0..shelf.units() {
        if is_part(set, good, which, disk) {
            match put_copy(shelf, disk, header, body) {
                Ok(()) => {}
                Err(error) => return Err(CopyFailed { disk, error }),
            }
        }
    }
    Ok(())
}

/// Writes a copy to each disk of a set: first to those that are members of the other set too, and then to the rest, each part in
/// order. It stops at the first disk to which it cannot be written. At Ok it was four device calls for each disk of the set.
pub fn put_copies<S: Shelf>(
    shelf: &mut S,
    set: u8,
    good: u8,
    header: &AreaHeader,
    body: &[u8],
) -> Result<(), CopyFailed>
    requires large { AreLarge (S.meaning shelf.old) }
    requires can { CanSpellArea header.now }
    requires whole { length body.now % BLOCK ≡ 0 }
    requires few { length body.now ≤ MOST_CONFIG_BYTES }
    requires long { header.now.length ≤ length body.now }
    requires digest { header.now.digest ≡ digest_of (take header.now.length body.now) }
    ensures copied { Copied (IsMember (bit_at set) (S.meaning shelf.old).units) header.now body.now (S.meaning shelf.old) (S.meaning shelf.new) }
    ensures ok { OnOk result (AllNew (IsMember (bit_at set) (S.meaning shelf.old).units) header.now body.now (S.meaning shelf.old) (S.meaning shelf.new)) }
    ensures first { IfErr result (GoodFirst set good (S.meaning shelf.old).units header.now body.now (S.meaning shelf.old) (S.meaning shelf.new)) }
    ensures stops { IfErr result (CopyStops (bit_at set) (S.meaning shelf.old).units header.now body.now (S.meaning shelf.old) (S.meaning shelf.new)) }
    ensures order { Ordered (IsMember (part_of set good true) (S.meaning shelf.old).units) (IsMember (part_of set good false) (S.meaning shelf.old).units) header.now body.now (S.meaning shelf.old) (S.meaning shelf.new) }
    ensures up { OnOk result (KeepsUp (S.meaning shelf.old) (S.meaning shelf.new)) }
    ensures calls { OnOk result (MakesCalls (4 * count_below (bit_at set) (S.meaning shelf.old).units) (S.meaning shelf.old) (S.meaning shelf.new)) }
{
    match put_part(shelf, set, good, true, header, body) {
        Ok(()) => {}
        Err(failed) => return Err(failed),
    }
    put_part(shelf, set, good, false, header, body)
}
