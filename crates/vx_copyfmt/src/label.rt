// The label of a disk of a group.
ghost use Rattle.std.specs.Prelude.{◌≡◌, ◌↔◌, ◌-◌, ◌<◌, ◌≤◌, ◌^◌, take, length, IsTrue, true};
ghost use Rattle.vx_copyfmt.specs.Labels.{label_table, label_fields, IsTypedLabel, IsLabel, begins_label, label_in, seen_in};
ghost use Rattle.vx_wire.specs.Places.{put_at};
ghost use Rattle.vx_wire.specs.Seals.{filled};

use vx_model::limits::BLOCK;
use vx_wire::{Field, broken_seal, get_u32, get_u64, put_fields, put_zeros, seal};

/// The bytes "VXLABEL1", with which a label begins.
pub const LABEL_MAGIC: u64 = 0x56584c4142454c31;

/// The version of a label that this program writes and reads.
pub const VERSION: u32 = 1;

// The places of the fields, in the order in which they stand.
const VERSION_PLACE: usize = 8;

const SITE: usize = 12;

const DISK: usize = 16;

const BLOCKS: usize = 20;

const FRONT: usize = 28;

/// Which disk of which site a disk is.
#[derive(Clone, Copy, Debug, PartialEq, Eq)]
pub struct Label {
    pub site: u32,
    pub disk: u32,
    /// Its size, in blocks.
    pub blocks: u64,
}

/// What a block is as a label.
#[derive(Clone, Copy, Debug, PartialEq, Eq)]
pub enum LabelSeen {
    Label(Label),
    /// It begins as a label, its digest is good, and its version is another one.
    Format { version: u32 },
    Other,
}

// The fields of a label.
#[tactic(auto, unfolding(crate::specs::Labels::label_table))]
fn table(label: &Label) -> [Field; 5]
    ensures { result ≡ label_table label.now }
{
    [
        Field::U64(LABEL_MAGIC),
        Field::U32(VERSION),
        Field::U32(label.site),
        Field::U32(label.disk),
        Field::U64(label.blocks),
    ]
}

// The fields of a label are of their types, which a contract learns where they are read.
fn is_typed(label: &Label)
    ensures { IsTypedLabel label.now }
{
    let _site = label.site;
    let _disk = label.disk;
    let _blocks = label.blocks;
}

// Writes the 480 bytes before the digest.
fn put_front(label: &Label, into: &mut [u8])
    requires { 480 ≤ length into.old }
    ensures { into.new ≡ put_at 0 (filled (label_fields label.now)) into.old }
{
    put_fields(into, 0, &table(label));
    put_zeros(into, FRONT, 480 - FRONT);
}

// Whether the 480 bytes before the digest are those of the label.
fn is_spelled(label: &Label, block: &[u8; BLOCK]) -> bool
    ensures { IsTrue result ↔ (take 480 block.now ≡ filled (label_fields label.now)) }
{
    let mut again = [0; 480];
    put_front(label, &mut again);
    again[..] == block[..480]
}

// What stands in the places of the fields, whether or not the block is a label.
#[tactic(auto, unfolding(crate::specs::Labels::label_in))]
fn read_label(block: &[u8; BLOCK]) -> Label
    ensures { result ≡ label_in block.now }
{
    Label {
        site: get_u32(block, SITE),
        disk: get_u32(block, DISK),
        blocks: get_u64(block, BLOCKS),
    }
}

/// Writes a label as a block.
pub fn put_label(label: &Label, into: &mut [u8; BLOCK])
    ensures { IsLabel into.new label.now }
{
    is_typed(label);
    put_front(label, into);
    seal(into);
}

// What a block is as a label, where it begins as one and its digest is good.
fn whole_label(block: &[u8; BLOCK]) -> LabelSeen
    requires { begins_label block.now ≡ true }
    ensures { result ≡ seen_in block.now }
{
    let version = get_u32(block, VERSION_PLACE);
    if version != VERSION {
        return LabelSeen::Format { version };
    }
    let label = read_label(block);
    if is_spelled(&label, block) {
        LabelSeen::Label(label)
    } else {
        LabelSeen::Other
    }
}

/// What a block is: a label exactly where it is the spelling of one, and of another version exactly where it begins as a
/// label, its digest is good, and its version is not the one that is known.
pub fn get_label(block: &[u8; BLOCK]) -> LabelSeen
    ensures { result ≡ seen_in block.now }
{
    if get_u64(block, 0) == LABEL_MAGIC && broken_seal(block).is_none() {
        whole_label(block)
    } else {
        LabelSeen::Other
    }
}
