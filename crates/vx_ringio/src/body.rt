// The body of a record, as it was given and as it stands on disk.
ghost use Rattle.std.specs.Prelude.{◌≡◌, ◌≤◌, ◌<◌, ◌%◌, ◌/◌, length, All};
ghost use Rattle.vx_ringlog.specs.Records.{as_on_disk, firsts_of};
ghost use Rattle.vx_ringio.specs.Bodies.{IsBlocks, BodyIs, all_blocks};
ghost use Rattle.vx_srlfmt.specs.Kinds.{IsBody};

use vx_model::limits::{BLOCK, MOST_CALL_BLOCKS};
use vx_srlfmt::RecordHead;
use vx_wire::digest;

/// Whether a body that was read is that of its record.
#[derive(Clone, Copy, Debug, PartialEq, Eq)]
pub enum Body {
    Whole,
    /// The digest in the record's header is not the one computed of the body.
    Differs {
        stored: [u8; 32],
        computed: [u8; 32],
    },
}

/// Puts the byte 0x42 first in each of 1 to 16 blocks, and answers the bytes that stood there, with zeros behind them.
pub fn mask_body(bytes: &mut [u8]) -> [u8; MOST_CALL_BLOCKS as usize]
    requires { IsBlocks bytes.old }
    ensures blocks { all_blocks bytes.new ≡ as_on_disk (all_blocks bytes.old) }
    ensures firsts { result ≡ firsts_of (all_blocks bytes.old) }
    ensures size { length bytes.new ≡ length bytes.old }
{
    let mut firsts = [0; MOST_CALL_BLOCKS as usize];
    for k in 0..bytes.len() / BLOCK {
        firsts[k] = bytes[BLOCK * k];
        bytes[BLOCK * k] = 0x42;
    }
    firsts
}

/// Puts the first bytes of a body of 1 to 16 blocks back, and compares its digest with that in the record's header.
pub fn unmask_body(bytes: &mut [u8], head: &RecordHead) -> Body
    requires { IsBlocks bytes.old }
    ensures is { BodyIs head.now bytes.old bytes.new result }
    ensures size { length bytes.new ≡ length bytes.old }
{
    for k in 0..bytes.len() / BLOCK {
        bytes[BLOCK * k] = head.firsts[k];
    }
    let computed = digest(bytes);
    if computed == head.digest {
        Body::Whole
    } else {
        let stored = head.digest;
        Body::Differs { stored, computed }
    }
}
