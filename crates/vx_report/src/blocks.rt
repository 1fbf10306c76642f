// A block as it is printed.
ghost use Rattle.std.specs.Prelude.{◌≡◌, ◌≤◌, ◌<◌, ◌++◌, ◌==◌, OnOk, IfOk, length};
ghost use Rattle.std.specs.List.{list_all};
ghost use Rattle.vx_report.specs.BlockText.{shown_bytes, block_text};

use crate::words::{push_hex, push_text};
use std::alloc::Global;
use vx_model::limits::BLOCK;
use vx_model::{Bytes, OutOfMemory};

/// The line of a block of 512 bytes: two lower-case hexadecimal digits where all its bytes are equal, else 1,024.
pub fn block(alloc: Global, bytes: &[u8; BLOCK]) -> Result<Bytes, OutOfMemory>
    ensures { IfOk result (λ text. text ≡ block_text bytes.now) }
{
    let mut out = Vec::new(alloc);
    push_block(&mut out, bytes)?;
    Ok(Bytes::new(out))
}

/// Appends the line of a block of 512 bytes.
#[tactic(auto, unfolding(crate::specs::BlockText::block_text))]
pub fn push_block(out: &mut Vec<u8>, bytes: &[u8]) -> Result<(), OutOfMemory>
    requires { length bytes.now ≡ BLOCK }
    ensures { OnOk result (out.new.items ≡ out.old.items ++ block_text bytes.now) }
{
    push_hex(out, shown(bytes))?;
    push_text(out, b"\n")
}

/// The first byte where all are equal to it, else all.
fn shown(bytes: &[u8]) -> &[u8]
    requires { 0 < length bytes.now }
    ensures bytes { result.now ≡ shown_bytes bytes.now }
    ensures few { length result.now ≤ length bytes.now }
{
    if all_equal(bytes, bytes[0]) {
        &bytes[..1]
    } else {
        bytes
    }
}

fn all_equal(bytes: &[u8], first: u8) -> bool
    ensures { result ≡ list_all (λ byte. byte == first) bytes.now }
{
    bytes.iter().all(|byte| *byte == first)
}
