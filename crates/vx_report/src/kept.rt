// The line on a write that was cut.
ghost use Rattle.std.specs.Prelude.{◌≡◌, ◌++◌, OnOk, take};
ghost use Rattle.std.specs.List.{flat_map};
ghost use Rattle.vx_report.specs.KeptText.{kept_digit, kept_line};

use crate::view::Kept;
use crate::words::{either, push_after, push_text};
use vx_model::OutOfMemory;

/// Appends the line that says which blocks of a write to a volume a recovery found as they were to be written.
pub fn push_kept(out: &mut Vec<u8>, kept: &Kept) -> Result<(), OutOfMemory>
    ensures { OnOk result (out.new.items ≡ out.old.items ++ kept_line kept.now) }
{
    push_text(out, b"kept ")?;
    push_text(out, kept.volume.as_bytes())?;
    push_after(out, b" ", kept.block)?;
    push_text(out, b" ")?;
    push_bits(out, first_bits(&kept.bits, kept.count))?;
    push_text(out, b"\n")
}

fn push_bits(out: &mut Vec<u8>, bits: &[bool]) -> Result<(), OutOfMemory>
    ensures { OnOk result (out.new.items ≡ out.old.items ++ flat_map kept_digit bits.now) }
{
    for bit in bits {
        push_text(out, either(*bit, b"1", b"0"))?;
    }
    Ok(())
}

// The first of these, so many, or all where they are fewer.
fn first_bits(bits: &[bool], count: u32) -> &[bool]
    ensures { result.now ≡ take count bits.now }
{
    if count as usize >= bits.len() {
        return bits;
    }
    &bits[..count as usize]
}
