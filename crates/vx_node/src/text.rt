// The text of a reply.
ghost use Rattle.std.specs.Prelude.{◌≡◌, ◌≤◌, ◌+◌, ◌*◌, ◌++◌, ◌∷◌, [], OnOk, codes, length};
ghost use Rattle.std.specs.Fmt.{decimal};
ghost use Rattle.vx_model.specs.Content.{block_of, blocks_in};
ghost use Rattle.vx_yard.specs.Replies.{reply_text, blocks_text, came_up_text, kept_lines, recovered_text, resumed_text};

use vx_events::Said;
use vx_model::OutOfMemory;
use vx_model::limits::BLOCK;
use vx_report::{
    Kept, RvgView, SiteView, push_block, push_kept, push_number, push_refusal, push_status,
    push_text,
};

/// Appends the lines of a reply.
pub fn push_said(out: &mut Vec<u8>, said: &Said) -> Result<(), OutOfMemory>
    ensures { OnOk result (out.new.items ≡ out.old.items ++ reply_text said.now) }
{
    match said {
        Said::Done => push_text(out, b"done\n"),
        Said::DoneAt(number) => push_numbered(out, b"done ", *number),
        Said::Got(blocks) => push_blocks(out, blocks.as_slice()),
        Said::Shown(view) => push_status(out, view),
        Said::Recovered(last, view) => push_recovered(out, *last, view),
        Said::Resumed(view, kept) => push_resumed(out, view, kept),
        Said::Logged(number) => push_numbered(out, b"logged ", *number),
        Said::Pending(number) => push_numbered(out, b"pending ", *number),
        Said::Taken => push_text(out, b"taken\n"),
        Said::Ignored => push_text(out, b"ignored\n"),
        Said::Settled(number) => push_numbered(out, b"settled ", *number),
        Said::Refused(no) => push_refusal(out, no),
    }
}

// A word and a number.
fn push_numbered(out: &mut Vec<u8>, word: &[u8], number: u64) -> Result<(), OutOfMemory>
    ensures { OnOk result (out.new.items ≡ out.old.items ++ (word.now ++ decimal number ++ 10 ∷ [])) }
{
    push_text(out, word)?;
    push_number(out, number)?;
    push_text(out, b"\n")
}

// The last number, and then the lines of the status.
fn push_recovered(out: &mut Vec<u8>, last: u64, view: &SiteView) -> Result<(), OutOfMemory>
    ensures { OnOk result (out.new.items ≡ out.old.items ++ recovered_text last view.now) }
{
    push_text(out, b"recovered ")?;
    push_number(out, last)?;
    push_text(out, b"\n")?;
    push_status(out, view)
}

// The lines of the status, and what is kept of a write that was cut.
fn push_resumed(out: &mut Vec<u8>, view: &SiteView, kept: &Option<Kept>) -> Result<(), OutOfMemory>
    ensures { OnOk result (out.new.items ≡ out.old.items ++ resumed_text view.now kept.now) }
{
    push_came_up(out, &view.rvg)?;
    push_status(out, view)?;
    push_kept_lines(out, kept)
}

fn push_came_up(out: &mut Vec<u8>, rvg: &Option<RvgView>) -> Result<(), OutOfMemory>
    ensures { OnOk result (out.new.items ≡ out.old.items ++ came_up_text rvg.now) }
{
    match rvg {
        Some(rvg) => push_numbered(out, b"recovered ", rvg.head),
        None => push_text(out, b"recovered\n"),
    }
}

fn push_kept_lines(out: &mut Vec<u8>, kept: &Option<Kept>) -> Result<(), OutOfMemory>
    ensures { OnOk result (out.new.items ≡ out.old.items ++ kept_lines kept.now) }
{
    match kept {
        Some(kept) => push_kept(out, kept),
        None => Ok(()),
    }
}

// A line for each whole block.
fn push_blocks(out: &mut Vec<u8>, bytes: &[u8]) -> Result<(), OutOfMemory>
    ensures { OnOk result (out.new.items ≡ out.old.items ++ blocks_text bytes.now 0 (blocks_in bytes.now)) }
{
    for k in 0..bytes.len() / BLOCK {
        push_block(out, block_at(bytes, k))?;
    }
    Ok(())
}

fn block_at(bytes: &[u8], k: usize) -> &[u8]
    requires { BLOCK * k + BLOCK ≤ length bytes.now }
    ensures shows { result.now ≡ block_of bytes.now k }
    ensures size { length result.now ≡ BLOCK }
{
    &bytes[BLOCK * k..BLOCK * k + BLOCK]
}
