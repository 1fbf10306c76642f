// The text of a reply to a line that sent packets.
ghost use Rattle.std.specs.Prelude.{◌≡◌, ◌≤◌, ◌<◌, ◌++◌, ◌+◌, ℕ, List, nat_lt, suc, Some, None, if◌then◌else◌, IfOk, OnOk, length, take, drop};
ghost use Rattle.vx_yard.specs.Replies.{first_line_with, sent_text, text_of};

use crate::text::push_said;
use std::alloc::Global;
use vx_events::Said;
use vx_model::OutOfMemory;
use vx_report::{push_number, push_text};

/// The numbers of the first and the last packet behind the first `before` of so many.
pub fn sent_since(before: u64, count: u64) -> Option<(u64, u64)>
    ensures { result ≡ (if nat_lt before count then Some (before + 1, count) else None) }
{
    if before < count {
        Some((before + 1, count))
    } else {
        None
    }
}

// The length of the first line, without its end.
fn first_line(text: &[u8]) -> usize
    ensures within { result ≤ length text.now }
    ensures ends { (more : List ℕ) → first_line_with more text.now ≡ take result text.now ++ (more ++ drop result text.now) }
{
    for k in 0..text.len() {
        if text[k] == 10 {
            return k;
        }
    }
    text.len()
}

fn push_sent(out: &mut Vec<u8>, first: u64, last: u64) -> Result<(), OutOfMemory>
    ensures { OnOk result (out.new.items ≡ out.old.items ++ sent_text first last) }
{
    push_text(out, b" sent ")?;
    push_number(out, first)?;
    push_text(out, b" ")?;
    push_number(out, last)
}

// The text with the numbers at the end of its first line.
fn with_numbers(alloc: Global, text: &[u8], first: u64, last: u64) -> Result<Vec<u8>, OutOfMemory>
    ensures { IfOk result (λ whole. whole.items ≡ first_line_with (sent_text first last) text.now) }
{
    let end = first_line(text);
    let mut whole = Vec::new(alloc);
    push_text(&mut whole, &text[..end])?;
    push_sent(&mut whole, first, last)?;
    push_text(&mut whole, &text[end..])?;
    Ok(whole)
}

/// The lines of a reply, with the numbers of the first and the last packet that the line sent, if it sent any.
pub fn replied(alloc: Global, said: &Said, sent: Option<(u64, u64)>) -> Result<Vec<u8>, OutOfMemory>
    ensures { IfOk result (λ text. text.items ≡ text_of said.now sent) }
{
    let mut text = Vec::new(alloc);
    push_said(&mut text, said)?;
    match sent {
        Some((first, last)) => with_numbers(alloc, &text, first, last),
        None => Ok(text),
    }
}
