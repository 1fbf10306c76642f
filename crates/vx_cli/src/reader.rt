// The lines of a source.
ghost use Rattle.std.specs.Prelude.{◌≡◌, ◌≤◌, ◌<◌, ◌==◌, ℕ, List, [], ◌∷◌, true, false, Ok, Err, length, drop, vec_len, slice_index, IfOk, OnErr};
ghost use Rattle.vx_stream.specs.Causes.{StreamRose};
ghost use Rattle.vx_script.specs.Lines.{without_return};
ghost use Rattle.vx_cli.specs.Reading.{FillIs, CutIs, NextIs, MoreIs};
ghost use Rattle.vx_cli.specs.declared.reader.ReadError.TheVariants.{Memory};

use std::alloc::{AllocError, Global};
use thiserror::Error;
use vx_stream::Source;

/// What comes next.
pub enum Next {
    /// A line, which a newline ended.
    Line,
    /// A last line, which the input ended.
    Last,
    /// The end of the input.
    End,
    /// A line of more than 4,096 bytes.
    Long,
}

/// Why no more could be read.
#[derive(Clone, Copy, Debug, Drop, Error)]
pub enum ReadError {
    #[error("the script could not be read")]
    Fault,
    #[error("out of memory")]
    Memory,
}

impl From<AllocError> for ReadError {
    ghost from_gives = { λ _ e. e ≡ Memory };

    fn from(_e: AllocError) -> ReadError {
        ReadError::Memory
    }
}

// A line is held with its carriage return and its newline.
const LIMIT: usize = 4098;

fn first_newline(bytes: &[u8]) -> usize
    ensures bound { result ≤ length bytes.now }
    ensures before { (k : ℕ) → k < result → (slice_index bytes.now k == 10) ≡ false }
    ensures found { result < length bytes.now → slice_index bytes.now result ≡ 10 }
{
    for (i, b) in bytes.iter().enumerate() {
        if *b == b'\n' {
            return i;
        }
    }
    bytes.len()
}

fn drop_front(held: &mut Vec<u8>, count: usize)
    requires { count ≤ vec_len held.old }
    ensures { held.new.items ≡ drop count held.old.items }
{
    let left = held.len() - count;
    held.copy_within(count.., 0);
    held.truncate(left);
}

fn strip_return(line: &mut Vec<u8>)
    ensures { line.new.items ≡ without_return line.old.items }
{
    if !line.is_empty() && line[line.len() - 1] == b'\r' {
        line.truncate(line.len() - 1);
    }
}

/// Cuts a line off at its newline, if there is one.
fn cut(held: &mut Vec<u8>, line: &mut Vec<u8>) -> Result<bool, AllocError>
    ensures cut { IfOk result (λ found. CutIs found held.old.items line.new.items held.new.items) }
    ensures err { OnErr result (held.new.items ≡ held.old.items) }
{
    let end = first_newline(held);
    if end == held.len() {
        return Ok(false);
    }
    line.clear();
    line.extend_from_slice(&held[..end])?;
    strip_return(line);
    drop_front(held, end + 1);
    Ok(true)
}

/// Takes a piece of what the source has left; `false` at its end.
fn fill<S: Source>(source: &mut S, held: &mut Vec<u8>) -> Result<bool, ReadError>
    ensures fill { FillIs held.old.items (S.left source.old) result held.new.items (S.left source.new) }
    ensures more { result ≡ Ok true → vec_len held.old < vec_len held.new }
    ensures later { S.faults source.old ≤ S.faults source.new }
    ensures cause { result ≡ Err ReadError.Fault → StreamRose (S.faults source.old) (S.faults source.new) }
{
    let mut piece = [0; 512];
    match source.take(&mut piece) {
        Ok(count) => {
            held.extend_from_slice(&piece[..count])?;
            Ok(count > 0)
        }
        Err(_) => Err(ReadError::Fault),
    }
}

/// The next line, without its end, in `line`.
pub fn next_line<S: Source>(
    source: &mut S,
    held: &mut Vec<u8>,
    line: &mut Vec<u8>,
) -> Result<Next, ReadError>
    ensures next { NextIs held.old.items (S.left source.old) result line.new.items held.new.items (S.left source.new) }
    ensures later { S.faults source.old ≤ S.faults source.new }
    ensures cause { result ≡ Err ReadError.Fault → StreamRose (S.faults source.old) (S.faults source.new) }
{
    while held.len() < LIMIT {
        if cut(held, line)? {
            return Ok(Next::Line);
        }
        if !fill(source, held)? {
            if held.is_empty() {
                return Ok(Next::End);
            }
            line.clear();
            line.extend_from_slice(held)?;
            held.clear();
            return Ok(Next::Last);
        }
    }
    if cut(held, line)? {
        Ok(Next::Line)
    } else {
        Ok(Next::Long)
    }
}

/// Whether a byte follows.
pub fn more<S: Source>(source: &mut S, held: &mut Vec<u8>) -> Result<bool, ReadError>
    ensures more { MoreIs held.old.items (S.left source.old) result held.new.items (S.left source.new) }
    ensures later { S.faults source.old ≤ S.faults source.new }
    ensures cause { result ≡ Err ReadError.Fault → StreamRose (S.faults source.old) (S.faults source.new) }
{
    if held.is_empty() {
        fill(source, held)
    } else {
        Ok(true)
    }
}
