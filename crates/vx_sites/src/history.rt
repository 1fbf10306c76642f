// What is recorded of lines.
ghost use Rattle.std.specs.Prelude.{◌≡◌, IfOk, OnOk, MatchOption};
ghost use Rattle.vx_history.specs.World.{no_history, line_updated};
ghost use Rattle.vx_history.specs.Steps.{told_of};
ghost use Rattle.vx_sites.specs.Shapes.{content_of, history_of, lines_of, IsEntry, IsNewLine};

use crate::{Content, Write};
use std::alloc::Global;
use vx_model::{Line, OutOfMemory};

/// What is recorded of a line that came from no other.
#[derive(Drop)]
pub struct History {
    /// What its volumes held at number 0.
    pub start: Content,
    /// The writes that are durable at its origin, number 1 first.
    pub held: Vec<Write>,
    /// The greatest number answered.
    pub told: u64,
}

impl History {
    /// Nothing is recorded of the line.
    pub fn none(alloc: Global) -> History
        ensures { history_of result ≡ no_history }
    {
        History {
            start: Content::none(alloc),
            held: Vec::new(alloc),
            told: 0,
        }
    }
}

/// A line and what is recorded of it.
#[derive(Drop)]
pub struct Entry {
    pub line: Line,
    pub history: History,
}

/// The place of the first entry of the line, which is added where there is none.
pub fn find_line(alloc: Global, lines: &mut Vec<Entry>, line: &Line) -> Result<usize, OutOfMemory>
    ensures place { IfOk result (λ at. IsEntry lines.new.items line.now at) }
    ensures same { OnOk result (lines_of lines.new.items ≡ lines_of lines.old.items) }
{
    if let Some(at) = seek_line(lines, line) {
        return Ok(at);
    }
    let at = lines.len();
    lines.push(Entry {
        line: *line,
        history: History::none(alloc),
    })?;
    Ok(at)
}

// The place of the first entry of the line.
fn seek_line(lines: &[Entry], line: &Line) -> Option<usize>
    ensures { MatchOption result (IsNewLine lines.now line.now) (λ at. IsEntry lines.now line.now at) }
{
    for (at, entry) in lines.iter().enumerate() {
        if line.generation == entry.line.generation && line.origin == entry.line.origin {
            return Some(at);
        }
    }
    None
}

/// One more write is durable at the line's origin, and is answered.
pub fn tell_write(
    alloc: Global,
    lines: &mut Vec<Entry>,
    line: &Line,
    write: Write,
) -> Result<(), OutOfMemory>
    ensures { OnOk result (lines_of lines.new.items ≡ line_updated (lines_of lines.old.items) line.now (told_of (lines_of lines.old.items line.now) write)) }
{
    let at = find_line(alloc, lines, line)?;
    let history = &mut lines[at].history;
    history.held.push(write)?;
    history.told = history.held.len() as u64;
    Ok(())
}

/// These writes are durable at the line's origin.
pub fn keep_writes(
    alloc: Global,
    lines: &mut Vec<Entry>,
    line: &Line,
    writes: &[Write],
) -> Result<(), OutOfMemory>
    ensures { OnOk result (lines_of lines.new.items ≡ line_updated (lines_of lines.old.items) line.now (record (lines_of lines.old.items line.now) { held = writes.now })) }
{
    let at = find_line(alloc, lines, line)?;
    lines[at].history.held = Vec::from_slice(alloc, writes)?;
    Ok(())
}

/// The line begins with volumes that hold this.
pub fn begin_line(
    alloc: Global,
    lines: &mut Vec<Entry>,
    line: &Line,
    start: Content,
) -> Result<(), OutOfMemory>
    ensures { OnOk result (lines_of lines.new.items ≡ line_updated (lines_of lines.old.items) line.now (record no_history { start = content_of start })) }
{
    let at = find_line(alloc, lines, line)?;
    lines[at].history = History {
        start,
        held: Vec::new(alloc),
        told: 0,
    };
    Ok(())
}

/// The line begins with volumes that hold this, and what is recorded of it beside stays.
pub fn start_line(
    alloc: Global,
    lines: &mut Vec<Entry>,
    line: &Line,
    start: Content,
) -> Result<(), OutOfMemory>
    ensures { OnOk result (lines_of lines.new.items ≡ line_updated (lines_of lines.old.items) line.now (record (lines_of lines.old.items line.now) { start = content_of start })) }
{
    let at = find_line(alloc, lines, line)?;
    lines[at].history.start = start;
    Ok(())
}
