// The run of blocks of a line.
ghost use Rattle.std.specs.Prelude.{◌≡◌};
ghost use Rattle.vx_order.specs.Spans.{span_of};

use vx_model::Name;
use vx_script::ScriptLine;

/// What a line does with its blocks.
#[derive(Clone, Copy, Debug, PartialEq, Eq)]
pub enum Way {
    Writes,
    Reads,
    Shows,
}

/// A run of blocks of a volume.
#[derive(Clone, Copy)]
pub struct Span {
    pub volume: Name,
    pub start: u64,
    pub count: u64,
    pub way: Way,
}

/// The run of blocks of a line that has one.
#[tactic(auto, unfolding(crate::specs::Spans::span_of))]
pub fn find_span(line: &ScriptLine) -> Option<Span>
    ensures { result ≡ span_of line.now }
{
    match line {
        ScriptLine::Write {
            volume,
            block,
            count,
            ..
        } => Some(Span {
            volume: *volume,
            start: *block,
            count: *count,
            way: Way::Writes,
        }),
        ScriptLine::Put { volume, block, .. } => Some(Span {
            volume: *volume,
            start: *block,
            count: 1,
            way: Way::Writes,
        }),
        ScriptLine::Read {
            volume,
            block,
            count,
            ..
        } => Some(Span {
            volume: *volume,
            start: *block,
            count: *count,
            way: Way::Reads,
        }),
        ScriptLine::Show {
            volume,
            block,
            count,
            ..
        } => Some(Span {
            volume: *volume,
            start: *block,
            count: *count,
            way: Way::Shows,
        }),
        _ => None,
    }
}
