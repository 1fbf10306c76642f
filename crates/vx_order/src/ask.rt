// What a line asks of the links of its site.
ghost use Rattle.std.specs.Prelude.{◌≡◌};
ghost use Rattle.vx_order.specs.Asks.{ask_of};

use vx_script::ScriptLine;

/// What a line asks of the links of the site that it names first.
#[derive(Clone, Copy)]
pub enum Ask {
    /// A further one, to the second site.
    Makes,
    /// Another setting of the one to the second site.
    Sets,
    /// To be connected, cut, paused or resumed, or that what was sent counts as lost.
    Turns,
    /// To send.
    Pumps,
    /// To bring the second site up to the last number.
    Settles,
    /// Whether they have confirmed the write of this number.
    Waits { number: u64 },
}

/// What the line asks of links.
#[tactic(auto, unfolding(crate::specs::Asks::ask_of))]
pub fn find_ask(line: &ScriptLine) -> Option<Ask>
    ensures { result ≡ ask_of line.now }
{
    match line {
        ScriptLine::Link { .. } => Some(Ask::Makes),
        ScriptLine::Set { .. } => Some(Ask::Sets),
        ScriptLine::Connect { .. }
        | ScriptLine::Cut { .. }
        | ScriptLine::Pause { .. }
        | ScriptLine::Resume { .. }
        | ScriptLine::Tick { .. } => Some(Ask::Turns),
        ScriptLine::Pump { .. } => Some(Ask::Pumps),
        ScriptLine::Settle { .. } => Some(Ask::Settles),
        ScriptLine::Wait { number, .. } => Some(Ask::Waits { number: *number }),
        _ => None,
    }
}
