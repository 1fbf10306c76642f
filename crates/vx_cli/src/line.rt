// What a line says, where its kind is built.
ghost use Rattle.std.specs.Prelude.{◌≡◌};
ghost use Rattle.vx_script.specs.Parsed.{IsParsed};
ghost use Rattle.vx_yard.specs.Lines.{is_built, is_fail_prot, script_line};

use std::alloc::Global;
use vx_model::Prot;
use vx_script::{LineErr, ScriptLine, parse};

fn is_fail(prot: &Prot) -> bool
    ensures { result ≡ is_fail_prot prot.now }
{
    matches!(prot, Prot::Fail)
}

fn is_built(line: &ScriptLine) -> bool
    ensures { result ≡ is_built line.now }
{
    match line {
        ScriptLine::Site { .. }
        | ScriptLine::Raw { .. }
        | ScriptLine::Disk { .. }
        | ScriptLine::Crash { .. }
        | ScriptLine::Fuse { .. }
        | ScriptLine::Recover { .. }
        | ScriptLine::GroupInit { .. }
        | ScriptLine::GroupDeport { .. }
        | ScriptLine::GroupImport { .. }
        | ScriptLine::Volume { .. }
        | ScriptLine::PlexDetach { .. }
        | ScriptLine::PlexAttach { .. }
        | ScriptLine::Rvg { .. }
        | ScriptLine::Write { .. }
        | ScriptLine::Put { .. }
        | ScriptLine::Read { .. }
        | ScriptLine::Show { .. }
        | ScriptLine::Apply { .. }
        | ScriptLine::Status { .. }
        | ScriptLine::Connect { .. }
        | ScriptLine::Cut { .. }
        | ScriptLine::Pause { .. }
        | ScriptLine::Resume { .. }
        | ScriptLine::Pump { .. }
        | ScriptLine::Tick { .. }
        | ScriptLine::Wait { .. }
        | ScriptLine::Deliver { .. }
        | ScriptLine::Settle { .. } => true,
        ScriptLine::Link { prot, .. } => is_fail(prot),
        ScriptLine::Set { prot, .. } => is_fail(prot),
        _ => false,
    }
}

/// What line `number` says: nothing for an empty line or a comment. A line that is not in the grammar is `Bad` at its
/// first wrong byte, and one of a kind that is not built at its first.
#[tactic(auto, unfolding(vx_yard::specs::Lines::script_line))]
pub fn line_of(alloc: Global, bytes: &[u8], number: u64) -> Result<Option<ScriptLine>, LineErr>
    ensures { IsParsed number result (script_line bytes.now) }
{
    match parse(alloc, bytes, number) {
        Ok(Some(line)) => {
            if is_built(&line) {
                Ok(Some(line))
            } else {
                Err(LineErr::Bad {
                    line: number,
                    column: 1,
                })
            }
        }
        Ok(None) => Ok(None),
        Err(e) => Err(e),
    }
}
