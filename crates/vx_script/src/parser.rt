// What a line says.
ghost use Rattle.vx_script.specs.Words.{GivesReading};
ghost use Rattle.vx_script.specs.Grammar.{line_after_spaces, line_of};
ghost use Rattle.vx_script.specs.Parsed.{IsParsed};

use crate::keyword::as_keyword;
use crate::readers::after_keyword;
use crate::scan::Words;
use crate::{LineErr, ScriptLine, Wrong};
use std::alloc::Global;

#[tactic(auto, unfolding(crate::specs::Grammar::line_by, crate::specs::Grammar::line_after_spaces))]
fn line(alloc: Global, bytes: &[u8]) -> Result<Option<ScriptLine>, Wrong>
    ensures { GivesReading (λ x. x) result (line_after_spaces bytes.now) }
{
    let mut words = Words { left: bytes };
    let (word, left) = words.next();
    if word.is_empty() || word[0] == b'#' {
        return Ok(None);
    }
    match as_keyword(word) {
        Some(keyword) => Ok(Some(after_keyword(alloc, keyword, &mut words)?)),
        None => Err(Wrong::Left(left)),
    }
}

/// What line `no` says: nothing for an empty line, a line of spaces alone or a comment. `bytes` is the line
/// without its newline, and without a carriage return right before that. A line that is not in the grammar, or
/// has more than 4,096 bytes, is `Bad` at the place of its first wrong word.
#[tactic(auto, unfolding(crate::specs::Grammar::line_of))]
pub fn parse(alloc: Global, bytes: &[u8], no: u64) -> Result<Option<ScriptLine>, LineErr>
    ensures { IsParsed no result (line_of bytes.now) }
{
    if bytes.len() > 4096 {
        return Err(LineErr::Bad {
            line: no,
            column: 4097,
        });
    }
    match line(alloc, bytes) {
        Ok(line) => Ok(line),
        Err(Wrong::Left(left)) => Err(LineErr::Bad {
            line: no,
            column: (bytes.len() + 1).saturating_sub(left) as u64,
        }),
        Err(Wrong::Memory) => Err(LineErr::OutOfMemory),
    }
}
