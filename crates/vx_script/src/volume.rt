// What follows the word `vol`.
ghost use Rattle.vx_script.specs.Words.{GivesReading};
ghost use Rattle.vx_script.specs.Formats.{read_by, volume_tail, volume_format};

use crate::choice::{LAYOUT_WORDS, LayoutWord, VOLUME_LOGS, VOLUME_MAPS};
use crate::line::Layout;
use crate::scan::Words;
use crate::{ScriptLine, Wrong};
use vx_model::Name;

#[tactic(auto, unfolding(crate::specs::Formats::volume_tail))]
fn volume_end(
    site: Name,
    volume: Name,
    blocks: u64,
    mirrors: u64,
    layout: Layout,
    words: &mut Words,
) -> Result<ScriptLine, Wrong>
    ensures { GivesReading (λ x. x) result (read_by (volume_tail site volume blocks mirrors layout) words.old.left.now) }
{
    let log = words.one_of(&VOLUME_LOGS)?;
    let map = words.one_of(&VOLUME_MAPS)?;
    let policy = words.policy()?;
    words.end()?;
    Ok(ScriptLine::Volume {
        site,
        volume,
        blocks,
        mirrors,
        layout,
        log,
        map,
        policy,
    })
}

/// A volume's line.
#[tactic(auto, unfolding(crate::specs::Formats::volume_format, crate::specs::Formats::layout_format))]
pub fn volume(words: &mut Words) -> Result<ScriptLine, Wrong>
    ensures { GivesReading (λ x. x) result (read_by volume_format words.old.left.now) }
{
    let site = words.name(b"")?;
    let volume = words.name(b"")?;
    let blocks = words.number(b"")?;
    let mirrors = words.number(b"mirrors=")?;
    let word = words.one_of(&LAYOUT_WORDS)?;
    match word {
        LayoutWord::IsConcat => volume_end(site, volume, blocks, mirrors, Layout::Concat, words),
        LayoutWord::IsStripe => {
            let columns = words.number(b"ncol=")?;
            let width = words.number(b"width=")?;
            volume_end(
                site,
                volume,
                blocks,
                mirrors,
                Layout::Stripe { columns, width },
                words,
            )
        }
    }
}
