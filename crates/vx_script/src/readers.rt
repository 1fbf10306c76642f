// What follows the first word of each kind of line.
ghost use Rattle.vx_script.specs.Words.{GivesReading};
ghost use Rattle.vx_script.specs.Formats.{read_by, format_of, site_format, disk_format, fuse_format, group_format, plex_format, rvg_format, write_format, put_format, deliver_format, call_format, of_site_format, of_number_format, of_span_format, of_link_format, of_pair_format};

use crate::choice::{
    CALL_VERBS, CallVerb, DISK_STATES, GROUP_VERBS, GroupVerb, PLEX_VERBS, PROTS, PlexVerb,
    SYNC_MODES,
};
use crate::keyword::{Keyword, LinkVerb, NumberVerb, PairVerb, SiteVerb, SpanVerb};
use crate::scan::Words;
use crate::volume::volume;
use crate::{ScriptLine, Wrong};
use std::alloc::Global;

#[tactic(auto, unfolding(crate::specs::Formats::site_format))]
fn site(words: &mut Words) -> Result<ScriptLine, Wrong>
    ensures { GivesReading (λ x. x) result (read_by site_format words.old.left.now) }
{
    let site = words.name(b"")?;
    let disks = words.number(b"")?;
    let blocks = words.number(b"")?;
    words.end()?;
    Ok(ScriptLine::Site {
        site,
        disks,
        blocks,
    })
}

#[tactic(auto, unfolding(crate::specs::Formats::disk_format))]
fn disk(words: &mut Words) -> Result<ScriptLine, Wrong>
    ensures { GivesReading (λ x. x) result (read_by disk_format words.old.left.now) }
{
    let site = words.name(b"")?;
    let disk = words.number(b"")?;
    let state = words.one_of(&DISK_STATES)?;
    words.end()?;
    Ok(ScriptLine::Disk { site, disk, state })
}

#[tactic(auto, unfolding(crate::specs::Formats::fuse_format))]
fn fuse(words: &mut Words) -> Result<ScriptLine, Wrong>
    ensures { GivesReading (λ x. x) result (read_by fuse_format words.old.left.now) }
{
    let site = words.name(b"")?;
    let writes = words.number(b"")?;
    let pick = words.number(b"")?;
    words.end()?;
    Ok(ScriptLine::Fuse { site, writes, pick })
}

#[tactic(auto, unfolding(crate::specs::Formats::group_format))]
fn group(words: &mut Words) -> Result<ScriptLine, Wrong>
    ensures { GivesReading (λ x. x) result (read_by group_format words.old.left.now) }
{
    let site = words.name(b"")?;
    let verb = words.one_of(&GROUP_VERBS)?;
    words.end()?;
    Ok(match verb {
        GroupVerb::Init => ScriptLine::GroupInit { site },
        GroupVerb::Deport => ScriptLine::GroupDeport { site },
        GroupVerb::Import => ScriptLine::GroupImport { site },
    })
}

#[tactic(auto, unfolding(crate::specs::Formats::plex_format))]
fn plex(words: &mut Words) -> Result<ScriptLine, Wrong>
    ensures { GivesReading (λ x. x) result (read_by plex_format words.old.left.now) }
{
    let site = words.name(b"")?;
    let volume = words.name(b"")?;
    let plex = words.number(b"")?;
    let verb = words.one_of(&PLEX_VERBS)?;
    words.end()?;
    Ok(match verb {
        PlexVerb::Detach => ScriptLine::PlexDetach { site, volume, plex },
        PlexVerb::Attach => ScriptLine::PlexAttach { site, volume, plex },
    })
}

#[tactic(auto, unfolding(crate::specs::Formats::rvg_format))]
fn rvg(alloc: Global, words: &mut Words) -> Result<ScriptLine, Wrong>
    ensures { GivesReading (λ x. x) result (read_by rvg_format words.old.left.now) }
{
    let site = words.name(b"")?;
    let srl = words.name(b"srl=")?;
    let dcm = words.name(b"dcm=")?;
    let volumes = words.names(alloc, b"vols=")?;
    words.end()?;
    Ok(ScriptLine::Rvg {
        site,
        srl,
        dcm,
        volumes,
    })
}

#[tactic(auto, unfolding(crate::specs::Formats::write_format))]
fn write(words: &mut Words) -> Result<ScriptLine, Wrong>
    ensures { GivesReading (λ x. x) result (read_by write_format words.old.left.now) }
{
    let site = words.name(b"")?;
    let volume = words.name(b"")?;
    let block = words.number(b"")?;
    let count = words.number(b"")?;
    let fill = words.byte()?;
    words.end()?;
    Ok(ScriptLine::Write {
        site,
        volume,
        block,
        count,
        fill,
    })
}

#[tactic(auto, unfolding(crate::specs::Formats::put_format))]
fn put(words: &mut Words) -> Result<ScriptLine, Wrong>
    ensures { GivesReading (λ x. x) result (read_by put_format words.old.left.now) }
{
    let site = words.name(b"")?;
    let volume = words.name(b"")?;
    let block = words.number(b"")?;
    let bytes = words.block()?;
    words.end()?;
    Ok(ScriptLine::Put {
        site,
        volume,
        block,
        bytes,
    })
}

#[tactic(auto, unfolding(crate::specs::Formats::deliver_format))]
fn deliver(words: &mut Words) -> Result<ScriptLine, Wrong>
    ensures { GivesReading (λ x. x) result (read_by deliver_format words.old.left.now) }
{
    let packet = words.number(b"")?;
    words.end()?;
    Ok(ScriptLine::Deliver { packet })
}

#[tactic(auto, unfolding(crate::specs::Formats::of_site_format))]
fn of_site(verb: SiteVerb, words: &mut Words) -> Result<ScriptLine, Wrong>
    ensures { GivesReading (λ x. x) result (read_by (of_site_format verb) words.old.left.now) }
{
    let site = words.name(b"")?;
    words.end()?;
    Ok(match verb {
        SiteVerb::Raw => ScriptLine::Raw { site },
        SiteVerb::Recover => ScriptLine::Recover { site },
        SiteVerb::Takeover => ScriptLine::Takeover { site },
        SiteVerb::Status => ScriptLine::Status { site },
    })
}

#[tactic(auto, unfolding(crate::specs::Formats::of_number_format))]
fn of_number(verb: NumberVerb, words: &mut Words) -> Result<ScriptLine, Wrong>
    ensures { GivesReading (λ x. x) result (read_by (of_number_format verb) words.old.left.now) }
{
    let site = words.name(b"")?;
    let number = words.number(b"")?;
    words.end()?;
    Ok(match verb {
        NumberVerb::Crash => ScriptLine::Crash { site, pick: number },
        NumberVerb::Apply => ScriptLine::Apply {
            site,
            count: number,
        },
        NumberVerb::Wait => ScriptLine::Wait { site, number },
        NumberVerb::Burst => ScriptLine::Burst {
            site,
            threads: number,
        },
    })
}

#[tactic(auto, unfolding(crate::specs::Formats::of_span_format))]
fn of_span(verb: SpanVerb, words: &mut Words) -> Result<ScriptLine, Wrong>
    ensures { GivesReading (λ x. x) result (read_by (of_span_format verb) words.old.left.now) }
{
    let site = words.name(b"")?;
    let volume = words.name(b"")?;
    let block = words.number(b"")?;
    let count = words.number(b"")?;
    words.end()?;
    Ok(match verb {
        SpanVerb::Read => ScriptLine::Read {
            site,
            volume,
            block,
            count,
        },
        SpanVerb::Show => ScriptLine::Show {
            site,
            volume,
            block,
            count,
        },
    })
}

#[tactic(auto, unfolding(crate::specs::Formats::of_link_format))]
fn of_link(verb: LinkVerb, words: &mut Words) -> Result<ScriptLine, Wrong>
    ensures { GivesReading (λ x. x) result (read_by (of_link_format verb) words.old.left.now) }
{
    let primary = words.name(b"")?;
    let other = words.name(b"")?;
    let sync = words.one_of(&SYNC_MODES)?;
    let prot = words.one_of(&PROTS)?;
    words.end()?;
    Ok(match verb {
        LinkVerb::Link => ScriptLine::Link {
            primary,
            secondary: other,
            sync,
            prot,
        },
        LinkVerb::Set => ScriptLine::Set {
            primary,
            secondary: other,
            sync,
            prot,
        },
        LinkVerb::Bunker => ScriptLine::Bunker {
            primary,
            bunker: other,
            sync,
            prot,
        },
    })
}

#[tactic(auto, unfolding(crate::specs::Formats::of_pair_format))]
fn of_pair(verb: PairVerb, words: &mut Words) -> Result<ScriptLine, Wrong>
    ensures { GivesReading (λ x. x) result (read_by (of_pair_format verb) words.old.left.now) }
{
    let primary = words.name(b"")?;
    let secondary = words.name(b"")?;
    words.end()?;
    Ok(match verb {
        PairVerb::Attach => ScriptLine::Attach { primary, secondary },
        PairVerb::Detach => ScriptLine::Detach { primary, secondary },
        PairVerb::Pause => ScriptLine::Pause { primary, secondary },
        PairVerb::Resume => ScriptLine::Resume { primary, secondary },
        PairVerb::Connect => ScriptLine::Connect { primary, secondary },
        PairVerb::Cut => ScriptLine::Cut { primary, secondary },
        PairVerb::Pump => ScriptLine::Pump { primary, secondary },
        PairVerb::Tick => ScriptLine::Tick { primary, secondary },
        PairVerb::Settle => ScriptLine::Settle { primary, secondary },
        PairVerb::Resync => ScriptLine::Resync { primary, secondary },
        PairVerb::Migrate => ScriptLine::Migrate { primary, secondary },
        PairVerb::Failback => ScriptLine::Failback {
            new: primary,
            old: secondary,
        },
        PairVerb::Activate => ScriptLine::Activate {
            bunker: primary,
            secondary,
        },
    })
}

#[tactic(auto, unfolding(crate::specs::Formats::call_format, crate::specs::Formats::call_more))]
fn call(words: &mut Words) -> Result<ScriptLine, Wrong>
    ensures { GivesReading (λ x. x) result (read_by call_format words.old.left.now) }
{
    let thread = words.number(b"")?;
    let verb = words.one_of(&CALL_VERBS)?;
    let volume = words.name(b"")?;
    let block = words.number(b"")?;
    match verb {
        CallVerb::CallsWrite => {
            let count = words.number(b"")?;
            let fill = words.byte()?;
            words.end()?;
            Ok(ScriptLine::CallWrite {
                thread,
                volume,
                block,
                count,
                fill,
            })
        }
        CallVerb::CallsRead => {
            words.end()?;
            Ok(ScriptLine::CallRead {
                thread,
                volume,
                block,
            })
        }
    }
}

/// What follows a keyword.
#[tactic(auto, unfolding(crate::specs::Formats::end_format))]
pub fn after_keyword(
    alloc: Global,
    keyword: Keyword,
    words: &mut Words,
) -> Result<ScriptLine, Wrong>
    ensures { GivesReading (λ x. x) result (read_by (format_of keyword) words.old.left.now) }
{
    match keyword {
        Keyword::Site => site(words),
        Keyword::Disk => disk(words),
        Keyword::Fuse => fuse(words),
        Keyword::Group => group(words),
        Keyword::Volume => volume(words),
        Keyword::Plex => plex(words),
        Keyword::Rvg => rvg(alloc, words),
        Keyword::Write => write(words),
        Keyword::Put => put(words),
        Keyword::Deliver => deliver(words),
        Keyword::Call => call(words),
        Keyword::End => {
            words.end()?;
            Ok(ScriptLine::End)
        }
        Keyword::OfSite(verb) => of_site(verb, words),
        Keyword::OfNumber(verb) => of_number(verb, words),
        Keyword::OfSpan(verb) => of_span(verb, words),
        Keyword::OfLink(verb) => of_link(verb, words),
        Keyword::OfPair(verb) => of_pair(verb, words),
    }
}
