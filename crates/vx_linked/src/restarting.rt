// The links of a site that comes up, by what the header of its log keeps of them.
ghost use Rattle.std.specs.Prelude.{◌≡◌, ◌≤◌, ◌<◌, [], drop, length};
ghost use Rattle.std.specs.List.{list_any};
ghost use Rattle.vx_effects.specs.Restarts.{are_fine as all_fine, fact_again, facts_again, is_failing_prot, is_fine as fine, is_plain_kept, leads_there, mode_again};
ghost use Rattle.vx_model.specs.declared.limits.TheConstants.{LINK_PLACES};

use vx_model::{KeptLink, KeptMode, Link, Mode, Prot};
use vx_order::{LinkFacts, LinkRoom, LinkTable};

fn is_failing(prot: Prot) -> bool
    ensures { result ≡ is_failing_prot prot }
{
    match prot {
        Prot::Fail => true,
        Prot::Off | Prot::Override | Prot::Dcm | Prot::Autodcm => false,
    }
}

fn is_plain(mode: KeptMode) -> bool
    ensures { result ≡ is_plain_kept mode }
{
    match mode {
        KeptMode::Log | KeptMode::Stale => true,
        KeptMode::Dcm | KeptMode::Replay | KeptMode::Fork => false,
    }
}

fn is_fine(l: &KeptLink, site: u32, sites: u32) -> bool
    ensures { result ≡ fine site sites l.now }
{
    is_failing(l.prot)
        && is_plain(l.mode)
        && !l.bunker
        && l.start == 0
        && l.site != site
        && l.site < sites
}

fn lead_there(links: &[KeptLink], site: u32) -> bool
    ensures { result ≡ list_any (leads_there site) links.now }
{
    links.iter().any(|l| l.site == site)
}

/// Whether these are links that a site of this number may keep among so many sites: by the log or waiting, each to another of them, and none
/// twice.
pub fn are_fine(links: &[KeptLink], site: u32, sites: u32) -> bool
    ensures fine { result ≡ all_fine site sites links.now }
{
    for k in 0..links.len() {
        if !is_fine(&links[k], site, sites) || lead_there(&links[k + 1..], links[k].site) {
            return false;
        }
    }
    true
}

fn mode_of(mode: KeptMode) -> Mode
    ensures { result ≡ mode_again mode }
{
    match mode {
        KeptMode::Log => Mode::Log,
        KeptMode::Dcm | KeptMode::Replay => Mode::Dcm,
        KeptMode::Fork => Mode::Fork { maps: 0 },
        KeptMode::Stale => Mode::Stale,
    }
}

fn restart(l: &KeptLink, used: u64) -> LinkFacts
    ensures { result ≡ fact_again l.now used }
{
    LinkFacts {
        link: Link {
            site: l.site,
            bunker: l.bunker,
            attached: l.attached,
            connected: false,
            paused: false,
            sync: l.sync,
            prot: l.prot,
            session: 0,
            net: l.stored,
            stored: l.stored,
            sent: l.stored,
            trimmed: 0,
            mode: mode_of(l.mode),
        },
        used,
    }
}

/// The links in memory of a site that comes up with these in its header, each with the blocks that it needs.
pub fn restart_links(room: LinkRoom, links: &[KeptLink], used: &[u64]) -> LinkTable
    requires empty { room ≡ [] }
    requires few { length links.now ≤ LINK_PLACES }
    requires used { length links.now ≤ length used.now }
    ensures links { result ≡ facts_again links.now used.now }
{
    let mut room = room;
    for k in 0..links.len() {
        room.push(restart(&links[k], used[k]));
    }
    room.into_table()
}
