// The tests of a line on a link that stands, and of one that waits for links.
ghost use Rattle.std.specs.Prelude.{◌≡◌};
ghost use Rattle.std.specs.List.{list_any};
ghost use Rattle.std.specs.Option.{option_copied};
ghost use Rattle.vx_order.specs.Sending.{has_writes as may_write, sends as may_send, goes_by_nothing, is_taker as may_take, takes_from as may_take_from, leads_astray as astray, ask_role, not_linked, last_number, number_unknown, ask_unknown, cut_off, ask_down, held_up, ask_paused, is_fork as by_fork, forked, ask_replaying, lacks as lacking, unconfirmed_at, ask_unconfirmed};

use crate::ask::Ask;
use crate::facts::{LinkFacts, RvgFacts, SiteFacts};
use crate::joining::may_link;
use crate::links::find_link;
use crate::sites::find_rvg;
use vx_model::{Mode, Named, No, Role, SiteName, SiteState};
use vx_policy::is_down;

/// 5, where the sites have not the roles for what the line asks, or a link is to be settled that goes by nothing, or leads to a site that takes
/// nothing by it.
pub fn refuse_link_role(
    ask: &Option<Ask>,
    here: Option<usize>,
    there: Option<usize>,
    first: Option<&SiteFacts>,
    second: Option<&SiteFacts>,
) -> Option<No>
    ensures { result ≡ ask_role ask.now here there (option_copied first.entry) (option_copied second.entry) }
{
    let wrong = match ask {
        None => false,
        Some(Ask::Makes) => !may_link(here, there, first, second),
        Some(Ask::Sets | Ask::Waits { .. }) => !has_writes(find_rvg(first)),
        Some(Ask::Turns | Ask::Pumps) => !sends(find_rvg(first)),
        Some(Ask::Settles) => {
            !sends(find_rvg(first))
                || is_stale(find_link(first, there))
                || leads_astray(find_link(first, there), find_rvg(first), find_rvg(second))
        }
    };
    if wrong { Some(No::Role) } else { None }
}

fn has_writes(rvg: Option<RvgFacts>) -> bool
    ensures { result ≡ may_write rvg }
{
    match rvg {
        Some(rvg) => match rvg.role {
            Role::Primary | Role::Handing { .. } => true,
            Role::Secondary | Role::Bunker => false,
        },
        None => false,
    }
}

fn sends(rvg: Option<RvgFacts>) -> bool
    ensures { result ≡ may_send rvg }
{
    match rvg {
        Some(rvg) => match rvg.role {
            Role::Primary | Role::Handing { .. } | Role::Bunker => true,
            Role::Secondary => false,
        },
        None => false,
    }
}

fn is_stale(link: Option<&LinkFacts>) -> bool
    ensures { result ≡ goes_by_nothing (option_copied link.entry) }
{
    match link {
        Some(l) => match l.link.mode {
            Mode::Stale => true,
            Mode::Log | Mode::Dcm | Mode::Replay { .. } | Mode::Fork { .. } => false,
        },
        None => false,
    }
}

// Whether a link leads to a site that does not take what comes by it. One that goes by the maps of a fork may.
fn leads_astray(link: Option<&LinkFacts>, first: Option<RvgFacts>, second: Option<RvgFacts>) -> bool
    ensures { result ≡ astray (option_copied link.entry) first second }
{
    match link {
        Some(l) => !is_fork(&l.link.mode) && !takes_from(l.link.bunker, first, second),
        None => false,
    }
}

// Whether the second site takes what comes by a link, on the line of the first.
fn takes_from(bunker: bool, first: Option<RvgFacts>, second: Option<RvgFacts>) -> bool
    ensures { result ≡ may_take_from bunker first second }
{
    match first {
        Some(first) => match second {
            Some(second) => is_taker(bunker, &second.role) && second.line == first.line,
            None => false,
        },
        None => false,
    }
}

fn is_taker(bunker: bool, role: &Role) -> bool
    ensures { result ≡ may_take bunker role.now }
{
    match role {
        Role::Secondary => !bunker,
        Role::Bunker => bunker,
        Role::Primary | Role::Handing { .. } => false,
    }
}

/// 1, where the first site has no link to the second, or no write of this number.
pub fn refuse_unknown_link(
    ask: &Option<Ask>,
    there: Option<usize>,
    first: Option<&SiteFacts>,
    second: Option<&SiteFacts>,
) -> Option<No>
    ensures { result ≡ ask_unknown ask.now there (option_copied first.entry) (option_copied second.entry) }
{
    match ask {
        None | Some(Ask::Makes) => None,
        Some(Ask::Sets | Ask::Turns | Ask::Pumps | Ask::Settles) => {
            refuse_unlinked(find_link(first, there), second)
        }
        Some(Ask::Waits { number }) => refuse_number(*number, find_last(find_rvg(first))),
    }
}

fn refuse_number(number: u64, last: u64) -> Option<No>
    ensures { result ≡ number_unknown number last }
{
    if number == 0 || last < number {
        Some(No::Unknown {
            what: Named::Number(number),
        })
    } else {
        None
    }
}

fn find_last(rvg: Option<RvgFacts>) -> u64
    ensures { result ≡ last_number rvg }
{
    match rvg {
        Some(rvg) => rvg.last,
        None => 0,
    }
}

fn refuse_unlinked(link: Option<&LinkFacts>, second: Option<&SiteFacts>) -> Option<No>
    ensures { result ≡ not_linked (option_copied link.entry) (option_copied second.entry) }
{
    match link {
        Some(_) => None,
        None => match second {
            Some(site) => Some(No::Unknown {
                what: Named::Of(site.name),
            }),
            None => None,
        },
    }
}

/// 14, where the link that the line needs is not attached or not connected.
pub fn refuse_cut_off(
    ask: &Option<Ask>,
    there: Option<usize>,
    first: Option<&SiteFacts>,
    second: Option<&SiteFacts>,
) -> Option<No>
    ensures { result ≡ ask_down ask.now there (option_copied first.entry) (option_copied second.entry) }
{
    match ask {
        Some(Ask::Pumps | Ask::Settles) => refuse_cut(find_link(first, there), second),
        _ => None,
    }
}

fn refuse_cut(link: Option<&LinkFacts>, second: Option<&SiteFacts>) -> Option<No>
    ensures { result ≡ cut_off (option_copied link.entry) (option_copied second.entry) }
{
    match link {
        Some(l) => match second {
            Some(site) if !(l.link.attached && l.link.connected) => Some(No::LinkDown {
                link: SiteName::Known(site.name),
            }),
            _ => None,
        },
        None => None,
    }
}

/// 23, where the link that the line needs is paused.
pub fn refuse_paused(
    ask: &Option<Ask>,
    there: Option<usize>,
    first: Option<&SiteFacts>,
) -> Option<No>
    ensures { result ≡ ask_paused ask.now there (option_copied first.entry) }
{
    match ask {
        Some(Ask::Pumps | Ask::Settles) => refuse_held_up(find_link(first, there)),
        _ => None,
    }
}

fn refuse_held_up(link: Option<&LinkFacts>) -> Option<No>
    ensures { result ≡ held_up (option_copied link.entry) }
{
    match link {
        Some(l) if l.link.paused => Some(No::Paused),
        _ => None,
    }
}

/// 18, where the link is to be settled, and goes by the maps of a fork.
pub fn refuse_replaying(
    ask: &Option<Ask>,
    there: Option<usize>,
    first: Option<&SiteFacts>,
    second: Option<&SiteFacts>,
) -> Option<No>
    ensures { result ≡ ask_replaying ask.now there (option_copied first.entry) (option_copied second.entry) }
{
    match ask {
        Some(Ask::Settles) => refuse_fork(find_link(first, there), second),
        _ => None,
    }
}

fn refuse_fork(link: Option<&LinkFacts>, second: Option<&SiteFacts>) -> Option<No>
    ensures { result ≡ forked (option_copied link.entry) (option_copied second.entry) }
{
    match link {
        Some(l) => match second {
            Some(site) if is_fork(&l.link.mode) => Some(No::Replaying {
                link: SiteName::Known(site.name),
            }),
            _ => None,
        },
        None => None,
    }
}

fn is_fork(mode: &Mode) -> bool
    ensures { result ≡ by_fork mode.now }
{
    match mode {
        Mode::Fork { .. } => true,
        Mode::Log | Mode::Dcm | Mode::Replay { .. } | Mode::Stale => false,
    }
}

/// 15, where the write of this number cannot be confirmed as some link asks.
pub fn refuse_unconfirmed(ask: &Option<Ask>, first: Option<&SiteFacts>) -> Option<No>
    ensures { result ≡ ask_unconfirmed ask.now (option_copied first.entry) }
{
    match ask {
        Some(Ask::Waits { number }) => refuse_lacking(first, *number),
        _ => None,
    }
}

fn refuse_lacking(site: Option<&SiteFacts>, number: u64) -> Option<No>
    ensures { result ≡ unconfirmed_at (option_copied site.entry) number }
{
    match site {
        Some(site) if site.state == SiteState::Up && has_lacking(site.links.as_slice(), number) => {
            Some(No::Unconfirmed { number })
        }
        _ => None,
    }
}

fn has_lacking(links: &[LinkFacts], number: u64) -> bool
    ensures { result ≡ list_any (lacking number) links.now }
{
    links.iter().any(|l| lacks(number, l))
}

// Whether the link is down and has not confirmed the number.
fn lacks(number: u64, l: &LinkFacts) -> bool
    ensures { result ≡ lacking number l.now }
{
    is_down(&l.link) && l.link.net < number
}
