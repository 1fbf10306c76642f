// The tests of a write by the links of its site.
ghost use Rattle.std.specs.Prelude.{◌≡◌};
ghost use Rattle.std.specs.Option.{option_copied};
ghost use Rattle.vx_history.specs.Admission.{held_by_room};
ghost use Rattle.vx_policy.specs.Verdicts.{refusal_if};
ghost use Rattle.vx_order.specs.Holding as holding;

use crate::facts::{LinkFacts, RvgFacts, SiteFacts, VolumeFacts, VolumeKind};
use crate::links::name_at;
use crate::sites::find_volume;
use crate::span::{Span, Way};
use vx_model::limits::MOST_CALL_BLOCKS;
use vx_model::{No, SiteName, SiteState};
use vx_policy::{is_down, refuse_full};

// The blocks that a run of blocks takes in the log, of a write that is logged.
fn find_record(site: Option<&SiteFacts>, span: &Option<Span>) -> Option<u64>
    ensures { result ≡ holding.span_record (option_copied site.entry) span.now }
{
    match span {
        Some(span) => record_of(find_volume(site, &span.volume), span),
        None => None,
    }
}

fn record_of(volume: Option<&VolumeFacts>, span: &Span) -> Option<u64>
    ensures { result ≡ holding.record_size (option_copied volume.entry) span.now }
{
    match volume {
        Some(volume)
            if span.way == Way::Writes
                && volume.kind == VolumeKind::Data
                && span.count <= MOST_CALL_BLOCKS => { Some(span.count + 1) }
        _ => None,
    }
}

/// 14, where a link has to confirm the write and is down.
pub fn refuse_down_link(
    sites: &[SiteFacts],
    site: Option<&SiteFacts>,
    span: &Option<Span>,
) -> Option<No>
    ensures { result ≡ holding.span_down sites.now (option_copied site.entry) span.now }
{
    match find_record(site, span) {
        Some(_) => refuse_down_at(sites, site),
        None => None,
    }
}

fn refuse_down_at(sites: &[SiteFacts], site: Option<&SiteFacts>) -> Option<No>
    ensures { result ≡ holding.down_at sites.now (option_copied site.entry) }
{
    match site {
        Some(site) if site.state == SiteState::Up => first_down(sites, site.links.as_slice()),
        _ => None,
    }
}

fn first_down(sites: &[SiteFacts], links: &[LinkFacts]) -> Option<No>
    ensures { result ≡ holding.down_link sites.now links.now }
{
    for l in links {
        if is_down(&l.link) {
            return Some(No::LinkDown {
                link: name_at(sites, l.link.site),
            });
        }
    }
    None
}

/// 12 or 13, where a link leaves too little room for the write.
pub fn refuse_full_log(
    sites: &[SiteFacts],
    site: Option<&SiteFacts>,
    span: &Option<Span>,
) -> Option<No>
    ensures { result ≡ holding.span_full sites.now (option_copied site.entry) span.now }
{
    match find_record(site, span) {
        Some(need) => refuse_full_at(sites, site, need),
        None => None,
    }
}

fn refuse_full_at(sites: &[SiteFacts], site: Option<&SiteFacts>, need: u64) -> Option<No>
    ensures { result ≡ holding.full_at sites.now (option_copied site.entry) need }
{
    match site {
        Some(site) if site.state == SiteState::Up => {
            refuse_full_in(sites, need, site.rvg, site.links.as_slice())
        }
        _ => None,
    }
}

fn refuse_full_in(
    sites: &[SiteFacts],
    need: u64,
    rvg: Option<RvgFacts>,
    links: &[LinkFacts],
) -> Option<No>
    ensures { result ≡ holding.full_in sites.now need rvg links.now }
{
    match rvg {
        Some(rvg) => first_full(sites, need, rvg.ring, links),
        None => None,
    }
}

fn first_full(sites: &[SiteFacts], need: u64, room: u64, links: &[LinkFacts]) -> Option<No>
    ensures { result ≡ holding.full_link sites.now need room links.now }
{
    for l in links {
        let full = refuse_link(sites, need, room, l);
        if full.is_some() {
            return full;
        }
    }
    None
}

fn refuse_link(sites: &[SiteFacts], need: u64, room: u64, l: &LinkFacts) -> Option<No>
    ensures { result ≡ holding.full_by sites.now need room l.now }
{
    named(
        name_at(sites, l.link.site),
        refuse_full(&l.link, l.used, need, room),
    )
}

// A refusal by a link, with the name of its site.
fn named(name: SiteName, refused: Option<No>) -> Option<No>
    ensures { result ≡ holding.with_name name refused }
{
    match refused {
        Some(No::LogFull { .. }) => Some(No::LogFull { link: name }),
        Some(No::Stalled { .. }) => Some(No::Stalled { link: name }),
        other => other,
    }
}
