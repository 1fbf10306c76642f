// Links as the header of a log keeps them.
ghost use Rattle.std.specs.Prelude.{◌≡◌, ◌≤◌, ◌<◌, ◌++◌, ◌∷◌, [], ℕ, IfSome, IsSome, eqb, length, if◌then◌else◌};
ghost use Rattle.vx_model.specs.declared.limits.TheConstants.{LINK_PLACES, MOST_LINKS};
ghost use Rattle.vx_history.specs.Events.{linked_sites};
ghost use Rattle.vx_history.specs.KeptLinks.{kept_links, kept_mode, kept_start};
ghost use Rattle.vx_history.specs.World.{World};
ghost use Rattle.vx_events.specs.LinkedFacts.{links_of_site};
ghost use Rattle.vx_effects.specs.LinkParts.{kept_over};
ghost use Rattle.vx_linked.specs.Making.{kept_each, kept_plain};

use vx_model::limits::MOST_LINKS;
use vx_model::{KeptLink, KeptLinks, KeptMode, Link, Mode};
use vx_order::LinkFacts;

fn mode_of(mode: &Mode) -> KeptMode
    ensures { result ≡ kept_mode mode.now }
{
    match mode {
        Mode::Log => KeptMode::Log,
        Mode::Dcm => KeptMode::Dcm,
        Mode::Replay { .. } => KeptMode::Replay,
        Mode::Fork { .. } => KeptMode::Fork,
        Mode::Stale => KeptMode::Stale,
    }
}

// The number at which a replay began, and 0 outside one.
fn start_of(mode: &Mode) -> u64
    ensures { result ≡ kept_start mode.now }
{
    match mode {
        Mode::Replay { start, .. } => *start,
        Mode::Log | Mode::Dcm | Mode::Fork { .. } | Mode::Stale => 0,
    }
}

/// The link, as a header keeps it.
pub fn kept_link(link: &Link) -> KeptLink
    ensures { result ≡ kept_plain link.now }
{
    KeptLink {
        site: link.site,
        attached: link.attached,
        bunker: link.bunker,
        mode: mode_of(&link.mode),
        sync: link.sync,
        prot: link.prot,
        stored: link.stored,
        start: start_of(&link.mode),
    }
}

fn keep_each(links: &[LinkFacts]) -> KeptLinks
    requires few { length links.now ≤ LINK_PLACES }
    ensures { result ≡ kept_each links.now }
{
    let mut kept = KeptLinks::new();
    for l in links {
        kept.push(kept_link(&l.link));
    }
    kept
}

/// The links of a site, as the header of its log keeps them. None where a header has no room for them.
pub fn kept_facts(links: &[LinkFacts]) -> Option<KeptLinks>
    ensures links { IfSome result (λ kept. kept ≡ kept_each links.now) }
    ensures few { IfSome result (λ kept. length kept ≤ MOST_LINKS) }
    ensures world { (w : World) (p : ℕ) → links.now ≡ links_of_site w p → IfSome result (λ kept. kept ≡ kept_links (w.links p) (linked_sites (w.links p) w.sites 0 w.sites)) }
    // It is none for no other cause.
    ensures some { length links.now ≤ MOST_LINKS → IsSome result }
{
    if links.len() as u64 > MOST_LINKS {
        return None;
    }
    Some(keep_each(links))
}

// The second link, where both lead to one site, or else the first one.
fn put_over(l: KeptLink, link: KeptLink) -> KeptLink
    ensures { result ≡ (if eqb l.site link.site then link else l) }
{
    if l.site == link.site { link } else { l }
}

/// These links of a header, with this one in place of the one to its site.
pub fn kept_with(links: &[KeptLink], link: &Link) -> KeptLinks
    requires few { length links.now ≤ LINK_PLACES }
    ensures links { result ≡ kept_over (kept_plain link.now) links.now }
{
    let next = kept_link(link);
    let mut kept = KeptLinks::new();
    for l in links {
        kept.push(put_over(*l, next));
    }
    kept
}

/// These links of a header, with this one behind them.
pub fn kept_further(links: &KeptLinks, link: &Link) -> KeptLinks
    requires room { length links.now < LINK_PLACES }
    ensures links { result ≡ links.now ++ kept_plain link.now ∷ [] }
{
    let mut kept = links.copy();
    kept.push(kept_link(link));
    kept
}
