// What a write of a site asks of its links in memory, and makes of them.
ghost use Rattle.std.specs.Prelude.{◌≡◌};
ghost use Rattle.vx_order.specs.Sending.{last_number};
ghost use Rattle.vx_history.specs.Admission.{is_holding as holds};
ghost use Rattle.vx_linked.specs.Holds.{awaits, awaits_one, least_hold, lesser_hold};

use vx_history::{is_held, is_live, is_waited_for};
use vx_model::{Link, Mode};
use vx_order::{LinkFacts, SiteFacts};
use vx_policy::hold_of;

pub(crate) fn is_holding(link: &Link) -> bool
    ensures { result ≡ holds link.now }
{
    link.attached && is_held(&link.mode)
}

fn lesser(number: u64, l: &LinkFacts) -> u64
    ensures { result ≡ lesser_hold number l.now }
{
    if is_holding(&l.link) {
        number.min(hold_of(&l.link))
    } else {
        number
    }
}

fn last(site: &SiteFacts) -> u64
    ensures { result ≡ last_number site.now.rvg }
{
    match site.rvg {
        Some(rvg) => rvg.last,
        None => 0,
    }
}

/// The number up to which no link of the site needs anything of its log: the least hold of those that need it, or else the last number.
pub fn hold_of_site(site: &SiteFacts) -> u64
    ensures hold { result ≡ least_hold site.now }
{
    let mut number = last(site);
    for l in site.links.as_slice() {
        number = lesser(number, l);
    }
    number
}

fn is_awaited(l: &LinkFacts) -> bool
    ensures { result ≡ awaits l.now }
{
    is_waited_for(l.link.sync) && is_live(&l.link) && l.link.mode == Mode::Log
}

/// Whether some link of the site has to confirm a write.
pub fn awaits_write(site: &SiteFacts) -> bool
    ensures awaits { result ≡ awaits_one site.now }
{
    site.links.as_slice().iter().any(is_awaited)
}
