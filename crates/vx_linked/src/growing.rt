// The links of a site behind a further write of it.
ghost use Rattle.std.specs.Prelude.{◌≡◌, false, length};
ghost use Rattle.std.specs.List.{list_any};
ghost use Rattle.vx_effects.specs.Facts.{grown_link, grown_links};
ghost use Rattle.vx_linked.specs.Holds.{is_over};

use crate::holding::is_holding;
use crate::keeping::put_at;
use vx_order::{LinkFacts, SiteFacts};
use vx_policy::hold_of;

fn grow(l: &LinkFacts, number: u64, blocks: u64) -> LinkFacts
    ensures { is_over blocks l.now ≡ false → result ≡ grown_link number blocks l.now }
{
    let mut next = *l;
    if is_holding(&l.link) && hold_of(&l.link) < number {
        next.used = l.used.saturating_add(blocks);
    }
    next
}

/// Counts a write of this number and so many blocks of the log with what each link of its site needs. No link of a site in whose log the write
/// fits needs more than can be counted.
pub fn note_links(site: &mut SiteFacts, number: u64, blocks: u64)
    ensures grown { list_any (is_over blocks) site.old.links ≡ false → site.new ≡ record site.old { links = grown_links number blocks site.old.links } }
{
    let count = site.links.as_slice().len();
    for k in 0..count {
        let next = grow(&site.links.as_slice()[k], number, blocks);
        put_at(site, k, &next);
    }
}
