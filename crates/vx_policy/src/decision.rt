// The rule of admission, over the links of a site in the order of their making.
ghost use Rattle.std.specs.Prelude.{◌≡◌, ◌≤◌, length, zip};
ghost use Rattle.vx_history.specs.Admission.{admit, first_down, first_full, changes};
ghost use Rattle.vx_policy.specs.Verdicts.{verdict, refusal_if, bit_for, bits_for, goes_stale, goes_dcm};
ghost use Rattle.vx_policy.specs.declared.verdict.Verdict.TheVariants.{Go};

use crate::full::{find_change, is_down, refuse_full};
use crate::{Facts, Verdict};
use vx_history::Change;
use vx_model::limits::LINK_PLACES;
use vx_model::{Link, No, SiteName};

/// Whether a write is let in, over the links of its site in the order of their making.
///
/// It is refused with 14 for the first attached link with synchronous=fail that is not live or not in mode Log. Else it is
/// refused with 12 or 13 for the first link that leaves too little room and says so. Else it is let in, and each link that leaves
/// too little room is given up or goes by a map.
pub fn decide(links: &[Link], facts: &Facts) -> Verdict
    requires few { length links.now ≤ LINK_PLACES }
    ensures { result ≡ verdict (admit facts.now.need facts.now.room links.now facts.now.used) }
{
    if let Some(no) = refuse_down(links) {
        return Verdict::Refuse(no);
    }
    if let Some(no) = refuse_first_full(links, facts) {
        return Verdict::Refuse(no);
    }
    convert(links, facts)
}

fn refuse_down(links: &[Link]) -> Option<No>
    ensures { result ≡ refusal_if (first_down links.now) }
{
    for link in links {
        if is_down(link) {
            return Some(No::LinkDown {
                link: SiteName::Number(link.site),
            });
        }
    }
    None
}

fn refuse_first_full(links: &[Link], facts: &Facts) -> Option<No>
    requires few { length links.now ≤ LINK_PLACES }
    ensures { result ≡ refusal_if (first_full facts.now.need facts.now.room (zip links.now facts.now.used)) }
{
    for at in 0..links.len() {
        let no = refuse_full(&links[at], facts.used[at], facts.need, facts.room);
        if no.is_some() {
            return no;
        }
    }
    None
}

// From the last link to the first, which is the lowest bit.
fn convert(links: &[Link], facts: &Facts) -> Verdict
    requires few { length links.now ≤ LINK_PLACES }
    ensures { result ≡ Go (bits_for goes_stale (changes facts.now.need facts.now.room (zip links.now facts.now.used))) (bits_for goes_dcm (changes facts.now.need facts.now.room (zip links.now facts.now.used))) }
{
    let count = links.len();
    let mut stale = 0;
    let mut dcm = 0;
    for back in 0..count {
        let at = count - 1 - back;
        let change = find_change(&links[at], facts.used[at], facts.need, facts.room);
        stale = 2 * stale + stale_bit(change);
        dcm = 2 * dcm + dcm_bit(change);
    }
    Verdict::Go { stale, dcm }
}

fn stale_bit(change: Change) -> u8
    ensures { result ≡ bit_for (goes_stale change) }
{
    match change {
        Change::ToStale => 1,
        Change::Stays | Change::ToDcm => 0,
    }
}

fn dcm_bit(change: Change) -> u8
    ensures { result ≡ bit_for (goes_dcm change) }
{
    match change {
        Change::ToDcm => 1,
        Change::Stays | Change::ToStale => 0,
    }
}
