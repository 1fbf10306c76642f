// The tests of a further link.
ghost use Rattle.std.specs.Prelude.{◌≡◌, slice_get};
ghost use Rattle.std.specs.Option.{option_copied};
ghost use Rattle.vx_order.specs.Joining.{is_unused as unused, is_first, on_first, are_two as apart, can_link, linked_already, ask_taken, ask_limit, data_sizes, same_sizes, same_size, volumes_agree, ring_fits as fit, ask_size};

use crate::ask::Ask;
use crate::facts::{LinkFacts, RvgFacts, SiteFacts, VolumeFacts, VolumeKind};
use crate::links::{count_links, find_link};
use crate::sites::find_rvg;
use vx_model::limits::MOST_LINKS;
use vx_model::{Counted, Line, No, Role};

/// Whether the first site may link the second by the log.
pub fn may_link(
    here: Option<usize>,
    there: Option<usize>,
    first: Option<&SiteFacts>,
    second: Option<&SiteFacts>,
) -> bool
    ensures { result ≡ can_link here there (option_copied first.entry) (option_copied second.entry) }
{
    is_unused(find_rvg(first))
        && is_on_first(here, find_rvg(first))
        && differ(here, there)
        && is_unused(find_rvg(second))
        && count_links(second) == 0
}

fn is_unused(rvg: Option<RvgFacts>) -> bool
    ensures { result ≡ unused rvg }
{
    match rvg {
        Some(rvg) => rvg.role == Role::Primary && rvg.last == 0,
        None => false,
    }
}

fn is_on_first(here: Option<usize>, rvg: Option<RvgFacts>) -> bool
    ensures { result ≡ on_first here rvg }
{
    match rvg {
        Some(rvg) => is_first_line(here, &rvg.line),
        None => false,
    }
}

fn is_first_line(here: Option<usize>, line: &Line) -> bool
    ensures { result ≡ is_first here line.now }
{
    match here {
        Some(here) => line.generation == 1 && line.origin as usize == here,
        None => false,
    }
}

fn differ(here: Option<usize>, there: Option<usize>) -> bool
    ensures { result ≡ apart here there }
{
    match here {
        Some(here) => match there {
            Some(there) => !(there == here),
            None => false,
        },
        None => false,
    }
}

/// 2, where the second site is linked already.
pub fn refuse_linked(
    ask: &Option<Ask>,
    there: Option<usize>,
    first: Option<&SiteFacts>,
    second: Option<&SiteFacts>,
) -> Option<No>
    ensures { result ≡ ask_taken ask.now there (option_copied first.entry) (option_copied second.entry) }
{
    match ask {
        Some(Ask::Makes) => refuse_second(find_link(first, there), second),
        _ => None,
    }
}

fn refuse_second(link: Option<&LinkFacts>, second: Option<&SiteFacts>) -> Option<No>
    ensures { result ≡ linked_already (option_copied link.entry) (option_copied second.entry) }
{
    match link {
        Some(_) => match second {
            Some(site) => Some(No::Exists { name: site.name }),
            None => None,
        },
        None => None,
    }
}

/// 19, where the first site has all the links that it may have.
pub fn refuse_many_links(ask: &Option<Ask>, first: Option<&SiteFacts>) -> Option<No>
    ensures { result ≡ ask_limit ask.now (option_copied first.entry) }
{
    match ask {
        Some(Ask::Makes) if count_links(first) as u64 >= MOST_LINKS => Some(No::Limit {
            what: Counted::Links,
            most: MOST_LINKS,
        }),
        _ => None,
    }
}

/// 4, where the volumes differ in number or size, or the second site's log is too short.
pub fn refuse_unlike(
    ask: &Option<Ask>,
    first: Option<&SiteFacts>,
    second: Option<&SiteFacts>,
) -> Option<No>
    ensures { result ≡ ask_size ask.now (option_copied first.entry) (option_copied second.entry) }
{
    match ask {
        Some(Ask::Makes)
            if !(agree(first, second) && rings_fit(find_rvg(first), find_rvg(second))) => {
            Some(No::Size)
        }
        _ => None,
    }
}

fn rings_fit(first: Option<RvgFacts>, second: Option<RvgFacts>) -> bool
    ensures { result ≡ fit first second }
{
    match first {
        Some(first) => match second {
            Some(second) => second.ring >= 17 || first.ring <= second.ring,
            None => false,
        },
        None => false,
    }
}

fn agree(first: Option<&SiteFacts>, second: Option<&SiteFacts>) -> bool
    ensures { result ≡ volumes_agree (option_copied first.entry) (option_copied second.entry) }
{
    match first {
        Some(first) => match second {
            Some(second) => {
                let sizes = first.volumes.as_slice();
                size_at(sizes, 0).is_some() && has_same_sizes(sizes, second.volumes.as_slice())
            }
            None => false,
        },
        None => false,
    }
}

fn has_same_sizes(first: &[VolumeFacts], second: &[VolumeFacts]) -> bool
    ensures { result ≡ same_sizes (data_sizes first.now) (data_sizes second.now) }
{
    for place in 0..first.len() + 1 {
        if !is_same_size(size_at(first, place), size_at(second, place)) {
            return false;
        }
    }
    true
}

fn is_same_size(first: Option<u64>, second: Option<u64>) -> bool
    ensures { result ≡ same_size first second }
{
    match first {
        Some(first) => match second {
            Some(second) => first == second,
            None => false,
        },
        None => second.is_none(),
    }
}

// The blocks of the data volume in this place.
fn size_at(volumes: &[VolumeFacts], place: usize) -> Option<u64>
    ensures { result ≡ slice_get (data_sizes volumes.now) place }
{
    let mut left = place;
    for volume in volumes {
        if volume.kind == VolumeKind::Data {
            if left == 0 {
                return Some(volume.blocks);
            }
            left -= 1;
        }
    }
    None
}
