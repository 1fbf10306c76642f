// The links of a site, by the numbers of the sites to which they go.
ghost use Rattle.std.specs.Prelude.{◌≡◌, ◌==◌};
ghost use Rattle.std.specs.List.{find, position};
ghost use Rattle.std.specs.Option.{option_copied};
ghost use Rattle.std.specs.Str.{bytes_eq};
ghost use Rattle.vx_order.specs.Links.{place_named, site_name as name_of, link_to, link_towards, link_count};

use crate::facts::{LinkFacts, SiteFacts};
use vx_model::{Name, SiteName, SiteState};

/// The number of the site that a line names.
pub fn find_number(sites: &[SiteFacts], name: Option<Name>) -> Option<usize>
    ensures { result ≡ place_named sites.now name }
{
    match name {
        Some(name) => find_place(sites, &name),
        None => None,
    }
}

fn find_place(sites: &[SiteFacts], name: &Name) -> Option<usize>
    ensures { result ≡ position (λ site. bytes_eq site.name name.now) sites.now }
{
    sites
        .iter()
        .position(|site| site.name.as_bytes() == name.as_bytes())
}

/// The name of the site of this number, or the number where there is none.
pub fn name_at(sites: &[SiteFacts], number: u32) -> SiteName
    ensures { result ≡ name_of sites.now number }
{
    match sites.get(number as usize) {
        Some(site) => SiteName::Known(site.name),
        None => SiteName::Number(number),
    }
}

/// The link of a site, which only an up site has, to the one of this number.
pub fn find_link(site: Option<&SiteFacts>, there: Option<usize>) -> Option<&LinkFacts>
    ensures { option_copied result ≡ link_towards (option_copied site.entry) there }
{
    match site {
        Some(site) if site.state == SiteState::Up => find_to(site.links.as_slice(), there),
        _ => None,
    }
}

fn find_to(links: &[LinkFacts], there: Option<usize>) -> Option<&LinkFacts>
    ensures { option_copied result ≡ link_to links.now there }
{
    match there {
        Some(number) => find_among(links, number),
        None => None,
    }
}

fn find_among(links: &[LinkFacts], number: usize) -> Option<&LinkFacts>
    ensures { option_copied result ≡ find (λ l. l.link.site == number) links.now }
{
    links.iter().find(|l| l.link.site as usize == number)
}

/// How many links a site has.
pub fn count_links(site: Option<&SiteFacts>) -> usize
    ensures { result ≡ link_count (option_copied site.entry) }
{
    match site {
        Some(site) if site.state == SiteState::Up => site.links.as_slice().len(),
        _ => 0,
    }
}
