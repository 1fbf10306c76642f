// The tests of the sites that a line names.
ghost use Rattle.std.specs.Prelude.{◌≡◌};
ghost use Rattle.std.specs.List.{find};
ghost use Rattle.std.specs.Option.{option_copied};
ghost use Rattle.std.specs.Str.{bytes_eq};
ghost use Rattle.vx_order.specs.Sites.{site_named, named_facts, site_off, site_gone, volume_of, rvg_of, unknown_one, down_by, halted_one, halted_by};

use crate::facts::{RvgFacts, SiteFacts, VolumeFacts};
use crate::first::first_of;
use crate::subject::{Halt, Need};
use vx_model::{Name, Named, No, SiteState};

/// The facts of the site of this name.
pub fn find_site<'a>(sites: &'a [SiteFacts], name: &Name) -> Option<&'a SiteFacts>
    ensures { option_copied result ≡ site_named sites.now name.now }
{
    sites
        .iter()
        .find(|site| site.name.as_bytes() == name.as_bytes())
}

/// The facts of the site that a line names.
pub fn find_facts(sites: &[SiteFacts], name: Option<Name>) -> Option<&SiteFacts>
    ensures { option_copied result ≡ named_facts sites.now name }
{
    match name {
        Some(name) => find_site(sites, &name),
        None => None,
    }
}

/// The volume of this name, which only an up site has.
pub fn find_volume<'a>(site: Option<&'a SiteFacts>, name: &Name) -> Option<&'a VolumeFacts>
    ensures { option_copied result ≡ volume_of (option_copied site.entry) name.now }
{
    match site {
        Some(site) if site.state == SiteState::Up => find_named(site.volumes.as_slice(), name),
        _ => None,
    }
}

fn find_named<'a>(volumes: &'a [VolumeFacts], name: &Name) -> Option<&'a VolumeFacts>
    ensures { option_copied result ≡ find (λ volume. bytes_eq volume.name name.now) volumes.now }
{
    volumes
        .iter()
        .find(|volume| volume.name.as_bytes() == name.as_bytes())
}

/// The replicated volume group, which only an up site has.
pub fn find_rvg(site: Option<&SiteFacts>) -> Option<RvgFacts>
    ensures { result ≡ rvg_of (option_copied site.entry) }
{
    match site {
        Some(site) if site.state == SiteState::Up => site.rvg,
        _ => None,
    }
}

/// 1, where a site that the line names is not known.
pub fn refuse_unknown_site(name: Option<Name>, site: Option<&SiteFacts>) -> Option<No>
    ensures { result ≡ unknown_one name (option_copied site.entry) }
{
    match name {
        Some(name) => match site {
            Some(_) => None,
            None => Some(No::Unknown {
                what: Named::Of(name),
            }),
        },
        None => None,
    }
}

/// 6, where a site that has to be up is not.
pub fn refuse_not_up(
    need: Need,
    first: Option<&SiteFacts>,
    second: Option<&SiteFacts>,
) -> Option<No>
    ensures { result ≡ down_by need (option_copied first.entry) (option_copied second.entry) }
{
    let down = match need {
        Need::Nothing => false,
        Need::FirstUp => is_off(first),
        Need::FirstUpOrBare => is_gone(first),
        Need::BothUp => is_off(first) || is_off(second),
        Need::SecondUpOrBare => is_off(first) || is_gone(second),
    };
    if down { Some(No::Down) } else { None }
}

fn is_off(site: Option<&SiteFacts>) -> bool
    ensures { result ≡ site_off (option_copied site.entry) }
{
    match site {
        Some(site) => site.state != SiteState::Up,
        None => false,
    }
}

fn is_gone(site: Option<&SiteFacts>) -> bool
    ensures { result ≡ site_gone (option_copied site.entry) }
{
    match site {
        Some(site) => site.state != SiteState::Up && site.state != SiteState::Bare,
        None => false,
    }
}

/// 20, where a site that must not be halted is.
pub fn refuse_halted(
    halt: Halt,
    first: Option<&SiteFacts>,
    second: Option<&SiteFacts>,
) -> Option<No>
    ensures { result ≡ halted_by halt (option_copied first.entry) (option_copied second.entry) }
{
    match halt {
        Halt::Neither => None,
        Halt::First => refuse_halted_site(first),
        Halt::Both => first_of(&[refuse_halted_site(first), refuse_halted_site(second)]),
    }
}

fn refuse_halted_site(site: Option<&SiteFacts>) -> Option<No>
    ensures { result ≡ halted_one (option_copied site.entry) }
{
    match find_rvg(site) {
        Some(rvg) => match rvg.halted {
            Some(disk) => Some(No::Halted { disk }),
            None => None,
        },
        None => None,
    }
}
