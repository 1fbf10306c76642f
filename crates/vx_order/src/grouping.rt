// The tests of a disk group as a whole.
ghost use Rattle.std.specs.Prelude.{◌≡◌};
ghost use Rattle.std.specs.Option.{option_copied};
ghost use Rattle.vx_order.specs.Grouping.{group_role, import_role, recover_role, apply_role, group_size};

use crate::facts::SiteFacts;
use crate::sites::find_rvg;
use vx_model::limits::LEAST_GROUP_BLOCKS;
use vx_model::{No, SiteState};

/// 5, where the site is not up as a disk group.
pub fn refuse_no_group(site: Option<&SiteFacts>) -> Option<No>
    ensures { result ≡ group_role (option_copied site.entry) }
{
    match site {
        Some(site) if !(site.state == SiteState::Up && site.grouped) => Some(No::Role),
        _ => None,
    }
}

/// 5, where the site is not deported.
pub fn refuse_not_deported(site: Option<&SiteFacts>) -> Option<No>
    ensures { result ≡ import_role (option_copied site.entry) }
{
    match site {
        Some(site) if site.state != SiteState::Deported => Some(No::Role),
        _ => None,
    }
}

/// 5, where the site is deported.
pub fn refuse_deported(site: Option<&SiteFacts>) -> Option<No>
    ensures { result ≡ recover_role (option_copied site.entry) }
{
    match site {
        Some(site) if site.state == SiteState::Deported => Some(No::Role),
        _ => None,
    }
}

/// 5, where the site has no replicated volume group, and is no bunker.
pub fn refuse_no_rvg(site: Option<&SiteFacts>) -> Option<No>
    ensures { result ≡ apply_role (option_copied site.entry) }
{
    match site {
        Some(_) if find_rvg(site).is_none() => Some(No::Role),
        _ => None,
    }
}

/// 4, where the disks are too small for a disk group.
pub fn refuse_group_size(site: Option<&SiteFacts>) -> Option<No>
    ensures { result ≡ group_size (option_copied site.entry) }
{
    match site {
        Some(site) if site.blocks < LEAST_GROUP_BLOCKS => Some(No::Size),
        _ => None,
    }
}
