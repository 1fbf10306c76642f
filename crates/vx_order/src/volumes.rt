// The tests of a volume of a disk group and of its plexes.
ghost use Rattle.std.specs.Prelude.{◌≡◌};
ghost use Rattle.std.specs.Option.{option_copied};
ghost use Rattle.vx_order.specs.Sites.{volume_of};
ghost use Rattle.vx_order.specs.Volumes.{preferred_unknown, plex_unknown, volume_taken, volume_count, volume_limit, is_layout as is_layout_is, is_volume_shape as is_volume_shape_is};

use crate::facts::{SiteFacts, VolumeFacts};
use crate::sites::find_volume;
use vx_model::limits::{MOST_COLUMNS, MOST_PLEXES, MOST_VOLUME_BLOCKS, MOST_VOLUMES};
use vx_model::{Counted, Name, Named, No, SiteState};
use vx_script::{Layout, ReadPolicy};

/// The blocks that a column's unit has fewer of.
const UNIT_BOUND: u64 = 4_294_967_296;

/// 1, where the plex that is read first is none of those that are made.
pub fn refuse_preferred(policy: &ReadPolicy, mirrors: u64) -> Option<No>
    ensures { result ≡ preferred_unknown policy.now mirrors }
{
    match policy {
        ReadPolicy::Prefer { plex } if mirrors <= *plex => Some(No::Unknown {
            what: Named::Number(*plex),
        }),
        _ => None,
    }
}

/// 1, where the site has no such volume, or the volume no such plex.
pub fn refuse_plex(site: Option<&SiteFacts>, name: &Name, plex: u64) -> Option<No>
    ensures { result ≡ plex_unknown (volume_of (option_copied site.entry) name.now) name.now plex }
{
    refuse_plex_of(find_volume(site, name), name, plex)
}

fn refuse_plex_of(volume: Option<&VolumeFacts>, name: &Name, plex: u64) -> Option<No>
    ensures { result ≡ plex_unknown (option_copied volume.entry) name.now plex }
{
    match volume {
        Some(volume) if u64::from(volume.plexes) <= plex => Some(No::Unknown {
            what: Named::Number(plex),
        }),
        Some(_) => None,
        None => Some(No::Unknown {
            what: Named::Of(*name),
        }),
    }
}

/// 2, where the site has a volume of this name.
pub fn refuse_volume_taken(site: Option<&SiteFacts>, name: &Name) -> Option<No>
    ensures { result ≡ volume_taken (volume_of (option_copied site.entry) name.now) name.now }
{
    refuse_found(find_volume(site, name), name)
}

fn refuse_found(volume: Option<&VolumeFacts>, name: &Name) -> Option<No>
    ensures { result ≡ volume_taken (option_copied volume.entry) name.now }
{
    match volume {
        Some(_) => Some(No::Exists { name: *name }),
        None => None,
    }
}

fn count_volumes(site: Option<&SiteFacts>) -> usize
    ensures { result ≡ volume_count (option_copied site.entry) }
{
    match site {
        Some(site) if site.state == SiteState::Up => site.volumes.as_slice().len(),
        _ => 0,
    }
}

/// 19, where the group has all the volumes that it may have, or the new one is to have too many plexes.
pub fn refuse_volume_limit(site: Option<&SiteFacts>, mirrors: u64) -> Option<No>
    ensures { result ≡ volume_limit (volume_count (option_copied site.entry)) mirrors }
{
    refuse_counts(count_volumes(site), mirrors)
}

fn refuse_counts(volumes: usize, mirrors: u64) -> Option<No>
    ensures { result ≡ volume_limit volumes mirrors }
{
    if volumes >= MOST_VOLUMES {
        Some(No::Limit {
            what: Counted::Volumes,
            most: MOST_VOLUMES as u64,
        })
    } else if mirrors > MOST_PLEXES as u64 {
        Some(No::Limit {
            what: Counted::Plexes,
            most: MOST_PLEXES as u64,
        })
    } else {
        None
    }
}

fn is_layout(layout: &Layout) -> bool
    ensures { result ≡ is_layout_is layout.now }
{
    match layout {
        Layout::Concat => true,
        Layout::Stripe { columns, width } => {
            *columns >= 1
                && *columns <= u64::from(MOST_COLUMNS)
                && *width >= 1
                && *width < UNIT_BOUND
        }
    }
}

/// Whether a volume may have so many blocks and plexes, and be laid out like this.
pub fn is_volume_shape(blocks: u64, mirrors: u64, layout: &Layout) -> bool
    ensures { result ≡ is_volume_shape_is blocks mirrors layout.now }
{
    blocks >= 1 && blocks <= MOST_VOLUME_BLOCKS && mirrors >= 1 && is_layout(layout)
}
