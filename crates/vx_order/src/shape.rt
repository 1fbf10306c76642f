// The tests of a site's disks, and of what they and their volumes can be made.
ghost use Rattle.std.specs.Prelude.{◌≡◌};
ghost use Rattle.std.specs.Option.{option_copied};
ghost use Rattle.vx_order.specs.Shapes.{most_disk_blocks, taken, over_limit, wrong_size, raw_role, raw_size, disk_unknown, line_role, line_unknown, site_limit};

use crate::facts::SiteFacts;
use crate::grouping::{
    refuse_deported, refuse_group_size, refuse_no_group, refuse_no_rvg, refuse_not_deported,
};
use crate::replicating::{fits_group, refuse_group_taken, refuse_members};
use crate::sites::find_site;
use crate::volumes::{
    is_volume_shape, refuse_plex, refuse_preferred, refuse_volume_limit, refuse_volume_taken,
};
use vx_model::limits::{
    LEAST_BLOCKS, MOST_DISKS, MOST_FILE_BLOCKS, MOST_MEMORY_BLOCKS, MOST_SITES,
};
use vx_model::{Counted, Named, No, SiteState, is_raw_shape, limit};
use vx_script::ScriptLine;

/// 5, where the line's site does not stand as the line needs it.
#[tactic(auto, unfolding(crate::specs::Shapes::line_role))]
pub fn refuse_line_role(line: &ScriptLine, site: Option<&SiteFacts>) -> Option<No>
    ensures { result ≡ line_role line.now (option_copied site.entry) }
{
    match line {
        ScriptLine::Raw { .. } | ScriptLine::GroupInit { .. } => refuse_not_bare(site),
        ScriptLine::Recover { .. } => refuse_deported(site),
        ScriptLine::GroupImport { .. } => refuse_not_deported(site),
        ScriptLine::GroupDeport { .. }
        | ScriptLine::Volume { .. }
        | ScriptLine::PlexDetach { .. }
        | ScriptLine::PlexAttach { .. }
        | ScriptLine::Rvg { .. } => refuse_no_group(site),
        ScriptLine::Apply { .. } => refuse_no_rvg(site),
        _ => None,
    }
}

fn refuse_not_bare(site: Option<&SiteFacts>) -> Option<No>
    ensures { result ≡ raw_role (option_copied site.entry) }
{
    match site {
        Some(site) if site.state != SiteState::Bare => Some(No::Role),
        _ => None,
    }
}

/// 1, where the line names a disk, volume or plex that the site has not.
#[tactic(auto, unfolding(crate::specs::Shapes::line_unknown))]
pub fn refuse_line_unknown(line: &ScriptLine, site: Option<&SiteFacts>) -> Option<No>
    ensures { result ≡ line_unknown line.now (option_copied site.entry) }
{
    match line {
        ScriptLine::Disk { disk, .. } => refuse_disk(*disk, site),
        ScriptLine::Volume {
            mirrors,
            policy,
            ..
        } => refuse_preferred(policy, *mirrors),
        ScriptLine::PlexDetach { volume, plex, .. } | ScriptLine::PlexAttach { volume, plex, .. } =>
            refuse_plex(site, volume, *plex),
        ScriptLine::Rvg {
            srl,
            dcm,
            volumes,
            ..
        } => refuse_members(site, srl, dcm, volumes.as_slice()),
        _ => None,
    }
}

fn refuse_disk(disk: u64, site: Option<&SiteFacts>) -> Option<No>
    ensures { result ≡ disk_unknown disk (option_copied site.entry) }
{
    match site {
        Some(site) if u64::from(site.disks) <= disk => Some(No::Unknown {
            what: Named::Number(disk),
        }),
        _ => None,
    }
}

/// 2, where a site of the name is there, or the site has a volume of the name or a replicated volume group.
#[tactic(auto, unfolding(crate::specs::Shapes::taken))]
pub fn refuse_taken(sites: &[SiteFacts], line: &ScriptLine, site: Option<&SiteFacts>) -> Option<No>
    ensures { result ≡ taken sites.now line.now (option_copied site.entry) }
{
    match line {
        ScriptLine::Site { site, .. } => match find_site(sites, site) {
            Some(_) => Some(No::Exists { name: *site }),
            None => None,
        },
        ScriptLine::Volume { volume, .. } => refuse_volume_taken(site, volume),
        ScriptLine::Rvg { .. } => refuse_group_taken(site),
        _ => None,
    }
}

/// 19, where a site would be too many or too large, or a volume too many or of too many plexes.
#[tactic(auto, unfolding(crate::specs::Shapes::over_limit))]
pub fn refuse_limit(
    sites: usize,
    files: bool,
    line: &ScriptLine,
    site: Option<&SiteFacts>,
) -> Option<No>
    ensures { result ≡ over_limit sites files line.now (option_copied site.entry) }
{
    match line {
        ScriptLine::Site { disks, blocks, .. } => refuse_site_limit(sites, files, *disks, *blocks),
        ScriptLine::Volume { mirrors, .. } => refuse_volume_limit(site, *mirrors),
        _ => None,
    }
}

fn refuse_site_limit(sites: usize, files: bool, disks: u64, blocks: u64) -> Option<No>
    ensures { result ≡ site_limit sites files disks blocks }
{
    let most = greatest_size(files);
    if sites >= MOST_SITES {
        Some(limit(Counted::Sites, MOST_SITES as u64))
    } else if disks > u64::from(MOST_DISKS) {
        Some(limit(Counted::Disks, u64::from(MOST_DISKS)))
    } else if blocks > most {
        Some(limit(Counted::Blocks, most))
    } else {
        None
    }
}

fn greatest_size(files: bool) -> u64
    ensures { result ≡ most_disk_blocks files }
{
    if files {
        MOST_FILE_BLOCKS
    } else {
        MOST_MEMORY_BLOCKS
    }
}

/// 4, where a site's disks are too few or too small, or make no raw set or group, or where volumes have no shape or are no
/// replicated volume group.
#[tactic(auto, unfolding(crate::specs::Shapes::wrong_size))]
pub fn refuse_size(line: &ScriptLine, site: Option<&SiteFacts>) -> Option<No>
    ensures { result ≡ wrong_size line.now (option_copied site.entry) }
{
    match line {
        ScriptLine::Site { disks, blocks, .. } if *disks == 0 || *blocks < LEAST_BLOCKS => Some(
            No::Size,
        ),
        ScriptLine::Raw { .. } => refuse_raw_size(site),
        ScriptLine::GroupInit { .. } => refuse_group_size(site),
        ScriptLine::Volume {
            blocks,
            mirrors,
            layout,
            ..
        } if !is_volume_shape(*blocks, *mirrors, layout) => Some(No::Size),
        ScriptLine::Rvg {
            srl,
            dcm,
            volumes,
            ..
        } if !fits_group(site, srl, dcm, volumes.as_slice()) => Some(No::Size),
        _ => None,
    }
}

fn refuse_raw_size(site: Option<&SiteFacts>) -> Option<No>
    ensures { result ≡ raw_size (option_copied site.entry) }
{
    match site {
        Some(site) if !is_raw_shape(site.disks, site.blocks) => Some(No::Size),
        _ => None,
    }
}
