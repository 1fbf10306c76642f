// The tests of a replicated volume group that is made of volumes.
ghost use Rattle.std.specs.Prelude.{◌≡◌, ◌≤◌, ◌*◌, ◌∷◌, length, sum_by};
ghost use Rattle.std.specs.List.{list_any};
ghost use Rattle.std.specs.Option.{option_copied};
ghost use Rattle.std.specs.Str.{bytes_eq};
ghost use Rattle.vx_order.specs.Calls.{call_unknown};
ghost use Rattle.vx_order.specs.Replicating.{names_unknown, group_unknown, group_taken, are_distinct, volume_blocks, blocks_named as blocks_named_is, maps_named as maps_named_is, fits_group as fits_group_is};
ghost use Rattle.vx_order.specs.Sites.{rvg_of, volume_of};

use crate::facts::{RvgFacts, SiteFacts, VolumeFacts};
use crate::first::first_of;
use crate::sites::{find_rvg, find_volume};
use vx_model::limits::{LEAST_BLOCKS, LINK_PLACES, MOST_DATA_VOLUMES};
use vx_model::{Name, Named, No, map_blocks};

fn refuse_absent(volume: Option<&VolumeFacts>, name: &Name) -> Option<No>
    ensures { result ≡ call_unknown (option_copied volume.entry) name.now }
{
    match volume {
        Some(_) => None,
        None => Some(No::Unknown {
            what: Named::Of(*name),
        }),
    }
}

fn refuse_name(site: Option<&SiteFacts>, name: &Name) -> Option<No>
    ensures { result ≡ call_unknown (volume_of (option_copied site.entry) name.now) name.now }
{
    refuse_absent(find_volume(site, name), name)
}

fn refuse_names(site: Option<&SiteFacts>, names: &[Name]) -> Option<No>
    ensures { result ≡ names_unknown (option_copied site.entry) names.now }
{
    for name in names {
        let refused = refuse_name(site, name);
        if refused.is_some() {
            return refused;
        }
    }
    None
}

/// 1 of the first volume that the line names and the site has not.
pub fn refuse_members(
    site: Option<&SiteFacts>,
    srl: &Name,
    maps: &Name,
    volumes: &[Name],
) -> Option<No>
    ensures { result ≡ group_unknown (option_copied site.entry) srl.now maps.now volumes.now }
{
    first_of(&[
        refuse_name(site, srl),
        refuse_name(site, maps),
        refuse_names(site, volumes),
    ])
}

/// 2, where the site has a replicated volume group.
pub fn refuse_group_taken(site: Option<&SiteFacts>) -> Option<No>
    ensures { result ≡ group_taken (rvg_of (option_copied site.entry)) }
{
    refuse_second_group(find_rvg(site))
}

fn refuse_second_group(rvg: Option<RvgFacts>) -> Option<No>
    ensures { result ≡ group_taken rvg }
{
    match rvg {
        Some(_) => Some(No::Exists {
            name: Name::new(b"rvg"),
        }),
        None => None,
    }
}

fn is_among(name: &Name, names: &[Name]) -> bool
    ensures { result ≡ list_any (bytes_eq name.now) names.now }
{
    names
        .iter()
        .any(|other| name.as_bytes() == other.as_bytes())
}

fn differ(names: &[Name]) -> bool
    ensures { result ≡ are_distinct names.now }
{
    for i in 0..names.len() {
        if is_among(&names[i], &names[i + 1..]) {
            return false;
        }
    }
    true
}

fn are_all_distinct(srl: &Name, maps: &Name, volumes: &[Name]) -> bool
    ensures { result ≡ are_distinct (srl.now ∷ maps.now ∷ volumes.now) }
{
    srl.as_bytes() != maps.as_bytes()
        && !is_among(srl, volumes)
        && !is_among(maps, volumes)
        && differ(volumes)
}

fn blocks_of(volume: Option<&VolumeFacts>) -> u64
    ensures { result ≡ volume_blocks (option_copied volume.entry) }
{
    match volume {
        Some(volume) => volume.blocks,
        None => 0,
    }
}

fn blocks_named(site: Option<&SiteFacts>, name: &Name) -> u64
    ensures { result ≡ blocks_named_is (option_copied site.entry) name.now }
{
    blocks_of(find_volume(site, name))
}

fn map_sum(site: Option<&SiteFacts>, names: &[Name]) -> u64
    requires { length names.now ≤ MOST_DATA_VOLUMES }
    ensures value { result ≡ sum_by (maps_named_is (option_copied site.entry)) names.now }
    ensures few { result ≤ MOST_DATA_VOLUMES * 70368744177664 }
{
    let mut sum: u64 = 0;
    for name in names {
        sum += map_blocks(blocks_named(site, name));
    }
    sum
}

/// Whether the volumes of these names can be a replicated volume group.
pub fn fits_group(site: Option<&SiteFacts>, srl: &Name, maps: &Name, volumes: &[Name]) -> bool
    ensures { result ≡ fits_group_is (option_copied site.entry) srl.now maps.now volumes.now }
{
    !volumes.is_empty()
        && volumes.len() <= MOST_DATA_VOLUMES
        && are_all_distinct(srl, maps, volumes)
        && blocks_named(site, srl) >= LEAST_BLOCKS
        && LINK_PLACES as u64 * map_sum(site, volumes) <= blocks_named(site, maps)
}
