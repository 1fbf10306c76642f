// The racks of the disk sets, as they come back.
ghost use Rattle.std.specs.Prelude.{◌≡◌, ◌≤◌, ◌<◌, ◌++◌, ◌∷◌, [], map, vec_len};
ghost use Rattle.std.specs.Vec.{vec_capacity};
ghost use Rattle.vx_untold.specs.Shades.{rack_of};
ghost use Rattle.vx_yard.specs.Racks.{rack_in, racks_in, site_rack};

use crate::DiskSet;
use vx_disk::Rack;
use vx_grouped::GroupSite;
use vx_untold::Shade;

// The rack, whether its contents are told or not.
fn rack_from<R: Rack>(shade: Shade<R>) -> R
    ensures { result ≡ rack_of shade }
{
    match shade {
        Shade::Bright(rack) | Shade::Dark(rack) => rack,
    }
}

// Adds the rack of a site whose disks are a group.
fn give_site<R: Rack>(racks: &mut Vec<R>, site: GroupSite<R>)
    ensures items { vec_len racks.old < vec_capacity racks.old → racks.new.items ≡ racks.old.items ++ site_rack site }
    ensures room { vec_capacity racks.old ≤ vec_capacity racks.new }
{
    match site {
        GroupSite::Up(laid) => {
            let _ = racks.push(rack_from(laid.shelf));
        }
        GroupSite::Deported(idle) | GroupSite::Down(idle) => {
            let _ = racks.push(rack_from(idle.rack));
        }
        GroupSite::Marked(rack) => {
            let _ = racks.push(rack);
        }
        GroupSite::Gone => {}
    }
}

// Adds the rack of an disk set.
fn give_back<R: Rack>(racks: &mut Vec<R>, disk_set: DiskSet<R>)
    ensures items { vec_len racks.old < vec_capacity racks.old → racks.new.items ≡ racks.old.items ++ rack_in disk_set }
    ensures room { vec_capacity racks.old ≤ vec_capacity racks.new }
{
    match disk_set {
        DiskSet::Bare(rack) | DiskSet::Spoiled(rack) | DiskSet::Down(rack) => {
            let _ = racks.push(rack);
        }
        DiskSet::Up(rvg) => {
            let _ = racks.push(rvg.into_shelf());
        }
        DiskSet::Receives(site) => {
            let _ = racks.push(site.into_rvg().into_shelf());
        }
        DiskSet::OfGroup(group) => {
            give_site(racks, group.site);
        }
        DiskSet::Over(over) => {
            let (site, _above, _cut) = over.parts();
            give_site(racks, site);
        }
        DiskSet::Gone => {}
    }
}

/// Fills an empty list, which has room for them, with the racks of these disk sets, in order.
pub fn take_racks<R: Rack>(racks: Vec<R>, disk_sets: Vec<DiskSet<R>>) -> Vec<R>
    ensures { racks.items ≡ [] → vec_len disk_sets ≤ vec_capacity racks → result.items ≡ racks_in disk_sets.items }
{
    let mut racks = racks;
    let mut disk_sets = disk_sets;
    disk_sets.reverse();
    while let Some(disk_set) = disk_sets.pop() {
        give_back(&mut racks, disk_set);
    }
    racks
}

// Adds a disk set for a rack.
fn put_rack<R: Rack>(disk_sets: &mut Vec<DiskSet<R>>, rack: R)
    ensures items { vec_len disk_sets.old < vec_capacity disk_sets.old → disk_sets.new.items ≡ disk_sets.old.items ++ DiskSet.Bare rack ∷ [] }
    ensures room { vec_capacity disk_sets.old ≤ vec_capacity disk_sets.new }
{
    let _ = disk_sets.push(DiskSet::Bare(rack));
}

/// Fills an empty list, which has room for them, with a disk set for each of these racks, in order. The emptied list of the
/// racks keeps its room.
pub fn put_racks<R: Rack>(racks: Vec<R>, disk_sets: Vec<DiskSet<R>>) -> (Vec<R>, Vec<DiskSet<R>>)
    ensures disk_sets { disk_sets.items ≡ [] → vec_len racks ≤ vec_capacity disk_sets → result.1.items ≡ map (λ r. DiskSet.Bare r) racks.items }
    ensures none { result.0.items ≡ [] }
    ensures room { vec_capacity racks ≤ vec_capacity result.0 }
{
    let mut racks = racks;
    let mut disk_sets = disk_sets;
    racks.reverse();
    while let Some(rack) = racks.pop() {
        put_rack(&mut disk_sets, rack);
    }
    (racks, disk_sets)
}
