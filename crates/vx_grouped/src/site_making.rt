// A volume that is made in a site's group.
ghost use Rattle.std.specs.Prelude.{◌≡◌, ◌<◌, Err, IfOk, IfSome, IsTrue, Some};
ghost use Rattle.vx_history.specs.Groups.{GroupNode};
ghost use Rattle.vx_history.specs.World.{Node};
ghost use Rattle.vx_model.specs.declared.errors.Stop.TheVariants.{No as Refused};
ghost use Rattle.vx_model.specs.declared.no.No.{No as NoValue};
ghost use Rattle.vx_grouped.specs.Added.{IsUnmoved};
ghost use Rattle.vx_grouped.specs.GroupSites.{GroupUp, UpNoted, site_below, site_disks};
ghost use Rattle.vx_disk.specs.Moves.{Nowhere};
ghost use Rattle.vx_grouped.specs.Volumes.{SiteGoes};
ghost use Rattle.vx_disk.specs.Racks.{IsRack};
ghost use Rattle.vx_grouped.specs.PlainMaps.{AddsMaps, map_parts};
ghost use Rattle.vx_grouped.specs.SiteMaps.{AddedMapped};
ghost use Rattle.vx_grouped.specs.SiteAdds.{MakesVolume, SiteAdded, VolumeIn, refuses_volume};
ghost use Rattle.vx_untold.specs.Shades.{rack_of, shade_meaning};
ghost use Rattle.vx_watched.specs.Since.{CalledSince};
ghost use Rattle.vx_watched.specs.Traces.{TellsLess};

use crate::making::make_volume_of;
use crate::site_plexes::is_down_stop;
use crate::tracing::{trace, untrace};
use crate::{GroupSite, Laid};
use std::alloc::Global;
use std::marker::Brand;
use std::mem;
use vx_disk::Rack;
use vx_layout::Shape;
use vx_loggroup::LoggedGroup;
use vx_model::{Name, No, Stop};
use vx_untold::Shade;
use vx_watched::{Begun, Traced, Watched};

fn make_from<B: Begun, R: Rack>(
    alloc: Global,
    group: LoggedGroup<R>,
    name: &Name,
    want: &Shape,
) -> (LoggedGroup<R>, Result<u32, Stop>)
    requires up { IsTrue (R.meaning group.shelf).down → ⊥ }
    requires prefer { IfSome want.now.prefer (λ p. p < want.now.mirrors) }
    requires since { CalledSince B.first (R.meaning group.shelf) }
    ensures works { MakesVolume name.now want.now group.core (R.meaning group.shelf) result.0.core (R.meaning result.0.shelf) result.1 }
    ensures maps { IsRack (R.meaning group.shelf) → IsRack (R.meaning result.0.shelf) → AddsMaps (map_parts group.core.inner.config group.logs.items group.alike group.stopped) (R.meaning group.shelf) (map_parts result.0.core.inner.config result.0.logs.items result.0.alike result.0.stopped) (R.meaning result.0.shelf) result.1 }
    ensures still { IsUnmoved result.1 ((result.0.core ≡ group.core) × (result.0.shelf ≡ group.shelf)) }
    ensures since { CalledSince B.first (R.meaning result.0.shelf) }
{
    let (rack, rest) = group.apart();
    let watched = Watched::<R, B>::over(rack);
    let mut group = LoggedGroup::together(watched, rest);
    let answer = make_volume_of(alloc, &mut group, name, want);
    let (watched, rest) = group.apart();
    let rack = watched.into_shelf();
    (LoggedGroup::together(rack, rest), answer)
}

// The same over disks of which contents are told or not.
fn make_shaded<R: Rack>(
    alloc: Global,
    group: LoggedGroup<Shade<R>>,
    name: &Name,
    want: &Shape,
) -> (LoggedGroup<Shade<R>>, Result<u32, Stop>)
    requires up { IsTrue (shade_meaning (λ s. R.meaning s) group.shelf).down → ⊥ }
    requires prefer { IfSome want.now.prefer (λ p. p < want.now.mirrors) }
    ensures works { MakesVolume name.now want.now group.core (shade_meaning (λ s. R.meaning s) group.shelf) result.0.core (shade_meaning (λ s. R.meaning s) result.0.shelf) result.1 }
    ensures maps { IsRack (shade_meaning (λ s. R.meaning s) group.shelf) → IsRack (shade_meaning (λ s. R.meaning s) result.0.shelf) → AddsMaps (map_parts group.core.inner.config group.logs.items group.alike group.stopped) (shade_meaning (λ s. R.meaning s) group.shelf) (map_parts result.0.core.inner.config result.0.logs.items result.0.alike result.0.stopped) (shade_meaning (λ s. R.meaning s) result.0.shelf) result.1 }
    ensures still { IsUnmoved result.1 ((result.0.core ≡ group.core) × (result.0.shelf ≡ group.shelf)) }
    ensures since { CalledSince (shade_meaning (λ s. R.meaning s) group.shelf) (shade_meaning (λ s. R.meaning s) result.0.shelf) }
{
    make_from::<Brand, Shade<R>>(alloc, group, name, want)
}

// The same over the disks of a site, with an account of what the rack inside tells.
fn make_traced<C: Begun, R: Rack>(
    alloc: Global,
    laid: Laid<R>,
    name: &Name,
    want: &Shape,
) -> (Laid<R>, Result<u32, Stop>)
    requires up { IsTrue (shade_meaning (λ s. R.meaning s) laid.shelf).down → ⊥ }
    requires prefer { IfSome want.now.prefer (λ p. p < want.now.mirrors) }
    requires told { TellsLess C.first (R.meaning (rack_of laid.shelf)) }
    ensures works { MakesVolume name.now want.now laid.core (shade_meaning (λ s. R.meaning s) laid.shelf) result.0.core (shade_meaning (λ s. R.meaning s) result.0.shelf) result.1 }
    ensures maps { IsRack (shade_meaning (λ s. R.meaning s) laid.shelf) → IsRack (shade_meaning (λ s. R.meaning s) result.0.shelf) → AddsMaps (map_parts laid.core.inner.config laid.logs.items laid.alike laid.stopped) (shade_meaning (λ s. R.meaning s) laid.shelf) (map_parts result.0.core.inner.config result.0.logs.items result.0.alike result.0.stopped) (shade_meaning (λ s. R.meaning s) result.0.shelf) result.1 }
    ensures still { IsUnmoved result.1 ((result.0.core ≡ laid.core) × (result.0.shelf ≡ laid.shelf)) }
    ensures since { CalledSince (shade_meaning (λ s. R.meaning s) laid.shelf) (shade_meaning (λ s. R.meaning s) result.0.shelf) }
    ensures told { TellsLess C.first (R.meaning (rack_of result.0.shelf)) }
{
    let (group, answer) = make_shaded::<Traced<R, C>>(alloc, trace::<C, R>(laid), name, want);
    (untrace(group), answer)
}

/// Makes a volume in a group that is up.
pub fn make_watched<R: Rack>(
    alloc: Global,
    laid: Laid<R>,
    name: &Name,
    want: &Shape,
) -> (Laid<R>, Result<u32, Stop>)
    requires up { IsTrue (shade_meaning (λ s. R.meaning s) laid.shelf).down → ⊥ }
    requires prefer { IfSome want.now.prefer (λ p. p < want.now.mirrors) }
    ensures works { MakesVolume name.now want.now laid.core (shade_meaning (λ s. R.meaning s) laid.shelf) result.0.core (shade_meaning (λ s. R.meaning s) result.0.shelf) result.1 }
    ensures maps { IsRack (shade_meaning (λ s. R.meaning s) laid.shelf) → IsRack (shade_meaning (λ s. R.meaning s) result.0.shelf) → AddsMaps (map_parts laid.core.inner.config laid.logs.items laid.alike laid.stopped) (shade_meaning (λ s. R.meaning s) laid.shelf) (map_parts result.0.core.inner.config result.0.logs.items result.0.alike result.0.stopped) (shade_meaning (λ s. R.meaning s) result.0.shelf) result.1 }
    ensures still { IsUnmoved result.1 ((result.0.core ≡ laid.core) × (result.0.shelf ≡ laid.shelf)) }
    ensures since { CalledSince (shade_meaning (λ s. R.meaning s) laid.shelf) (shade_meaning (λ s. R.meaning s) result.0.shelf) }
    ensures told { TellsLess (R.meaning (rack_of laid.shelf)) (R.meaning (rack_of result.0.shelf)) }
{
    make_traced::<Brand, R>(alloc, laid, name, want)
}

// Makes a volume. A site whose fuse runs out crashes.
fn make_site<R: Rack>(
    alloc: Global,
    laid: Laid<R>,
    name: &Name,
    want: &Shape,
) -> (GroupSite<R>, Result<u32, Stop>)
    requires prefer { IfSome want.now.prefer (λ p. p < want.now.mirrors) }
    ensures made { (n : Node) (note : GroupNode) → GroupUp n note (R.meaning (rack_of laid.shelf)).tells laid.core (shade_meaning (λ s. R.meaning s) laid.shelf) → SiteAdded n note name.now want.now (GroupSite.Up laid) result.0 result.1 }
    ensures maps { (n : Node) (note : GroupNode) → GroupUp n note (R.meaning (rack_of laid.shelf)).tells laid.core (shade_meaning (λ s. R.meaning s) laid.shelf) → AddedMapped (GroupSite.Up laid) result.0 result.1 }
    ensures refused { (n : Node) (note : GroupNode) (no : NoValue) → GroupUp n note (R.meaning (rack_of laid.shelf)).tells laid.core (shade_meaning (λ s. R.meaning s) laid.shelf) → refuses_volume (GroupSite.Up laid) name.now want.now ≡ Some no → result.1 ≡ Err (Refused no) }
    ensures volume { (n : Node) (note : GroupNode) → GroupUp n note (R.meaning (rack_of laid.shelf)).tells laid.core (shade_meaning (λ s. R.meaning s) laid.shelf) → IfOk result.1 (λ vol. VolumeIn name.now want.now vol (GroupSite.Up laid) result.0) }
    ensures volumes { SiteGoes Nowhere (GroupSite.Up laid) result.0 }
    ensures since { CalledSince (shade_meaning (λ s. R.meaning s) laid.shelf) (site_disks result.0) }
    ensures told { TellsLess (R.meaning (rack_of laid.shelf)) (site_below result.0) }
{
    if laid.is_down() {
        return (GroupSite::Up(laid), Err(Stop::No(No::Role)));
    }
    let (laid, answer) = make_watched(alloc, laid, name, want);
    laid.spelled();
    match answer {
        Ok(vol) => (GroupSite::Up(laid), Ok(vol)),
        Err(stop) => {
            if is_down_stop(&stop) {
                return (GroupSite::Down(laid.crash(u64::MAX)), Err(stop));
            }
            (GroupSite::Up(laid), Err(stop))
        }
    }
}

impl<R: Rack> GroupSite<R> {
    /// Makes a volume of a shape in the group, which begins as zeros, and answers its number. Each other volume has what it had. A site whose
    /// fuse runs out crashes.
    ///
    /// Answers 2, 19, 4 and 11 as the group does, and then nothing has changed, nor has it where memory runs out; else 7 only where the count of
    /// the disk that it names rose, and 6 only where the fuse ran out.
    pub fn make_volume(&mut self, alloc: Global, name: &Name, want: &Shape) -> Result<u32, Stop>
        requires prefer { IfSome want.now.prefer (λ p. p < want.now.mirrors) }
        ensures made { (n : Node) (note : GroupNode) → UpNoted n note self.old → SiteAdded n note name.now want.now self.old self.new result }
        ensures maps { (n : Node) (note : GroupNode) → UpNoted n note self.old → AddedMapped self.old self.new result }
        ensures refused { (n : Node) (note : GroupNode) (no : NoValue) → UpNoted n note self.old → refuses_volume self.old name.now want.now ≡ Some no → result ≡ Err (Refused no) }
        ensures volume { (n : Node) (note : GroupNode) → UpNoted n note self.old → IfOk result (λ vol. VolumeIn name.now want.now vol self.old self.new) }
        ensures volumes { SiteGoes Nowhere self.old self.new }
        ensures since { CalledSince (site_disks self.old) (site_disks self.new) }
        ensures told { TellsLess (site_below self.old) (site_below self.new) }
    {
        match mem::replace(self, GroupSite::Gone) {
            GroupSite::Up(group) => {
                let (site, answer) = make_site(alloc, group, name, want);
                *self = site;
                answer
            }
            other => {
                *self = other;
                Err(Stop::No(No::Role))
            }
        }
    }
}
