// Plexes of a site's group that are detached and attached.
ghost use Rattle.std.specs.Prelude.{◌≡◌, Err, IfOk, Ok, OnOk, Some, None, false, IsTrue, ℕ};
ghost use Rattle.vx_history.specs.Groups.{GroupNode};
ghost use Rattle.vx_history.specs.World.{Node};
ghost use Rattle.vx_model.specs.declared.errors.Stop.TheVariants.{No as Refused};
ghost use Rattle.vx_model.specs.declared.no.No.{No as NoValue};
ghost use Rattle.vx_grouped.specs.GroupSites.{GroupUp, UpNoted, site_below, site_disks};
ghost use Rattle.vx_disk.specs.Moves.{Nowhere};
ghost use Rattle.vx_grouped.specs.Volumes.{SiteGoes};
ghost use Rattle.vx_grouped.specs.SiteEnds.{AttCalled, DetCalled, RegionsOf, is_plex_on, refuses_att, refuses_det, stops_down};
ghost use Rattle.vx_grouped.specs.SiteMaps.{AttMapped, DetMapped};
ghost use Rattle.vx_untold.specs.Shades.{rack_of, shade_meaning};
ghost use Rattle.vx_watched.specs.Since.{CalledSince};
ghost use Rattle.vx_watched.specs.Traces.{TellsLess};

use crate::watching::{att_watched, det_watched};
use crate::{GroupSite, Laid};
use std::mem;
use vx_disk::Rack;
use vx_model::{No, Stop};

/// Whether the disks were found down.
pub fn is_down_stop(stop: &Stop) -> bool
    ensures { result ≡ stops_down stop.now }
{
    matches!(stop, Stop::No(No::Down))
}

// Detaches a plex. A site whose fuse runs out crashes.
fn det_site<R: Rack>(laid: Laid<R>, vol: u32, plex: u32) -> (GroupSite<R>, Result<(), Stop>)
    ensures called { (n : Node) (note : GroupNode) → GroupUp n note (R.meaning (rack_of laid.shelf)).tells laid.core (shade_meaning (λ s. R.meaning s) laid.shelf) → DetCalled n note vol plex (GroupSite.Up laid) result.0 result.1 }
    ensures maps { (n : Node) (note : GroupNode) → GroupUp n note (R.meaning (rack_of laid.shelf)).tells laid.core (shade_meaning (λ s. R.meaning s) laid.shelf) → DetMapped vol plex (GroupSite.Up laid) result.0 result.1 }
    ensures refused { (n : Node) (note : GroupNode) (no : NoValue) → GroupUp n note (R.meaning (rack_of laid.shelf)).tells laid.core (shade_meaning (λ s. R.meaning s) laid.shelf) → refuses_det (GroupSite.Up laid) vol plex ≡ Some no → result.1 ≡ Err (Refused no) }
    ensures off { OnOk result.1 (is_plex_on result.0 vol plex ≡ false) }
    ensures others { OnOk result.1 ((w p : ℕ) → (w ≡ vol → p ≡ plex → ⊥) → is_plex_on result.0 w p ≡ is_plex_on (GroupSite.Up laid) w p) }
    ensures volumes { SiteGoes Nowhere (GroupSite.Up laid) result.0 }
    ensures since { CalledSince (shade_meaning (λ s. R.meaning s) laid.shelf) (site_disks result.0) }
    ensures told { TellsLess (R.meaning (rack_of laid.shelf)) (site_below result.0) }
{
    if laid.is_down() {
        return (GroupSite::Up(laid), Err(Stop::No(No::Role)));
    }
    let (laid, answer) = det_watched(laid, vol, plex);
    match answer {
        Ok(()) => (GroupSite::Up(laid), Ok(())),
        Err(stop) => {
            if is_down_stop(&stop) {
                return (GroupSite::Down(laid.crash(u64::MAX)), Err(stop));
            }
            (GroupSite::Up(laid), Err(stop))
        }
    }
}

// Attaches a plex. A site whose fuse runs out crashes.
fn att_site<R: Rack>(laid: Laid<R>, vol: u32, plex: u32) -> (GroupSite<R>, Result<u64, Stop>)
    ensures called { (n : Node) (note : GroupNode) → GroupUp n note (R.meaning (rack_of laid.shelf)).tells laid.core (shade_meaning (λ s. R.meaning s) laid.shelf) → AttCalled n note vol plex (GroupSite.Up laid) result.0 result.1 }
    ensures maps { (n : Node) (note : GroupNode) → GroupUp n note (R.meaning (rack_of laid.shelf)).tells laid.core (shade_meaning (λ s. R.meaning s) laid.shelf) → AttMapped vol plex (GroupSite.Up laid) result.0 result.1 }
    ensures refused { (n : Node) (note : GroupNode) (no : NoValue) → GroupUp n note (R.meaning (rack_of laid.shelf)).tells laid.core (shade_meaning (λ s. R.meaning s) laid.shelf) → refuses_att (GroupSite.Up laid) vol plex ≡ Some no → result.1 ≡ Err (Refused no) }
    ensures already { (n : Node) (note : GroupNode) → GroupUp n note (R.meaning (rack_of laid.shelf)).tells laid.core (shade_meaning (λ s. R.meaning s) laid.shelf) → refuses_att (GroupSite.Up laid) vol plex ≡ None → IsTrue (is_plex_on (GroupSite.Up laid) vol plex) → result.1 ≡ Ok 0 }
    ensures count { is_plex_on (GroupSite.Up laid) vol plex ≡ false → IfOk result.1 (λ k. RegionsOf (GroupSite.Up laid) vol k) }
    ensures on { is_plex_on (GroupSite.Up laid) vol plex ≡ false → OnOk result.1 (IsTrue (is_plex_on result.0 vol plex)) }
    ensures others { OnOk result.1 ((w p : ℕ) → (w ≡ vol → p ≡ plex → ⊥) → is_plex_on result.0 w p ≡ is_plex_on (GroupSite.Up laid) w p) }
    ensures volumes { SiteGoes Nowhere (GroupSite.Up laid) result.0 }
    ensures since { CalledSince (shade_meaning (λ s. R.meaning s) laid.shelf) (site_disks result.0) }
    ensures told { TellsLess (R.meaning (rack_of laid.shelf)) (site_below result.0) }
{
    if laid.is_down() {
        return (GroupSite::Up(laid), Err(Stop::No(No::Role)));
    }
    let (laid, answer) = att_watched(laid, vol, plex);
    match answer {
        Ok(count) => (GroupSite::Up(laid), Ok(count)),
        Err(stop) => {
            if is_down_stop(&stop) {
                return (GroupSite::Down(laid.crash(u64::MAX)), Err(stop));
            }
            (GroupSite::Up(laid), Err(stop))
        }
    }
}

impl<R: Rack> GroupSite<R> {
    /// Detaches a plex of a volume of the group. Each volume has what it had. A site whose fuse runs out crashes.
    ///
    /// Answers 1, 10 and 19 as the group does, and then nothing has changed; else 7 only where the count of the disk that it names rose, and 6
    /// only where the fuse ran out.
    pub fn det(&mut self, vol: u32, plex: u32) -> Result<(), Stop>
        ensures called { (n : Node) (note : GroupNode) → UpNoted n note self.old → DetCalled n note vol plex self.old self.new result }
        ensures maps { (n : Node) (note : GroupNode) → UpNoted n note self.old → DetMapped vol plex self.old self.new result }
        ensures refused { (n : Node) (note : GroupNode) (no : NoValue) → UpNoted n note self.old → refuses_det self.old vol plex ≡ Some no → result ≡ Err (Refused no) }
        ensures off { OnOk result (is_plex_on self.new vol plex ≡ false) }
        ensures others { OnOk result ((w p : ℕ) → (w ≡ vol → p ≡ plex → ⊥) → is_plex_on self.new w p ≡ is_plex_on self.old w p) }
        ensures volumes { SiteGoes Nowhere self.old self.new }
        ensures since { CalledSince (site_disks self.old) (site_disks self.new) }
        ensures told { TellsLess (site_below self.old) (site_below self.new) }
    {
        match mem::replace(self, GroupSite::Gone) {
            GroupSite::Up(group) => {
                let (site, answer) = det_site(group, vol, plex);
                *self = site;
                answer
            }
            other => {
                *self = other;
                Err(Stop::No(No::Role))
            }
        }
    }

    /// Attaches a plex of a volume of the group, and answers how many regions were copied. Each volume has what it had. A site whose fuse runs
    /// out crashes.
    ///
    /// Answers 1 and 19 as the group does, and then nothing has changed; else 7 only where the count of the disk that it names rose, and 6 only
    /// where the fuse ran out.
    pub fn att(&mut self, vol: u32, plex: u32) -> Result<u64, Stop>
        ensures called { (n : Node) (note : GroupNode) → UpNoted n note self.old → AttCalled n note vol plex self.old self.new result }
        ensures maps { (n : Node) (note : GroupNode) → UpNoted n note self.old → AttMapped vol plex self.old self.new result }
        ensures refused { (n : Node) (note : GroupNode) (no : NoValue) → UpNoted n note self.old → refuses_att self.old vol plex ≡ Some no → result ≡ Err (Refused no) }
        ensures already { (n : Node) (note : GroupNode) → UpNoted n note self.old → refuses_att self.old vol plex ≡ None → IsTrue (is_plex_on self.old vol plex) → result ≡ Ok 0 }
        ensures count { is_plex_on self.old vol plex ≡ false → IfOk result (λ k. RegionsOf self.old vol k) }
        ensures on { is_plex_on self.old vol plex ≡ false → OnOk result (IsTrue (is_plex_on self.new vol plex)) }
        ensures others { OnOk result ((w p : ℕ) → (w ≡ vol → p ≡ plex → ⊥) → is_plex_on self.new w p ≡ is_plex_on self.old w p) }
        ensures volumes { SiteGoes Nowhere self.old self.new }
        ensures since { CalledSince (site_disks self.old) (site_disks self.new) }
        ensures told { TellsLess (site_below self.old) (site_below self.new) }
    {
        match mem::replace(self, GroupSite::Gone) {
            GroupSite::Up(group) => {
                let (site, answer) = att_site(group, vol, plex);
                *self = site;
                answer
            }
            other => {
                *self = other;
                Err(Stop::No(No::Role))
            }
        }
    }
}
