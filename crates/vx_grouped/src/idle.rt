// The disks of a group by themselves.
ghost use Rattle.std.specs.Prelude.{◌≡◌, ◌≢◌, ◌<◌, ℕ, IsFalse, IsTrue, Option, Some, true};
ghost use Rattle.vx_grouped.specs.ImportFacts.{ImportFact};
ghost use Rattle.vx_logimport.specs.Rests.{LogsTell};
ghost use Rattle.vx_logimport.specs.declared.rested.Rested.{Rested as RestedValue};
ghost use Rattle.vx_untold.specs.Shades.{shade_meaning};

use crate::racking::fail_idle;
use crate::site_returning::risen;
use std::marker::Brand;
use vx_disk::Rack;
use vx_logimport::Rested;
use vx_untold::Shade;

/// Disks on which a group lay, whether imports of them agree, and which volumes are as a deport left them. None says that its logs were stopped, as no
/// serial was left to commit that one is lost, or that none was left for a commit that was missed: then it is not imported again.
#[derive(Drop)]
pub struct Idle<R: Rack> {
    pub rack: Shade<R>,
    pub agreed: bool,
    pub rested: Option<Rested>,
    pub ghost can: { agreed ≡ true → ImportFact (shade_meaning (λ s. R.meaning s) rack) },
    pub ghost tells: { (r : RestedValue) → agreed ≡ true → rested ≡ Some r → LogsTell r (shade_meaning (λ s. R.meaning s) rack) },
}

impl<R: Rack> Idle<R> {
    ghost use Rattle.vx_disk.specs.Causes.{WithDisks};
    ghost use Rattle.vx_disk.specs.Disks.{Untouched};
    ghost use Rattle.vx_disk.specs.Racks.{Alike};
    ghost use Rattle.vx_group.specs.Resumes.{CanImport};
    ghost use Rattle.vx_grouped.specs.Readies.{ready_of};
    ghost use Rattle.vx_grouped.specs.SiteReturns.{ReturnSince};
    ghost use Rattle.vx_untold.specs.Shades.{rack_of};
    ghost use Rattle.vx_watched.specs.Traces.{TellsLess};

    /// Disks behind a crash or a deport.
    pub fn of(rack: Shade<R>, agreed: bool, rested: Option<Rested>) -> Idle<R>
        requires can { agreed ≡ true → CanImport (shade_meaning (λ s. R.meaning s) rack) }
        requires tells { (r : RestedValue) → agreed ≡ true → rested ≡ Some r → LogsTell r (shade_meaning (λ s. R.meaning s) rack) }
        ensures rack { result.rack ≡ rack }
        ensures agreed { result.agreed ≡ agreed }
        ensures rested { result.rested ≡ rested }
    {
        Idle {
            rack,
            agreed,
            rested,
        }
    }

    /// Makes each later call on a disk fail, or ends that. Nothing else changes.
    pub fn fail(self, disk: u32, on: bool) -> Idle<R>
        requires { disk < (shade_meaning (λ s. R.meaning s) self.rack).units }
        ensures agreed { result.agreed ≡ self.agreed }
        ensures rested { result.rested ≡ self.rested }
        ensures alike { Alike (shade_meaning (λ s. R.meaning s) self.rack) (shade_meaning (λ s. R.meaning s) result.rack) }
        ensures down { (shade_meaning (λ s. R.meaning s) result.rack).down ≡ (shade_meaning (λ s. R.meaning s) self.rack).down }
        ensures armed { (shade_meaning (λ s. R.meaning s) result.rack).armed ≡ (shade_meaning (λ s. R.meaning s) self.rack).armed }
        ensures disks { WithDisks (shade_meaning (λ s. R.meaning s) self.rack).disks (shade_meaning (λ s. R.meaning s) result.rack).disks (λ o n. Untouched o n × (n.failing disk ≡ on) × ((u : ℕ) → u ≢ disk → n.failing u ≡ o.failing u)) }
        ensures told { TellsLess (R.meaning (rack_of self.rack)) (R.meaning (rack_of result.rack)) }
    {
        fail_idle::<Brand, R>(self, disk, on)
    }

    /// Ends the down state of the disks. What they tell an import stays.
    pub fn revive(self) -> Idle<R>
        requires { IsTrue (shade_meaning (λ s. R.meaning s) self.rack).down }
        ensures agreed { result.agreed ≡ self.agreed }
        ensures rested { result.rested ≡ self.rested }
        ensures alike { Alike (shade_meaning (λ s. R.meaning s) self.rack) (shade_meaning (λ s. R.meaning s) result.rack) }
        ensures up { IsFalse (shade_meaning (λ s. R.meaning s) result.rack).down }
        ensures armed { (shade_meaning (λ s. R.meaning s) result.rack).armed ≡ (shade_meaning (λ s. R.meaning s) self.rack).armed }
        ensures since { ReturnSince (shade_meaning (λ s. R.meaning s) self.rack) (shade_meaning (λ s. R.meaning s) result.rack) }
        ensures told { TellsLess (R.meaning (rack_of self.rack)) (R.meaning (rack_of result.rack)) }
    {
        let agreed = self.agreed;
        let rested = self.rested;
        Idle::of(risen(self.rack), agreed, rested)
    }

    /// Hands the disks out for an import: where imports of them may disagree, as disks that tell nothing.
    pub fn into_ready(self) -> Shade<R>
        ensures ready { result ≡ ready_of self.agreed self.rack }
        ensures can { CanImport (shade_meaning (λ s. R.meaning s) result) }
        ensures tells { (r : RestedValue) → self.rested ≡ Some r → LogsTell r (shade_meaning (λ s. R.meaning s) result) }
    {
        if self.agreed {
            self.rack
        } else {
            self.rack.darkened()
        }
    }
}
