// A replicated volume group over a group of disks that is up, by its parts.
ghost use Rattle.std.specs.Prelude.{◌≡◌};
ghost use Rattle.vx_group.specs.Holding.{wide};
ghost use Rattle.vx_group.specs.Stands.{inner_meaning};
ghost use Rattle.vx_rvg.specs.Views.{IsSound};
ghost use Rattle.vx_secondary.specs.Receivers.{Wait};
ghost use Rattle.vx_untold.specs.Shades.{shade_meaning};

use vx_disk::Rack;
use vx_grouped::Laid;
use vx_rvg::RvgCore;
use vx_secondary::Waiting;

/// One whose writes arise here.
#[derive(Drop)]
pub struct Founded<R: Rack> {
    pub laid: Laid<R>,
    pub core: RvgCore,
    pub ghost sound: { IsSound core (inner_meaning (wide laid.core) (shade_meaning (λ s. R.meaning s) laid.shelf)) },
}

/// One that receives, and the updates that wait in memory.
#[derive(Drop)]
pub struct FoundedReceiver<R: Rack> {
    pub laid: Laid<R>,
    pub core: RvgCore,
    pub waiting: Waiting,
    pub ghost sound: { IsSound core (inner_meaning (wide laid.core) (shade_meaning (λ s. R.meaning s) laid.shelf)) },
    pub ghost waits: { Wait core (inner_meaning (wide laid.core) (shade_meaning (λ s. R.meaning s) laid.shelf)).size waiting },
}

impl<R: Rack> Founded<R> {
    pub fn apart(self) -> (Laid<R>, RvgCore)
        ensures laid { result.0 ≡ self.laid }
        ensures core { result.1 ≡ self.core }
        ensures sound { IsSound result.1 (inner_meaning (wide result.0.core) (shade_meaning (λ s. R.meaning s) result.0.shelf)) }
    {
        let Founded { laid, core } = self;
        (laid, core)
    }

    pub fn together(laid: Laid<R>, core: RvgCore) -> Founded<R>
        requires { IsSound core (inner_meaning (wide laid.core) (shade_meaning (λ s. R.meaning s) laid.shelf)) }
        ensures laid { result.laid ≡ laid }
        ensures core { result.core ≡ core }
    {
        Founded { laid, core }
    }
}

impl<R: Rack> FoundedReceiver<R> {
    pub fn apart(self) -> (Laid<R>, RvgCore, Waiting)
        ensures laid { result.0 ≡ self.laid }
        ensures core { result.1 ≡ self.core }
        ensures waiting { result.2 ≡ self.waiting }
        ensures sound { IsSound result.1 (inner_meaning (wide result.0.core) (shade_meaning (λ s. R.meaning s) result.0.shelf)) }
        ensures waits { Wait result.1 (inner_meaning (wide result.0.core) (shade_meaning (λ s. R.meaning s) result.0.shelf)).size result.2 }
    {
        let FoundedReceiver {
            laid,
            core,
            waiting,
        } = self;
        (laid, core, waiting)
    }

    pub fn together(laid: Laid<R>, core: RvgCore, waiting: Waiting) -> FoundedReceiver<R>
        requires sound { IsSound core (inner_meaning (wide laid.core) (shade_meaning (λ s. R.meaning s) laid.shelf)) }
        requires waits { Wait core (inner_meaning (wide laid.core) (shade_meaning (λ s. R.meaning s) laid.shelf)).size waiting }
        ensures laid { result.laid ≡ laid }
        ensures core { result.core ≡ core }
        ensures waiting { result.waiting ≡ waiting }
    {
        FoundedReceiver {
            laid,
            core,
            waiting,
        }
    }
}
