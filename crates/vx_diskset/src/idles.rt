// Disks below a replicated volume group that crash.
ghost use Rattle.std.specs.Prelude.{◌≡◌, false, true};
ghost use Rattle.vx_diskset.specs.Founded.{LaidFell};
ghost use Rattle.vx_diskset.specs.OverStarts.{DarkBack, FellAt, FellBack, FellDark, is_dark as is_dark_of};
ghost use Rattle.vx_grouped.specs.GroupNotes.{is_sure as is_sure_of};
ghost use Rattle.vx_untold.specs.Shades.{rack_of};
ghost use Rattle.vx_untold.specs.declared.shade.Shade.TheVariants.{Dark as DarkRack};

use vx_disk::Rack;
use vx_grouped::{GroupSite, Idle, Laid};
use vx_logimport::Rested;
use vx_untold::Shade;

// Whether the newest configuration is committed, and no plex is held back.
fn is_sure<R: Rack>(laid: &Laid<R>) -> bool
    ensures { result ≡ is_sure_of laid.now.core }
{
    match &laid.core.held {
        None => laid.core.inner.committed,
        Some(_) => false,
    }
}

/// The same disks, imports of which may disagree.
pub(crate) fn doubted<R: Rack>(idle: Idle<R>) -> Idle<R>
    ensures rack { result.rack ≡ idle.rack }
    ensures agreed { result.agreed ≡ false }
    ensures rested { result.rested ≡ idle.rested }
{
    let rested = idle.rested;
    Idle::of(idle.rack, false, rested)
}

/// Crashes the disks of a group. Where its newest configuration is not committed imports of them may disagree.
pub(crate) fn fell_idle<R: Rack>(laid: Laid<R>, pick: u64) -> Idle<R>
    ensures { LaidFell pick laid result }
{
    let sure = is_sure(&laid);
    let idle = laid.crash(pick);
    if sure { idle } else { doubted(idle) }
}

/// Whether they tell nothing of their contents.
pub(crate) fn is_dark<R: Rack>(rack: &Shade<R>) -> bool
    ensures { result ≡ is_dark_of rack.now }
{
    match rack {
        Shade::Bright(_) => false,
        Shade::Dark(_) => true,
    }
}

// Disks that tell nothing from then on: imports of them are held to agree, which is void.
fn dark_idle<R: Rack>(idle: Idle<R>, rested: Option<Rested>) -> Idle<R>
    ensures rack { result.rack ≡ DarkRack (rack_of idle.rack) }
    ensures agreed { result.agreed ≡ true }
    ensures rested { result.rested ≡ rested }
{
    Idle::of(idle.rack.darkened(), true, rested)
}

// The disks of a group that came up whose replicated volume group did not: they crash.
fn fell_back<R: Rack>(laid: Laid<R>) -> Idle<R>
    ensures { FellBack laid result }
{
    let idle = fell_idle(laid, u64::MAX);
    if is_dark(&idle.rack) {
        let rested = idle.rested;
        dark_idle(idle, rested)
    } else {
        idle
    }
}

/// The same of a site; where it was deported they are by themselves then.
pub(crate) fn back_at<R: Rack>(laid: Laid<R>, away: bool) -> GroupSite<R>
    ensures { FellAt away laid result }
{
    let idle = fell_back(laid);
    if away {
        GroupSite::Deported(idle.revive())
    } else {
        GroupSite::Down(idle)
    }
}

// The same, and they tell nothing from then on. What they told of volumes before the import is kept.
fn fell_dark<R: Rack>(laid: Laid<R>, rested: Option<Rested>) -> Idle<R>
    ensures { FellDark rested laid result }
{
    let idle = fell_idle(laid, u64::MAX);
    dark_idle(idle, rested)
}

/// The disks of a site that had no replicated volume group, behind one that was found and is not taken up: those of a site that was deported are by themselves.
pub(crate) fn dark_back<R: Rack>(laid: Laid<R>, away: bool, rested: Option<Rested>) -> GroupSite<R>
    ensures { DarkBack away rested laid result }
{
    let idle = fell_dark(laid, rested);
    if away {
        GroupSite::Deported(idle.revive())
    } else {
        GroupSite::Down(idle)
    }
}
