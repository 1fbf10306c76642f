// A link that is attached or detached, and one that is in a replay.
ghost use Rattle.std.specs.Prelude.{◌≡◌, true};
ghost use Rattle.vx_history.specs.Admission.{hold, is_holding};
ghost use Rattle.vx_linked.specs.Converting.{attached_link, detached_link, replayed_fact, with_need};
ghost use Rattle.vx_replay.specs.Primary.{primary_step};

use crate::converting::behind;
use vx_model::{Link, Mode};
use vx_order::LinkFacts;
use vx_replay::{PAction, PEvent, primary};

/// The link as it is attached. Its mode stays.
pub fn attach(link: &Link) -> Link
    ensures { result ≡ attached_link link.now }
{
    Link {
        attached: true,
        ..*link
    }
}

/// The link as it is detached: it needs nothing of the log, and all regions have to be copied.
pub fn detach(l: &LinkFacts) -> LinkFacts
    ensures { result ≡ with_need (detached_link l.now.link) l.now }
{
    let next = Link {
        attached: false,
        mode: Mode::Stale,
        ..l.link
    };
    behind(l, &next)
}

/// What an event of its replay makes of a link, and what is then to be done. What the log holds for it stays, as long as it holds anything.
pub fn replay(l: &mut LinkFacts, event: &PEvent) -> PAction
    ensures action { result ≡ (primary_step l.old.link event.now).action }
    ensures link { l.new ≡ replayed_fact event.now l.old }
    ensures hold { is_holding l.old.link ≡ true → is_holding l.new.link ≡ true → hold l.new.link ≡ hold l.old.link }
{
    let mut next = l.link;
    let action = primary(&mut next, event);
    let replayed = behind(l, &next);
    *l = replayed;
    action
}
