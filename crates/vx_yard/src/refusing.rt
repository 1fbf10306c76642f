// A refusal of the disks of a site as a reply, and what the tests see of the site then.
ghost use Rattle.std.specs.Prelude.{◌≡◌};
ghost use Rattle.vx_events.specs.declared.said.Said.TheVariants.{Refused};
ghost use Rattle.vx_yard.specs.Replies.{reply_to};
ghost use Rattle.vx_yard.specs.Writes.{below_facts, noted_facts};

use crate::facts;
use std::alloc::Global;
use vx_events::Said;
use vx_model::{No, OutOfMemory, Stop};
use vx_order::SiteFacts;

/// A line on the group of a site was refused: where its disk failed, the site is halted, and where its fuse ran out, it is down.
pub fn refused(alloc: Global, facts: &mut SiteFacts, no: No) -> Said
    ensures noted { facts.new ≡ noted_facts no facts.old }
    ensures said { result ≡ Refused no }
{
    match no {
        No::Device { disk } => facts::set_halted(facts, disk),
        No::Down => facts::go_down(alloc, facts),
        _ => {}
    }
    Said::Refused(no)
}

/// A line on the group of disks of a site was refused, below the replicated volume group that the site may have: where its fuse ran out, the site is down.
pub fn refused_below(alloc: Global, facts: &mut SiteFacts, no: No) -> Said
    ensures noted { facts.new ≡ below_facts no facts.old }
    ensures said { result ≡ Refused no }
{
    match no {
        No::Down => facts::go_down(alloc, facts),
        _ => {}
    }
    Said::Refused(no)
}

/// A refusal of the disks as a reply.
pub fn stopped(stop: Stop) -> Result<Said, OutOfMemory>
    ensures { result ≡ reply_to stop }
{
    match stop {
        Stop::No(no) => Ok(Said::Refused(no)),
        Stop::OutOfMemory => Err(OutOfMemory),
    }
}
