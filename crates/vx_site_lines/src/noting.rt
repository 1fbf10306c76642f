// What the tests see of a site and its links behind a write.
ghost use Rattle.std.specs.Prelude.{◌≡◌, ◌≤◌, ◌+◌, false};
ghost use Rattle.std.specs.List.{list_any};
ghost use Rattle.vx_effects.specs.Facts.{logged_fact};
ghost use Rattle.vx_events.specs.declared.said.Said.TheVariants.{Refused};
ghost use Rattle.vx_linked.specs.Holds.{awaits_one, is_over};
ghost use Rattle.vx_model.specs.declared.limits.TheConstants.{MOST_CALL_BLOCKS};
ghost use Rattle.vx_yard.specs.Writes.{answer_by, unwritten_facts};

use std::alloc::Global;
use vx_events::Said;
use vx_linked::{awaits_write, note_links};
use vx_model::No;
use vx_model::limits::MOST_CALL_BLOCKS;
use vx_order::SiteFacts;
use vx_yard::facts;
use vx_yard::refusing::refused;

/// A write of so many blocks was logged under this number: it is answered by whether a link has to confirm it.
pub fn note_written(facts: &mut SiteFacts, number: u64, count: u64) -> Said
    requires few { count ≤ MOST_CALL_BLOCKS }
    ensures noted { list_any (is_over (count + 1)) facts.old.links ≡ false → facts.new ≡ logged_fact number (count + 1) facts.old }
    ensures said { result ≡ answer_by (awaits_one facts.old) number }
{
    let waited = awaits_write(facts);
    facts::set_last(facts, number);
    note_links(facts, number, count + 1);
    if waited {
        Said::Logged(number)
    } else {
        Said::DoneAt(number)
    }
}

/// A write of so many blocks, which was to have this number, was refused. Where a disk failed it may stand in the log.
pub fn note_unwritten(alloc: Global, facts: &mut SiteFacts, number: u64, count: u64, no: No) -> Said
    requires few { count ≤ MOST_CALL_BLOCKS }
    ensures noted { list_any (is_over (count + 1)) facts.old.links ≡ false → facts.new ≡ unwritten_facts no number (count + 1) facts.old }
    ensures said { result ≡ Refused no }
{
    if let No::Device { disk: _ } = no {
        note_links(facts, number, count + 1);
    }
    refused(alloc, facts, no)
}
