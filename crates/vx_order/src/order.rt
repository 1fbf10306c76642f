// The one order of refusals.
ghost use Rattle.std.specs.Prelude.{◌≡◌};
ghost use Rattle.vx_order.specs.Order.{line_refusal};

use crate::ask::find_ask;
use crate::calls::{refuse_call_role, refuse_call_size, refuse_range, refuse_unknown_volume};
use crate::facts::SiteFacts;
use crate::first::first_of;
use crate::holding::{refuse_down_link, refuse_full_log};
use crate::joining::{refuse_linked, refuse_many_links, refuse_unlike};
use crate::links::find_number;
use crate::sending::{
    refuse_cut_off, refuse_link_role, refuse_paused, refuse_replaying, refuse_unconfirmed,
    refuse_unknown_link,
};
use crate::shape::{
    refuse_limit, refuse_line_role, refuse_line_unknown, refuse_size, refuse_taken,
};
use crate::sites::{find_facts, refuse_halted, refuse_not_up, refuse_unknown_site};
use crate::span::find_span;
use crate::subject::{find_first, find_halt, find_need, find_second};
use vx_model::No;
use vx_script::ScriptLine;

/// The first refusal that holds of a line before it works. `files` says that disks are kept in files.
#[tactic(auto, unfolding(crate::specs::Order::line_refusal))]
pub fn refuse(sites: &[SiteFacts], files: bool, line: &ScriptLine) -> Option<No>
    ensures { result ≡ line_refusal sites.now files line.now }
{
    let first = find_facts(sites, find_first(line));
    let second = find_facts(sites, find_second(line));
    let here = find_number(sites, find_first(line));
    let there = find_number(sites, find_second(line));
    let span = find_span(line);
    let ask = find_ask(line);
    first_of(&[
        refuse_unknown_site(find_first(line), first),
        refuse_unknown_site(find_second(line), second),
        refuse_not_up(find_need(line), first, second),
        refuse_halted(find_halt(line), first, second),
        refuse_line_role(line, first),
        refuse_call_role(first, &span),
        refuse_link_role(&ask, here, there, first, second),
        refuse_line_unknown(line, first),
        refuse_unknown_volume(first, &span),
        refuse_unknown_link(&ask, there, first, second),
        refuse_taken(sites, line, first),
        refuse_linked(&ask, there, first, second),
        refuse_limit(sites.len(), files, line, first),
        refuse_many_links(&ask, first),
        refuse_size(line, first),
        refuse_unlike(&ask, first, second),
        refuse_call_size(first, &span),
        refuse_range(first, &span),
        refuse_cut_off(&ask, there, first, second),
        refuse_down_link(sites, first, &span),
        refuse_paused(&ask, there, first),
        refuse_replaying(&ask, there, first, second),
        refuse_full_log(sites, first, &span),
        refuse_unconfirmed(&ask, first),
    ])
}
