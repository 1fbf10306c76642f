// What the header of a log keeps of a site, as the parts of a line that makes a link leave it.
ghost use Rattle.std.specs.Prelude.{◌≡◌, ◌≤◌, IfSome, IsSome, length, true};
ghost use Rattle.std.specs.List.{list_all};
ghost use Rattle.vx_model.specs.declared.limits.TheConstants.{MOST_LINKS};
ghost use Rattle.vx_model.specs.declared.site.Mark.TheVariants.{Consistent};
ghost use Rattle.vx_srlfmt.specs.Headers.{CanSpellState};
ghost use Rattle.vx_linked.specs.Making.{is_state_spelled as spelled, joined_state};

use vx_model::limits::{MOST_LINKS, MOST_NUMBER};
use vx_model::{KeptLink, KeptLinks, Mark, Role, SPhase, State};

fn is_spelled(link: &KeptLink) -> bool
    ensures { result ≡ spelled link.now }
{
    link.stored <= MOST_NUMBER && link.start <= MOST_NUMBER
}

fn are_spelled(links: &[KeptLink]) -> bool
    ensures { result ≡ list_all spelled links.now }
{
    links.iter().all(is_spelled)
}

/// The state with these links. None where a header has no spelling for them.
pub fn with_links(state: &State, links: KeptLinks) -> Option<State>
    requires state { CanSpellState state.now }
    ensures is { IfSome result (λ s. s ≡ record state.now { links = links }) }
    ensures spell { IfSome result (λ s. CanSpellState s) }
    // It is none for no other cause.
    ensures some { length links ≤ MOST_LINKS → list_all spelled links ≡ true → IsSome result }
{
    if links.as_slice().len() as u64 > MOST_LINKS || !are_spelled(links.as_slice()) {
        return None;
    }
    let mut next = state.copy();
    next.links = links;
    Some(next)
}

/// The state of a site that is consistent.
pub fn mark_state(state: &State) -> State
    requires state { CanSpellState state.now }
    ensures is { result ≡ record state.now { mark = Consistent } }
    ensures spell { CanSpellState result }
{
    let mut next = state.copy();
    next.mark = Mark::Consistent;
    next
}

/// The state of the second site as it comes to the line of the first one, whose number this is: an inconsistent secondary without links.
pub fn join_state(first: &State, second: &State, number: u32) -> State
    requires first { CanSpellState first.now }
    requires second { CanSpellState second.now }
    ensures is { result ≡ joined_state first.now number second.now }
    ensures spell { CanSpellState result }
{
    let replay = if second.line == first.line {
        second.replay
    } else {
        0
    };
    State {
        line: first.line,
        top: second.top.max(first.line.generation),
        role: Role::Secondary,
        mark: Mark::Inconsistent,
        phase: SPhase::Quiet,
        replay,
        end: 0,
        other: number,
        parent: first.parent,
        fork: first.fork,
        links: KeptLinks::new(),
    }
}
