// The places of calls among those that stay, by their places in the history.
ghost use Rattle.std.specs.Prelude.{◌≡◌, ◌≤◌, ◌+◌, ◌++◌, [], length, vec_capacity};
ghost use Rattle.vx_burst.specs.Placing.{spot_of, SpotsNoted, Sorted, NotedOnce, SpotsInside, SpotsNumbered, Renumbered};

use vx_burst_threads::Answered;

/// Which member of the plan has an answer, and its place in the history.
#[derive(Clone, Copy)]
pub(crate) struct Spot {
    pub place: u64,
    pub at: usize,
}

// Notes the answer of a member where it has a place.
fn note_one(order: &mut Vec<Spot>, place: u64, at: usize)
    requires { length order.old.items + 1 ≤ vec_capacity order.old }
    ensures items { order.new.items ≡ order.old.items ++ spot_of place at }
    ensures room { vec_capacity order.old ≤ vec_capacity order.new }
{
    if place > 0 && order.push(Spot { place, at }).is_err() {
        unreachable!();
    }
}

// Notes each answer that has a place.
fn note(answers: &[Answered], order: Vec<Spot>) -> Vec<Spot>
    requires { (order.items ≡ []) × (length answers.now ≤ vec_capacity order) }
    ensures { SpotsNoted answers.now (length answers.now) result.items }
{
    let mut order = order;
    for k in 0..answers.len() {
        note_one(&mut order, answers[k].place, k);
    }
    order
}

// Orders what was noted by its places.
fn sort(order: Vec<Spot>) -> Vec<Spot>
    ensures { Sorted order.items result.items }
{
    let mut order = order;
    order.sort_unstable_by_key(|spot| spot.place);
    order
}

// Gives each answer that was noted its place among them.
fn number(answers: &mut [Answered], order: &[Spot])
    requires once { NotedOnce order.now }
    requires inside { SpotsInside (length answers.old) order.now }
    ensures { SpotsNumbered order.now (length order.now) answers.old answers.new }
{
    for k in 0..order.len() {
        let at = order[k].at;
        answers[at].place = k as u64 + 1;
    }
}

/// Gives each answer that has a place in the history its place among these, and says how many they are.
pub(crate) fn renumber(answers: &mut [Answered], order: Vec<Spot>) -> u64
    requires { (order.items ≡ []) × (length answers.old ≤ vec_capacity order) }
    ensures { Renumbered answers.old answers.new result }
{
    let order = sort(note(answers, order));
    number(answers, order.as_slice());
    order.len() as u64
}
