// What the threads made, laid at the places of the plan.
ghost use Rattle.vx_turn.specs.Acting.{LiesAmong};
ghost use Rattle.vx_burst_threads.specs.Laying.{LaidWith};

use crate::plan::{Answered, Waited};
use crate::writer::Made;

/// Lays what one thread made.
pub(crate) fn lay(answers: &mut [Answered], made: Vec<Made>)
    ensures { LaidWith (λ m. LiesAmong m made.items) answers.old answers.new }
{
    let mut made = made;
    while let Some(one) = made.pop() {
        if one.at < answers.len() {
            answers[one.at] = Answered {
                place: one.place,
                reply: one.reply,
                waited: Waited::No,
            };
        }
    }
}
