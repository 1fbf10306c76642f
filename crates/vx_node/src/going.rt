// How a part of a line that settles a link went.
ghost use Rattle.std.specs.Prelude.{◌≡◌};
ghost use Rattle.vx_node.specs.Settling.{went_by, went_of};

use vx_events::Said;
use vx_model::{No, OutOfMemory};

/// Its events are done; or they are ended by a refusal; or memory ran out in them.
#[derive(Drop)]
pub(crate) enum Went {
    On,
    Ended(No),
    Short,
}

fn by(said: Said) -> Went
    ensures { result ≡ went_by said }
{
    if let Said::Refused(no) = said {
        return Went::Ended(no);
    }
    Went::On
}

/// How it went, by what a line within it was answered.
pub(crate) fn answered(answer: Result<Said, OutOfMemory>) -> Went
    ensures { result ≡ went_of answer }
{
    match answer {
        Ok(said) => by(said),
        Err(_) => Went::Short,
    }
}
