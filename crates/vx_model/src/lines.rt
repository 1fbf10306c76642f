// Whether two lines of history are one.
ghost use Rattle.std.specs.Prelude.{◌≡◌};
ghost use Rattle.vx_model.specs.Sites.{same_line};

use crate::Line;

/// Whether two lines are the same.
pub fn is_same_line(line: &Line, other: &Line) -> bool
    ensures { result ≡ same_line line.now other.now }
{
    line.generation == other.generation && line.origin == other.origin
}
