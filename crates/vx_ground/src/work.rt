// What is done to a shelf, whatever shelf it is.
ghost use Rattle.vx_disk.specs.Shelf.{Meaning};

use vx_disk::Shelf;

/// Work on any shelf, which is handed back.
pub trait Work: Sized {
    type Answer;

    /// What it asks of the shelf.
    ghost asks: { Self → Meaning → Type 0 };

    /// What it makes of the shelf, and answers.
    ghost does: { Self → Meaning → Meaning → Self.Answer → Type 0 };

    fn run<S: Shelf>(self, shelf: S) -> (S, Self::Answer)
        requires { asks self (S.meaning shelf) }
        ensures { does self (S.meaning shelf) (S.meaning result.0) result.1 };
}
