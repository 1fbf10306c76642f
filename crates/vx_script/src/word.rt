// Values that stand for one word each.
ghost use Rattle.std.specs.Prelude.{◌≡◌, List, ℕ};
ghost use Rattle.vx_script.specs.Keywords.{pick_of};

/// A value that one word stands for.
pub trait Word: Copy {
    ghost word_text: { Self → List ℕ };

    /// That word.
    fn text(self) -> &'static [u8]
        ensures { result.now ≡ word_text self };
}

/// The value in the table that a word stands for.
pub fn find_word<W: Word>(table: &[W], word: &[u8]) -> Option<W>
    ensures { result ≡ pick_of W.word_text table.now word.now }
{
    table.iter().copied().find(|w| word == w.text())
}
