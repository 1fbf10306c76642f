// Where words begin and end.
ghost use Rattle.std.specs.Prelude.{◌≡◌, ◌==◌, ◌≤◌, length};
ghost use Rattle.std.specs.List.{position_or_len};
ghost use Rattle.vx_script.specs.Words.{is_visible, after_spaces, word_of, after_word, words_end, GivesReading};

use crate::Wrong;

/// What is left of a line.
#[derive(Drop)]
pub struct Words<'a> {
    pub left: &'a [u8],
}

fn first_visible(bytes: &[u8]) -> usize
    ensures value { result ≡ position_or_len is_visible bytes.now }
    ensures bound { result ≤ length bytes.now }
{
    for (i, b) in bytes.iter().enumerate() {
        if *b != b' ' {
            return i;
        }
    }
    bytes.len()
}

/// How many bytes stand before the first that is this one.
pub fn first_of(bytes: &[u8], byte: u8) -> usize
    ensures value { result ≡ position_or_len (λ b. b == byte) bytes.now }
    ensures bound { result ≤ length bytes.now }
{
    for (i, b) in bytes.iter().enumerate() {
        if *b == byte {
            return i;
        }
    }
    bytes.len()
}

fn skip_spaces(bytes: &[u8]) -> &[u8]
    ensures { result.now ≡ after_spaces bytes.now }
{
    let start = first_visible(bytes);
    &bytes[start..]
}

impl<'a> Words<'a> {
    /// The next word, and how many bytes are left from its first one on.
    pub fn next(&mut self) -> (&'a [u8], usize)
        ensures word { result.0.now ≡ word_of (after_spaces self.old.left.now) }
        ensures place { result.1 ≡ length (after_spaces self.old.left.now) }
        ensures rest { self.new.left.now ≡ after_word (after_spaces self.old.left.now) }
    {
        let here = skip_spaces(self.left);
        let (word, rest) = here.split_at(first_of(here, b' '));
        self.left = rest;
        (word, here.len())
    }

    /// No word is left.
    pub fn end(&self) -> Result<(), Wrong>
        ensures { GivesReading (λ x. x) result (words_end self.now.left.now) }
    {
        let here = skip_spaces(self.left);
        if here.is_empty() {
            Ok(())
        } else {
            Err(Wrong::Left(here.len()))
        }
    }
}
