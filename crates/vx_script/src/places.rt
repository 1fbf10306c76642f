// The next word of a line, as a place takes it. The reading stops at a word that does not fit.
ghost use Rattle.std.specs.Prelude.{◌≡◌};
ghost use Rattle.vx_script.specs.Words.{GivesReading, next_word, labelled, word_name, word_number, names_of, byte_of, block_word};
ghost use Rattle.vx_script.specs.Keywords.{pick_of};
ghost use Rattle.vx_script.specs.Formats.{policy_of};

use crate::line::ReadPolicy;
use crate::scan::Words;
use crate::values::{as_block, as_byte, as_name, as_names, number_after};
use crate::word::{Word, find_word};
use crate::{Names, Wrong};
use std::alloc::Global;
use vx_model::{Block, Name};

impl<'a> Words<'a> {
    /// A name behind a label.
    #[tactic(auto, unfolding(crate::specs::Words::labelled))]
    pub fn name(&mut self, label: &[u8]) -> Result<Name, Wrong>
        ensures { GivesReading (λ x. (x, self.new.left.now)) result (next_word (labelled label.now word_name) self.old.left.now) }
    {
        let (word, left) = self.next();
        match word.strip_prefix(label) {
            Some(text) => as_name(text).ok_or(Wrong::Left(left)),
            None => Err(Wrong::Left(left)),
        }
    }

    /// A number behind a label.
    pub fn number(&mut self, label: &[u8]) -> Result<u64, Wrong>
        ensures { GivesReading (λ x. (x, self.new.left.now)) result (next_word (labelled label.now word_number) self.old.left.now) }
    {
        let (word, left) = self.next();
        number_after(label, word).ok_or(Wrong::Left(left))
    }

    /// Names behind a label.
    #[tactic(auto, unfolding(crate::specs::Words::labelled))]
    pub fn names(&mut self, alloc: Global, label: &[u8]) -> Result<Names, Wrong>
        ensures { GivesReading (λ x. (x, self.new.left.now)) result (next_word (labelled label.now names_of) self.old.left.now) }
    {
        let (word, left) = self.next();
        let Some(text) = word.strip_prefix(label) else {
            return Err(Wrong::Left(left));
        };
        match as_names(alloc, text) {
            Ok(Some(names)) => Ok(names),
            Ok(None) => Err(Wrong::Left(left)),
            Err(_) => Err(Wrong::Memory),
        }
    }

    /// The digits of a byte.
    pub fn byte(&mut self) -> Result<u8, Wrong>
        ensures { GivesReading (λ x. (x, self.new.left.now)) result (next_word byte_of self.old.left.now) }
    {
        let (word, left) = self.next();
        as_byte(word).ok_or(Wrong::Left(left))
    }

    /// The digits of a block.
    pub fn block(&mut self) -> Result<Block, Wrong>
        ensures { GivesReading (λ x. (x, self.new.left.now)) result (next_word block_word self.old.left.now) }
    {
        let (word, left) = self.next();
        as_block(word).ok_or(Wrong::Left(left))
    }

    /// A reading policy.
    #[tactic(auto, unfolding(crate::specs::Formats::policy_of))]
    pub fn policy(&mut self) -> Result<ReadPolicy, Wrong>
        ensures { GivesReading (λ x. (x, self.new.left.now)) result (next_word policy_of self.old.left.now) }
    {
        let (word, left) = self.next();
        if word == b"rdpol=round".as_slice() {
            return Ok(ReadPolicy::Round);
        }
        match number_after(b"rdpol=prefer:", word) {
            Some(plex) => Ok(ReadPolicy::Prefer { plex }),
            None => Err(Wrong::Left(left)),
        }
    }

    /// A value in the table.
    pub fn one_of<W: Word>(&mut self, table: &[W]) -> Result<W, Wrong>
        ensures { GivesReading (λ x. (x, self.new.left.now)) result (next_word (pick_of W.word_text table.now) self.old.left.now) }
    {
        let (word, left) = self.next();
        find_word(table, word).ok_or(Wrong::Left(left))
    }
}
