// What holds of every line: laws about the definitions that `parse` and `print` are proved to follow.
ghost use Rattle.std.specs.Prelude.{◌≡◌, ◌≤◌, ◌<◌, ◌↔◌, ◌⊎◌, ℕ, List, [], ◌∷◌, ◌++◌, Ok, Err, Some, None, length};
ghost use Rattle.vx_script.specs.Columns.{WrongAt};
ghost use Rattle.vx_script.specs.Grammar.{line_of, spelling, IsLine, IsQuiet};
ghost use Rattle.vx_script.specs.Lines.{split_lines, whole_lines_of, without_return, HasNoNewline};
ghost use Rattle.vx_script.specs.Tokens.{words_of};
ghost use Rattle.vx_script.specs.declared.line.ScriptLine.{ScriptLine};

/// A line is read exactly where its words spell it, and nothing exactly of an empty line and of a comment.
pub fn grammar()
    ensures lines { (bytes : List ℕ) (line : ScriptLine) → (line_of bytes ≡ Ok (Some line)) ↔ ((length bytes ≤ 4096) × IsLine bytes line) }
    ensures quiet { (bytes : List ℕ) → (line_of bytes ≡ Ok None) ↔ ((length bytes ≤ 4096) × IsQuiet (words_of bytes)) }
{}

/// What is printed of a line that was read is no longer, and is read as the same line again.
pub fn printed_reads()
    ensures { (bytes : List ℕ) (line : ScriptLine) → line_of bytes ≡ Ok (Some line) → (length (spelling line) ≤ length bytes) × (line_of (spelling line) ≡ Ok (Some line)) }
{}

/// A line is wrong at its first wrong word: the words before it begin a line, and with it they begin none. Where
/// words are missing, at one past its last byte; where it is too long, at 4097.
pub fn wrong_place()
    ensures long { (bytes : List ℕ) → 4096 < length bytes → line_of bytes ≡ Err 4097 }
    ensures wrong { (bytes : List ℕ) (column : ℕ) → line_of bytes ≡ Err column → ((4096 < length bytes) × (column ≡ 4097)) ⊎ WrongAt bytes column }
{}

/// The lines of an input end at each newline, without a carriage return right before it; what is left of the
/// input behind the last newline is a line if it is not empty.
pub fn line_ends()
    ensures ended { (line tail : List ℕ) → HasNoNewline line → split_lines (line ++ 10 ∷ tail) ≡ without_return line ∷ split_lines tail }
    ensures last { (line : List ℕ) → HasNoNewline line → 0 < length line → split_lines line ≡ line ∷ [] }
    ensures whole { (line tail : List ℕ) → HasNoNewline line → whole_lines_of (line ++ 10 ∷ tail) ≡ without_return line ∷ whole_lines_of tail }
    ensures cut { (line : List ℕ) → HasNoNewline line → whole_lines_of line ≡ [] }
{}
