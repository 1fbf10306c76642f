// What the definitions of the newest bytes and of the blocks of writes promise.
ghost use Rattle.std.specs.Prelude.{◌≡◌, ℕ, ◌+◌, ◌-◌, ◌<◌, ◌≤◌, ◌&&◌, eqb, leb, ltb, if◌then◌else◌, List, [], ◌∷◌, ◌++◌, length, drop, All, Contains, Some, None, IsSome, unwrap_or};
ghost use Rattle.vx_model.specs.Content.{Write, Content, blocks_in, block_of, fold_writes};
ghost use Rattle.vx_overlay.specs.Pending.{entry_of, newest, newer_or, IsNewestEntry};
ghost use Rattle.vx_overlay.specs.Writes.{IsWholeWrite, put_there, newest_of, entries_at, entries_of, blocks_within_of};
ghost use Rattle.vx_overlay.specs.declared.entry.Entry.{Entry};

/// No block has bytes in an empty list. A block that is added has its bytes, and each other block those it had. A block of which
/// an entry stands has bytes, and they are those of the last such entry. Where the oldest are dropped, a block that still has bytes has those it had.
pub fn newest_holds()
    ensures empty { (volume block : ℕ) → newest [] volume block ≡ None }
    ensures added { (xs : List Entry) (volume block : ℕ) (bytes : List ℕ) → newest (xs ++ entry_of volume block bytes ∷ []) volume block ≡ Some bytes }
    ensures others { (xs : List Entry) (volume block v b : ℕ) (bytes : List ℕ) → (v ≡ volume → b ≡ block → ⊥) → newest (xs ++ entry_of volume block bytes ∷ []) v b ≡ newest xs v b }
    ensures stands { (xs ys : List Entry) (volume block : ℕ) (bytes : List ℕ) → IsSome (newest (xs ++ entry_of volume block bytes ∷ ys) volume block) }
    ensures held { (xs : List Entry) (volume block : ℕ) (bytes : List ℕ) → newest xs volume block ≡ Some bytes → IsNewestEntry xs volume block bytes }
    ensures dropped { (count : ℕ) (xs : List Entry) (volume block : ℕ) (bytes : List ℕ) → newest (drop count xs) volume block ≡ Some bytes → newest xs volume block ≡ Some bytes }
{}

/// A block of a content after writes has what the last write that covers it puts there, and where none does what it had. A write covers
/// its own blocks, where it ends within its volume. The last of two lists of writes is that of the later one, if it has any. Where the blocks
/// of writes wait, the newest bytes of each block are those that the last write puts there. The blocks of two lists of writes are
/// those of the first and then those of the second, and without so many as the first has those of the second are left.
pub fn writes_wait()
    ensures folded { (c : Content) (xs : List Write) (volume block : ℕ) → (fold_writes c xs).block volume block ≡ unwrap_or (newest_of c.size xs volume block) (c.block volume block) }
    ensures sizes { (c : Content) (xs : List Write) → (fold_writes c xs).size ≡ c.size }
    ensures own { (size : ℕ → ℕ) (x : Write) (v b : ℕ) (bytes : List ℕ) → IsWholeWrite x → put_there size x v b ≡ Some bytes → (v ≡ x.volume) × (x.start ≤ b) × (b < x.start + blocks_in x.bytes) × (x.start + blocks_in x.bytes ≤ size x.volume) × (bytes ≡ block_of x.bytes (b - x.start)) }
    ensures puts { (size : ℕ → ℕ) (x : Write) (v b : ℕ) → IsWholeWrite x → v ≡ x.volume → x.start ≤ b → b < x.start + blocks_in x.bytes → x.start + blocks_in x.bytes ≤ size x.volume → put_there size x v b ≡ Some (block_of x.bytes (b - x.start)) }
    ensures later { (size : ℕ → ℕ) (xs ys : List Write) (volume block : ℕ) → newest_of size (xs ++ ys) volume block ≡ newer_or (newest_of size ys volume block) (newest_of size xs volume block) }
    ensures dropped { (size : ℕ → ℕ) (count : ℕ) (xs : List Write) (volume block : ℕ) (bytes : List ℕ) → newest_of size (drop count xs) volume block ≡ Some bytes → newest_of size xs volume block ≡ Some bytes }
    ensures covered { (size : ℕ → ℕ) (xs : List Write) (volume block : ℕ) (x : Write) (bytes : List ℕ) → Contains xs x → put_there size x volume block ≡ Some bytes → IsSome (newest_of size xs volume block) }
    ensures uncovered { (size : ℕ → ℕ) (xs : List Write) (volume block : ℕ) → ((x : Write) → Contains xs x → put_there size x volume block ≡ None) → newest_of size xs volume block ≡ None }
    ensures wait { (size : ℕ → ℕ) (xs : List Write) (volume block : ℕ) → All IsWholeWrite xs → newest (entries_of size xs) volume block ≡ newest_of size xs volume block }
    ensures joined { (size : ℕ → ℕ) (xs ys : List Write) → entries_of size (xs ++ ys) ≡ entries_of size xs ++ entries_of size ys }
    ensures count { (size : ℕ → ℕ) (xs : List Write) → length (entries_of size xs) ≡ blocks_within_of size xs }
    ensures left { (size : ℕ → ℕ) (xs ys : List Write) → drop (length (entries_of size xs)) (entries_of size (xs ++ ys)) ≡ entries_of size ys }
    ensures more { (volume block count : ℕ) (bytes : List ℕ) → entries_at volume block (count + 1) bytes ≡ entries_at volume block count bytes ++ entry_of volume (block + count) (block_of bytes count) ∷ [] }
    ensures each { (volume block count : ℕ) (bytes : List ℕ) (v b : ℕ) → newest (entries_at volume block count bytes) v b ≡ (if eqb v volume && (leb block b && ltb b (block + count)) then Some (block_of bytes (b - block)) else None) }
{}
