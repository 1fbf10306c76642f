// The laws of what a block of a log is.
ghost use Rattle.std.specs.Prelude.{◌≡◌, ℕ, List};
ghost use Rattle.vx_srlfmt.specs.Headers.{IsHeader};
ghost use Rattle.vx_srlfmt.specs.Kinds.{Kind, IsKind, IsBody, kind_of};
ghost use Rattle.vx_srlfmt.specs.Records.{IsRecord, IsDamaged};
ghost use Rattle.vx_srlfmt.specs.declared.header.Header.{Header};
ghost use Rattle.vx_srlfmt.specs.declared.record.RecordHead.{RecordHead};

/// Each block of a log is of one kind. A block of a record's body, which begins with the byte 0x42, is never taken for a
/// header or for the header of a record, whole or damaged.
pub fn kinds()
    ensures is { (block : List ℕ) → IsKind block (kind_of block) }
    ensures only { (block : List ℕ) (kind : Kind) → IsKind block kind → kind_of block ≡ kind }
    ensures body_is_no_header { (block : List ℕ) (h : Header) → IsBody block → IsHeader block h → ⊥ }
    ensures body_is_no_record { (block : List ℕ) (r : RecordHead) → IsBody block → IsRecord block r → ⊥ }
    ensures body_is_not_damaged { (block : List ℕ) → IsBody block → IsDamaged block → ⊥ }
{}
