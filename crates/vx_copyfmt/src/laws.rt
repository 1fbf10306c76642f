// The law of the blocks of a disk.
ghost use Rattle.std.specs.Prelude.{◌≡◌, ℕ, List, Some};
ghost use Rattle.vx_copyfmt.specs.Areas.{IsArea, header_of};
ghost use Rattle.vx_copyfmt.specs.Labels.{IsLabel, seen_in};
ghost use Rattle.vx_copyfmt.specs.declared.area.AreaHeader.{AreaHeader as AreaValue};
ghost use Rattle.vx_copyfmt.specs.declared.label.Label.{Label as LabelValue};
ghost use Rattle.vx_copyfmt.specs.declared.label.LabelSeen.TheVariants as seen;

/// A block is seen as a label or as the header of an area exactly where it is the spelling of it.
pub fn blocks_have_one_spelling()
    ensures area { (block : List ℕ) (h : AreaValue) → IsArea block h → header_of block ≡ Some h }
    ensures only_area { (block : List ℕ) (h : AreaValue) → header_of block ≡ Some h → IsArea block h }
    ensures label { (block : List ℕ) (l : LabelValue) → IsLabel block l → seen_in block ≡ seen.Label l }
{}
