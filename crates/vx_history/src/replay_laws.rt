// What the events of a replay keep of what is said of it. No event of the world goes by them yet.
ghost use Rattle.std.specs.Prelude.{◌≡◌, ◌≤◌, ◌<◌, ℕ, ◌-◌, ◌++◌, Bool, true, List, length};
ghost use Rattle.std.specs.List.{AllByRecursion};
ghost use Rattle.vx_model.specs.Content.{Write, Content, fold_writes, IsPrefixOf};
ghost use Rattle.vx_model.specs.declared.link.Mode.{Mode};
ghost use Rattle.vx_model.specs.declared.link.Mode.TheVariants.{Log, Replay};
ghost use Rattle.vx_model.specs.declared.link.Phase.TheVariants.{Start, Regions as CopiesRegions, Done, Log as ByLogAgain};
ghost use Rattle.vx_model.specs.declared.site.SPhase.TheVariants.{Regions as Copies, Log as Fills};
ghost use Rattle.vx_history.specs.CopySteps.{FitsVolumes, IsBeyond, IsReplayOver, IsWholeBlocks, NoRegionLeft, RegionFuzzy, SaysCopied, SaysRegion, SaysStart, SaysStored, begun_table, closed_at, copying_on, entered, is_in_region, read_table, whole_map, with_part, without_region};
ghost use Rattle.vx_history.specs.Good.{TellsContent};
ghost use Rattle.vx_history.specs.GoodCopies.{GoodCopy, GoodMode, GoodPhase, GoodReplays, certain_of};
ghost use Rattle.vx_history.specs.Regions.{AtSome, Fuzzy, IsMapped};
ghost use Rattle.vx_history.specs.Sound.{HasStored};
ghost use Rattle.vx_history.specs.World.{Node, Regions, Replays, no_regions};

/// A replay that begins, and a region that is read in it, keep what is recorded of replays, and what is said of their receiver and of the link
/// to it. Where a replay begins from a change map, or from the map of all regions, its first phase says what it has to.
pub fn replays_begin()
    ensures begun { (held : List Write) (t : Replays) (id head : ℕ) → t.begun < id → head ≡ length held → GoodReplays held t → GoodReplays held (begun_table t id head) }
    ensures copy { (held : List Write) (t : Replays) (id head : ℕ) → t.begun < id → (n : Node) → GoodCopy held t n → GoodCopy held (begun_table t id head) n }
    ensures all { (held : List Write) (n : Node) (number : ℕ) → IsBeyond n.base n.start → AllByRecursion (FitsVolumes n.start.size) held → IsMapped held number n.base n.start (whole_map n.start.size) }
    ensures mode { (held : List Write) (t : Replays) (n : Node) (stored : ℕ) (map : Regions) (id left head : ℕ) → GoodCopy held t n → t.begun < id → head ≡ length held → n.safe ≤ length n.log → IsPrefixOf n.log held
        → HasStored n stored → IsMapped held (certain_of t n) n.base n.start map → GoodMode held (begun_table t id head) n map stored (Replay id Start left head head) }
    ensures read { (held : List Write) (t : Replays) (head : ℕ) → GoodReplays held t → head ≡ length held → GoodReplays held (read_table t head) }
    ensures copy_read { (held : List Write) (t : Replays) (head : ℕ) (n : Node) → GoodReplays held t → head ≡ length held → n.phase ≡ Copies → GoodCopy held t n → GoodCopy held (read_table t head) n }
    ensures mode_read { (held : List Write) (t : Replays) (n : Node) (stored : ℕ) (map : Regions) (id left start end head : ℕ) → GoodReplays held t → head ≡ length held
        → GoodPhase held t n map stored CopiesRegions id left start end → GoodMode held (read_table t head) n map stored (Replay id CopiesRegions left start head) }
    ensures sent { (held : List Write) (line_start : Content) (t : Replays) (content : Content) (volume region head : ℕ) → GoodReplays held t → head ≡ length held → content ≡ fold_writes line_start held
        → RegionFuzzy content line_start held (t.start t.begun) ((read_table t head).read t.begun) volume region }
{}

/// A receiver that takes the start of a replay, with nothing that waits, is in its phase of regions, and what was stored there still is.
pub fn replays_are_entered()
    ensures copy { (held : List Write) (t : Replays) (n : Node) (id : ℕ) → GoodReplays held t → n.safe ≤ length n.log → GoodCopy held t n → n.replay < id → id ≤ t.begun → length n.log ≤ n.safe → length n.log ≤ t.start id
        → GoodCopy held t (entered n id) }
    ensures stored { (n : Node) (id number : ℕ) → HasStored n number → HasStored (entered n id) number }
    ensures mode { (held : List Write) (t : Replays) (n : Node) (id : ℕ) → GoodReplays held t → n.safe ≤ length n.log → GoodCopy held t n → n.replay < id → id ≤ t.begun → length n.log ≤ n.safe → length n.log ≤ t.start id
        → (map : Regions) (stored : ℕ) (mode : Mode) → GoodMode held t n map stored mode → GoodMode held t (entered n id) map stored mode }
{}

/// A receiver that stores blocks of a region as they were at moments of its replay, whichever of them reach its disks.
pub fn replays_copy()
    ensures copy { (held : List Write) (line_start : Content) (t : Replays) (n : Node) (pick : ℕ → ℕ → Bool) (blocks : Content) → GoodReplays held t → GoodCopy held t n → n.phase ≡ Copies → n.start.size ≡ line_start.size
        → ((v b : ℕ) → pick v b ≡ true → AtSome blocks line_start held (t.start n.replay) (t.read n.replay) v b) → GoodCopy held t (with_part line_start n pick blocks) }
    ensures some { (held : List Write) (line_start : Content) (t : Replays) (n : Node) (pick : ℕ → ℕ → Bool) (blocks : Content) → GoodReplays held t → GoodCopy held t n → n.phase ≡ Copies → n.start.size ≡ line_start.size
        → ((v b : ℕ) → pick v b ≡ true → AtSome blocks line_start held (t.start n.replay) (t.read n.replay) v b) → (v b : ℕ) → AtSome n.base n.start held (t.start n.replay) (t.read n.replay) v b
        → AtSome (with_part line_start n pick blocks).base (with_part line_start n pick blocks).start held (t.start n.replay) (t.read n.replay) v b }
    ensures beyond { (held : List Write) (line_start : Content) (t : Replays) (n : Node) (pick : ℕ → ℕ → Bool) (blocks : Content) → GoodReplays held t → GoodCopy held t n → n.phase ≡ Copies → n.start.size ≡ line_start.size
        → ((v b : ℕ) → pick v b ≡ true → AtSome blocks line_start held (t.start n.replay) (t.read n.replay) v b) → ((v b : ℕ) → pick v b ≡ true → b < n.start.size v) → IsBeyond n.base n.start
        → IsBeyond (with_part line_start n pick blocks).base (with_part line_start n pick blocks).start }
    ensures mode { (held : List Write) (line_start : Content) (t : Replays) (n : Node) (pick : ℕ → ℕ → Bool) (blocks : Content) → GoodReplays held t → GoodCopy held t n → n.phase ≡ Copies → n.start.size ≡ line_start.size
        → ((v b : ℕ) → pick v b ≡ true → AtSome blocks line_start held (t.start n.replay) (t.read n.replay) v b) → (map : Regions) (stored : ℕ) (mode : Mode) → GoodMode held t n map stored mode
        → GoodMode held t (with_part line_start n pick blocks) map stored mode }
{}

/// A receiver that has every region goes on by the log from the start of the replay: its log is a first part of the line, all of it is durable,
/// and where no region was read later its content is told by it.
pub fn replays_are_closed()
    ensures copy { (held : List Write) (t : Replays) (n : Node) (start end : ℕ) → GoodReplays held t → n.safe ≤ length n.log → GoodCopy held t n → n.phase ≡ Copies → start ≡ t.start n.replay → end ≡ t.read n.replay
        → Fuzzy n.base n.start held (t.start n.replay) (t.read n.replay) no_regions → GoodCopy held t (closed_at held n start end) }
    ensures content { (held : List Write) (t : Replays) (n : Node) (start end : ℕ) → GoodReplays held t → n.safe ≤ length n.log → GoodCopy held t n → n.phase ≡ Copies → start ≡ t.start n.replay → end ≡ t.read n.replay
        → Fuzzy n.base n.start held (t.start n.replay) (t.read n.replay) no_regions → TellsContent (closed_at held n start end)
        → (closed_at held n start end).base ≡ fold_writes (closed_at held n start end).start (closed_at held n start end).log }
    ensures stored { (held : List Write) (t : Replays) (n : Node) (start end : ℕ) → GoodReplays held t → n.safe ≤ length n.log → GoodCopy held t n → n.phase ≡ Copies → start ≡ t.start n.replay → end ≡ t.read n.replay
        → Fuzzy n.base n.start held (t.start n.replay) (t.read n.replay) no_regions → (number : ℕ) → HasStored n number → HasStored (closed_at held n start end) number }
    ensures start { (held : List Write) (t : Replays) (n : Node) (start end : ℕ) → GoodReplays held t → n.safe ≤ length n.log → GoodCopy held t n → n.phase ≡ Copies → start ≡ t.start n.replay → end ≡ t.read n.replay
        → Fuzzy n.base n.start held (t.start n.replay) (t.read n.replay) no_regions → HasStored (closed_at held n start end) (t.start n.replay) }
    ensures mode { (held : List Write) (t : Replays) (n : Node) (start end : ℕ) → GoodReplays held t → n.safe ≤ length n.log → GoodCopy held t n → n.phase ≡ Copies → start ≡ t.start n.replay → end ≡ t.read n.replay
        → Fuzzy n.base n.start held (t.start n.replay) (t.read n.replay) no_regions → (map : Regions) (stored : ℕ) (mode : Mode) → IsReplayOver mode n.replay → GoodMode held t n map stored mode
        → GoodMode held t (closed_at held n start end) map stored mode }
{}

/// What a receiver acknowledges moves the link to it on: from the start to the regions, region by region, to the log, and to its end.
pub fn replays_go_on()
    ensures start { (held : List Write) (t : Replays) (n : Node) (stored : ℕ) (map : Regions) (id left start end : ℕ) → GoodReplays held t → GoodCopy held t n → AllByRecursion IsWholeBlocks held → IsBeyond n.base n.start
        → n.safe ≤ length n.log → (left ≡ 0 → NoRegionLeft n.start.size map) → n.replay ≡ id → GoodPhase held t n map stored Start id left start end → GoodMode held t n map stored (copying_on id left start end) }
    ensures region { (held : List Write) (t : Replays) (n : Node) (stored : ℕ) (map : Regions) (id left start end volume region : ℕ) → GoodReplays held t → GoodCopy held t n → AllByRecursion IsWholeBlocks held → IsBeyond n.base n.start
        → (left - 1 ≡ 0 → NoRegionLeft n.start.size (without_region map volume region)) → RegionFuzzy n.base n.start held (t.start id) (t.read id) volume region → GoodPhase held t n map stored CopiesRegions id left start end
        → GoodMode held t n (without_region map volume region) stored (copying_on id (left - 1) start end) }
    ensures done { (held : List Write) (t : Replays) (n : Node) (stored : ℕ) (map : Regions) (id left start end : ℕ) → n.phase ≡ Fills → GoodPhase held t n map stored Done id left start end
        → GoodMode held t n map start (Replay id ByLogAgain left start end) }
    ensures ended { (held : List Write) (t : Replays) (n : Node) (stored : ℕ) (map : Regions) (id left start end number : ℕ) → GoodCopy held t n → end ≤ number → HasStored n number
        → GoodPhase held t n map stored ByLogAgain id left start end → GoodMode held t n no_regions number Log }
{}

/// Each message of a replay says what it said behind a line that grows, a further replay, a region that is read, and what a receiver takes.
pub fn replays_say_so()
    ensures region_more { (held ys : List Write) (t : Replays) → GoodReplays held t → (line_start : Content) (id volume region : ℕ) (blocks : Content) → SaysRegion held line_start t id volume region blocks
        → SaysRegion (held ++ ys) line_start t id volume region blocks }
    ensures copied_more { (held ys : List Write) (t : Replays) → GoodReplays held t → (n : Node) (mode : Mode) (id start end : ℕ) → n.replay ≤ t.begun → SaysCopied held t n mode id start end
        → SaysCopied (held ++ ys) t n mode id start end }
    ensures stored_more { (held ys : List Write) (t : Replays) → GoodReplays held t → (n : Node) (id volume region kind : ℕ) → n.replay ≤ t.begun → SaysStored held t n id volume region kind
        → SaysStored (held ++ ys) t n id volume region kind }
    ensures start_begun { (t : Replays) (id head : ℕ) → t.begun < id → (i start : ℕ) → SaysStart t i start → SaysStart (begun_table t id head) i start }
    ensures region_begun { (held : List Write) (t : Replays) (id head : ℕ) → t.begun < id → (line_start : Content) (i volume region : ℕ) (blocks : Content) → SaysRegion held line_start t i volume region blocks
        → SaysRegion held line_start (begun_table t id head) i volume region blocks }
    ensures copied_begun { (held : List Write) (t : Replays) (id head : ℕ) → t.begun < id → (n : Node) (mode : Mode) (i start end : ℕ) → n.replay ≤ t.begun → SaysCopied held t n mode i start end
        → SaysCopied held (begun_table t id head) n mode i start end }
    ensures stored_begun { (held : List Write) (t : Replays) (id head : ℕ) → t.begun < id → (n : Node) (i volume region kind : ℕ) → n.replay ≤ t.begun → SaysStored held t n i volume region kind
        → SaysStored held (begun_table t id head) n i volume region kind }
    ensures region_read { (held : List Write) (t : Replays) (head : ℕ) → GoodReplays held t → head ≡ length held → (line_start : Content) (id volume region : ℕ) (blocks : Content) → SaysRegion held line_start t id volume region blocks
        → SaysRegion held line_start (read_table t head) id volume region blocks }
    ensures copied_read { (held : List Write) (t : Replays) (head : ℕ) → GoodReplays held t → head ≡ length held → (n : Node) (id left start end at from to : ℕ) → id ≡ t.begun
        → SaysCopied held t n (Replay id CopiesRegions left start end) at from to → SaysCopied held (read_table t head) n (Replay id CopiesRegions left start head) at from to }
    ensures stored_read { (held : List Write) (t : Replays) (head : ℕ) → GoodReplays held t → head ≡ length held → (n : Node) (id volume region kind : ℕ) → n.replay ≤ t.begun → SaysStored held t n id volume region kind
        → SaysStored held (read_table t head) n id volume region kind }
    ensures copied_entered { (held : List Write) (t : Replays) (n : Node) (id : ℕ) → n.replay < id → (mode : Mode) (i start end : ℕ) → SaysCopied held t n mode i start end → SaysCopied held t (entered n id) mode i start end }
    ensures stored_entered { (held : List Write) (t : Replays) (n : Node) (id : ℕ) → n.replay < id → (i volume region kind : ℕ) → SaysStored held t n i volume region kind → SaysStored held t (entered n id) i volume region kind }
    ensures over { (held : List Write) (t : Replays) (n : Node) (mode next : Mode) (id start end : ℕ) → ((i : ℕ) → i ≤ n.replay → IsReplayOver mode i → IsReplayOver next i) → SaysCopied held t n mode id start end
        → SaysCopied held t n next id start end }
{}

/// A receiver answers what is so: it took the start of a replay, it stored a whole region, it took the end of the copying; and what it and the other
/// messages said before stays so.
pub fn replays_are_answered()
    ensures start { (held : List Write) (t : Replays) (n : Node) (id : ℕ) → n.replay < id → SaysStored held t (entered n id) id 0 0 0 }
    ensures region { (held : List Write) (line_start : Content) (t : Replays) (n : Node) (pick : ℕ → ℕ → Bool) (blocks : Content) → GoodReplays held t → GoodCopy held t n → n.phase ≡ Copies → n.start.size ≡ line_start.size
        → ((v b : ℕ) → pick v b ≡ true → AtSome blocks line_start held (t.start n.replay) (t.read n.replay) v b) → (volume region : ℕ)
        → ((v b : ℕ) → is_in_region n.start.size volume region v b ≡ true → pick v b ≡ true) → SaysStored held t (with_part line_start n pick blocks) n.replay volume region 1 }
    ensures copied { (held : List Write) (line_start : Content) (t : Replays) (n : Node) (pick : ℕ → ℕ → Bool) (blocks : Content) → GoodReplays held t → GoodCopy held t n → n.phase ≡ Copies → n.start.size ≡ line_start.size
        → ((v b : ℕ) → pick v b ≡ true → AtSome blocks line_start held (t.start n.replay) (t.read n.replay) v b) → (mode : Mode) (id start end : ℕ) → SaysCopied held t n mode id start end
        → SaysCopied held t (with_part line_start n pick blocks) mode id start end }
    ensures stored { (held : List Write) (line_start : Content) (t : Replays) (n : Node) (pick : ℕ → ℕ → Bool) (blocks : Content) → GoodReplays held t → GoodCopy held t n → n.phase ≡ Copies → n.start.size ≡ line_start.size
        → ((v b : ℕ) → pick v b ≡ true → AtSome blocks line_start held (t.start n.replay) (t.read n.replay) v b) → (id volume region kind : ℕ) → SaysStored held t n id volume region kind
        → SaysStored held t (with_part line_start n pick blocks) id volume region kind }
    ensures done { (held : List Write) (t : Replays) (n : Node) (start end : ℕ) → GoodReplays held t → n.safe ≤ length n.log → GoodCopy held t n → n.phase ≡ Copies → start ≡ t.start n.replay → end ≡ t.read n.replay
        → Fuzzy n.base n.start held (t.start n.replay) (t.read n.replay) no_regions → SaysStored held t (closed_at held n start end) n.replay 0 0 2 }
    ensures copied_closed { (held : List Write) (t : Replays) (n : Node) (start end : ℕ) (mode : Mode) (id from to : ℕ) → SaysCopied held t n mode id from to → SaysCopied held t (closed_at held n start end) mode id from to }
    ensures stored_closed { (held : List Write) (t : Replays) (n : Node) (start end : ℕ) → n.phase ≡ Copies → (id volume region kind : ℕ) → SaysStored held t n id volume region kind
        → SaysStored held t (closed_at held n start end) id volume region kind }
{}
