// What each complete kind of line is refused.
ghost use Rattle.std.specs.Prelude.{◌≡◌, ℕ, List, Bool};
ghost use Rattle.vx_model.specs.declared.block_list.Blocks.{Blocks};
ghost use Rattle.vx_script.specs.declared.line.ScriptLine.{ScriptLine};
ghost use Rattle.vx_script.specs.declared.line.DiskState.{DiskState};
ghost use Rattle.vx_order.specs.declared.facts.SiteFacts.{SiteFacts};
ghost use Rattle.vx_order.specs.declared.span.Way.TheVariants.{Writes, Reads, Shows};
ghost use Rattle.vx_order.specs.Order.{line_refusal};
ghost use Rattle.vx_order.specs.Sites.{site_named};
ghost use Rattle.vx_order.specs.Kinds.{site_refusal, raw_refusal, disk_refusal, status_refusal, recover_refusal, up_refusal, apply_refusal, call_refusal};

/// A `site` line: a name that is taken, too many sites, disks or blocks, no disk or too few blocks, in this order.
pub fn site_lines()
    ensures { (sites : List SiteFacts) (files : Bool) (name : List ℕ) (disks blocks : ℕ) → line_refusal sites files (ScriptLine.Site name disks blocks) ≡ site_refusal sites files name disks blocks }
{}

/// A `raw` line: an unknown site, one that is not bare, disks that make no raw set.
pub fn raw_lines()
    ensures { (sites : List SiteFacts) (files : Bool) (name : List ℕ) → line_refusal sites files (ScriptLine.Raw name) ≡ raw_refusal (site_named sites name) name }
{}

/// A `disk` line: an unknown site, an unknown disk.
pub fn disk_lines()
    ensures { (sites : List SiteFacts) (files : Bool) (name : List ℕ) (disk : ℕ) (state : DiskState) → line_refusal sites files (ScriptLine.Disk name disk state) ≡ disk_refusal (site_named sites name) name disk }
{}

/// A `status` line: an unknown site alone.
pub fn status_lines()
    ensures { (sites : List SiteFacts) (files : Bool) (name : List ℕ) → line_refusal sites files (ScriptLine.Status name) ≡ status_refusal (site_named sites name) name }
{}

/// A `write` line: an unknown site, one that is neither up nor bare, a halted one, a volume without the role, an
/// unknown volume, a count outside its bounds or the ring, blocks past the end, and at a volume that is logged a link that is
/// down and then one that leaves too little room, in this order.
pub fn write_lines()
    ensures { (sites : List SiteFacts) (files : Bool) (name volume : List ℕ) (start count fill : ℕ) → line_refusal sites files (ScriptLine.Write name volume start count fill) ≡ call_refusal sites (site_named sites name) name (record { volume = volume; start = start; count = count; way = Writes }) }
{}

/// A `put` line, as a `write` line of one block.
pub fn put_lines()
    ensures { (sites : List SiteFacts) (files : Bool) (name volume : List ℕ) (start : ℕ) (bytes : Blocks) → line_refusal sites files (ScriptLine.Put name volume start bytes) ≡ call_refusal sites (site_named sites name) name (record { volume = volume; start = start; count = 1; way = Writes }) }
{}

/// A `read` line, as a `write` line but for the ring.
pub fn read_lines()
    ensures { (sites : List SiteFacts) (files : Bool) (name volume : List ℕ) (start count : ℕ) → line_refusal sites files (ScriptLine.Read name volume start count) ≡ call_refusal sites (site_named sites name) name (record { volume = volume; start = start; count = count; way = Reads }) }
{}

/// A `show` line, as a `read` line but for the role.
pub fn show_lines()
    ensures { (sites : List SiteFacts) (files : Bool) (name volume : List ℕ) (start count : ℕ) → line_refusal sites files (ScriptLine.Show name volume start count) ≡ call_refusal sites (site_named sites name) name (record { volume = volume; start = start; count = count; way = Shows }) }
{}

/// A `recover` line: an unknown site, a deported one.
pub fn recover_lines()
    ensures { (sites : List SiteFacts) (files : Bool) (name : List ℕ) → line_refusal sites files (ScriptLine.Recover name) ≡ recover_refusal (site_named sites name) name }
{}

/// A `crash` line: an unknown site, one that is not up.
pub fn crash_lines()
    ensures { (sites : List SiteFacts) (files : Bool) (name : List ℕ) (pick : ℕ) → line_refusal sites files (ScriptLine.Crash name pick) ≡ up_refusal (site_named sites name) name }
{}

/// A `fuse` line, as a `crash` line.
pub fn fuse_lines()
    ensures { (sites : List SiteFacts) (files : Bool) (name : List ℕ) (calls pick : ℕ) → line_refusal sites files (ScriptLine.Fuse name calls pick) ≡ up_refusal (site_named sites name) name }
{}

/// An `apply` line: an unknown site, one that is not up, a halted one, one without a replicated volume group.
pub fn apply_lines()
    ensures { (sites : List SiteFacts) (files : Bool) (name : List ℕ) (to : ℕ) → line_refusal sites files (ScriptLine.Apply name to) ≡ apply_refusal (site_named sites name) name }
{}
