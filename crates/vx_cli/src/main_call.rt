// The top call.
ghost use Rattle.std.specs.Prelude.{◌≡◌, ◌⊎◌, ◌≤◌, ◌↔◌, ℕ, List, Bool, Option, Some, None, map};
ghost use Rattle.std.specs.String.{string_bytes};
ghost use Rattle.vx_stream.specs.Causes.{StreamRose};
ghost use Rattle.vx_script.specs.Lines.{split_lines};
ghost use Rattle.vx_yard.specs.Holds.{AreFresh, RacksTell, rack_faults};
ghost use Rattle.vx_cli.specs.Complete.{IsGoodScript, IsUncut, FirstBad, IsTooLong, IsStillCount, AreStill, IsClean, StopsOpen};
ghost use Rattle.vx_cli.specs.Ends.{RunIs};
ghost use Rattle.vx_cli.specs.Runs.{LeavesRacks};
ghost use Rattle.vx_cli.specs.Words.{run_words};

use crate::run::run;
use crate::words::asks_run;
use crate::{Gate, Status};
use std::alloc::Global;
use std::sync::Wait;
use std::thread::Threads;
use vx_disk::Rack;
use vx_stream::{Sink, Source};

/// Runs a script: reads the source line by line, and writes the reply of each line to the sink. The racks are the disks
/// of the sites, one for each site number; at every end they come back, and hold what the run did.
///
/// The words are `run` or `run --dir D`, where the disks are kept in files of the folder D. Any others are `Usage`.
pub fn vx_main<H: Threads + Wait + Sync, I: Source, O: Sink, R: Rack, G: Gate>(
    rt: &H,
    alloc: Global,
    words: &[String],
    source: &mut I,
    sink: &mut O,
    racks: &mut Vec<R>,
    gate: &G,
) -> Status
    requires fresh { AreFresh R.meaning racks.old.items }
    // The lines that were read, each a step of the world with its reply, what was written by the status, the counts of the
    // disks, and the world that the racks then hold. Blocks that were read are as the world has them where the racks tell.
    ensures run { (files : Bool) → run_words (map string_bytes words.now) ≡ Some files
        → RunIs (RacksTell R.meaning racks.new.items) files (LeavesRacks R.meaning racks.new.items) result
        (I.left source.old) (I.left source.new) (O.written sink.old) (O.written sink.new)
        (rack_faults R.meaning racks.old.items) (rack_faults R.meaning racks.new.items) }
    ensures usage { (result ≡ Status.Usage) ↔ (run_words (map string_bytes words.now) ≡ None) }
    // Then nothing is read, written or changed.
    ensures untouched { result ≡ Status.Usage → (source.new ≡ source.old) × (sink.new ≡ sink.old) × (racks.new ≡ racks.old) }
    ensures read_later { I.faults source.old ≤ I.faults source.new }
    ensures read { result ≡ Status.ReadFault → StreamRose (I.faults source.old) (I.faults source.new) }
    ensures write_later { O.faults sink.old ≤ O.faults sink.new }
    ensures write { result ≡ Status.WriteFault → StreamRose (O.faults sink.old) (O.faults sink.new) }
    // Unless a fault of an end or want of memory cut the run off, or it ended at an open line: a good script is done, the first line that is wrong is
    // answered as such, and so is a line too many.
    ensures complete { (files : Bool) → run_words (map string_bytes words.now) ≡ Some files
        → (input : List ℕ) → I.left source.old ≡ Some input → IsGoodScript input → IsUncut result
        → (result ≡ Status.Done) ⊎ StopsOpen (RacksTell R.meaning racks.new.items) files result (split_lines input) }
    ensures bad { (files : Bool) → run_words (map string_bytes words.now) ≡ Some files
        → (input : List ℕ) → I.left source.old ≡ Some input → (line column : ℕ) → FirstBad input line column → IsUncut result
        → (result ≡ Status.BadLine line column) ⊎ StopsOpen (RacksTell R.meaning racks.new.items) files result (split_lines input) }
    ensures long { (files : Bool) → run_words (map string_bytes words.now) ≡ Some files
        → (input : List ℕ) → I.left source.old ≡ Some input → IsTooLong input → IsUncut result
        → (result ≡ Status.TooLong) ⊎ StopsOpen (RacksTell R.meaning racks.new.items) files result (split_lines input) }
    // Where no count rose, a good script is done with no failed call in any line, unless memory ran out or it ended at an open line.
    ensures clean { (files : Bool) → run_words (map string_bytes words.now) ≡ Some files
        → (input : List ℕ) → I.left source.old ≡ Some input → IsGoodScript input
        → IsStillCount (I.faults source.old) (I.faults source.new) → IsStillCount (O.faults sink.old) (O.faults sink.new)
        → AreStill (rack_faults R.meaning racks.old.items) (rack_faults R.meaning racks.new.items)
        → IsClean (RacksTell R.meaning racks.new.items) files (LeavesRacks R.meaning racks.new.items) result (split_lines input) (O.written sink.old) (O.written sink.new) }
{
    match asks_run(words) {
        Some(files) => {
            if files {
                run(alloc, source, sink, racks, Some(words[2].as_str()))
            } else {
                run(alloc, source, sink, racks, None)
            }
        }
        None => Status::Usage,
    }
}
