// A whole run.
ghost use Rattle.std.specs.Prelude.{◌≡◌, ◌≤◌, ℕ, [], is_some};
ghost use Rattle.vx_history.specs.World.{empty_world};
ghost use Rattle.vx_events.specs.Doubts.{sure};
ghost use Rattle.vx_stream.specs.Causes.{StreamRose};
ghost use Rattle.vx_yard.specs.Holds.{AreFresh, RacksTell, rack_faults};
ghost use Rattle.vx_yard.specs.Standing.{Serves};
ghost use Rattle.vx_cli.specs.Ends.{RunIs};
ghost use Rattle.vx_cli.specs.Runs.{LeavesRacks};
ghost use Rattle.vx_cli.specs.Turns.{YardComes};

use crate::Status;
use crate::reader::{ReadError, more};
use crate::turn::turn;
use std::alloc::Global;
use std::mem;
use vx_disk::Rack;
use vx_stream::{Sink, Source};
use vx_yard::Yard;

/// Reads the lines of the source to its end, and writes the reply of each.
fn answer_all<I: Source, O: Sink, R: Rack>(
    alloc: Global,
    yard: &mut Yard<R>,
    source: &mut I,
    sink: &mut O,
) -> Status
    requires serves { Serves (sure empty_world) yard.old }
    ensures run { YardComes 0 (sure empty_world) [] (I.left source.old) result yard.old yard.new (I.left source.new) (O.written sink.old) (O.written sink.new) }
    ensures read_later { I.faults source.old ≤ I.faults source.new }
    ensures read { result ≡ Status.ReadFault → StreamRose (I.faults source.old) (I.faults source.new) }
    ensures write_later { O.faults sink.old ≤ O.faults sink.new }
    ensures write { result ≡ Status.WriteFault → StreamRose (O.faults sink.old) (O.faults sink.new) }
{
    let mut held = Vec::new(alloc);
    let mut line = Vec::new(alloc);
    for number in 0..1_000_000 {
        if let Some(status) = turn(alloc, yard, source, sink, &mut held, &mut line, number) {
            return status;
        }
    }
    match more(source, &mut held) {
        Ok(follows) => {
            if follows {
                Status::TooLong
            } else {
                Status::Done
            }
        }
        Err(ReadError::Fault) => Status::ReadFault,
        Err(ReadError::Memory) => Status::OutOfMemory,
    }
}

/// A run over these racks, which come back at its end.
pub fn run<I: Source, O: Sink, R: Rack>(
    alloc: Global,
    source: &mut I,
    sink: &mut O,
    racks: &mut Vec<R>,
    dir: Option<&str>,
) -> Status
    requires fresh { AreFresh R.meaning racks.old.items }
    ensures run { RunIs (RacksTell R.meaning racks.new.items) (is_some dir.entry) (LeavesRacks R.meaning racks.new.items) result
        (I.left source.old) (I.left source.new) (O.written sink.old) (O.written sink.new)
        (rack_faults R.meaning racks.old.items) (rack_faults R.meaning racks.new.items) }
    ensures read_later { I.faults source.old ≤ I.faults source.new }
    ensures read { result ≡ Status.ReadFault → StreamRose (I.faults source.old) (I.faults source.new) }
    ensures write_later { O.faults sink.old ≤ O.faults sink.new }
    ensures write { result ≡ Status.WriteFault → StreamRose (O.faults sink.old) (O.faults sink.new) }
{
    let taken = mem::replace(racks, Vec::new(alloc));
    match Yard::new(alloc, taken, dir) {
        Ok(mut yard) => {
            let status = answer_all(alloc, &mut yard, source, sink);
            *racks = yard.into_racks();
            status
        }
        Err((back, _)) => {
            *racks = back;
            Status::OutOfMemory
        }
    }
}
