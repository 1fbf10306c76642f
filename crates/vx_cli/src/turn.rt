// One turn of the loop: a line is read and answered.
ghost use Rattle.std.specs.Prelude.{◌≡◌, ◌≤◌, ◌<◌, ◌^◌, ℕ, Some};
ghost use Rattle.vx_history.specs.Doubts.{Doubted};
ghost use Rattle.vx_stream.specs.Causes.{StreamRose};
ghost use Rattle.vx_yard.specs.Standing.{Serves};
ghost use Rattle.vx_yard.specs.Yards.{IsYardKept, IsTold, in_files};
ghost use Rattle.vx_cli.specs.Turns.{AnswerIs, TurnIs};

use crate::Status;
use crate::line::line_of;
use crate::reader::{Next, ReadError, next_line};
use crate::texts::{bad, unbuilt};
use std::alloc::Global;
use vx_disk::Rack;
use vx_model::limits::MOST_NUMBER;
use vx_node::answer_line;
use vx_script::LineErr;
use vx_stream::{Sink, Source};
use vx_yard::{LineStop, Yard};

/// Answers a line, of which `number` came before. `None` goes on.
fn answer<O: Sink, R: Rack>(
    alloc: Global,
    yard: &mut Yard<R>,
    sink: &mut O,
    number: u64,
    line: &[u8],
) -> Option<Status>
    requires kept { IsYardKept yard.old }
    requires few { number ≤ MOST_NUMBER }
    ensures answer { (d : Doubted) → Serves d yard.old
        → AnswerIs number d line.now result yard.old yard.new (O.written sink.old) (O.written sink.new) }
    ensures told { IsTold yard.new → IsTold yard.old }
    ensures files { in_files yard.new ≡ in_files yard.old }
    ensures reading { result ≡ Some Status.ReadFault → ⊥ }
    ensures later { O.faults sink.old ≤ O.faults sink.new }
    ensures cause { result ≡ Some Status.WriteFault → StreamRose (O.faults sink.old) (O.faults sink.new) }
{
    match line_of(alloc, line, number + 1) {
        Ok(None) => None,
        Ok(Some(words)) => match answer_line(yard, alloc, &words, sink) {
            Ok(()) => None,
            Err(LineStop::WriteFault) => Some(Status::WriteFault),
            Err(LineStop::Open) => Some(unbuilt(alloc, sink, number + 1)),
            Err(LineStop::OutOfMemory) => Some(Status::OutOfMemory),
        },
        Err(LineErr::Bad { line, column }) => Some(bad(alloc, sink, line, column)),
        Err(LineErr::OutOfMemory) => Some(Status::OutOfMemory),
    }
}

/// Reads a line, of which `number` came before, and answers it. `None` goes on.
pub fn turn<I: Source, O: Sink, R: Rack>(
    alloc: Global,
    yard: &mut Yard<R>,
    source: &mut I,
    sink: &mut O,
    held: &mut Vec<u8>,
    line: &mut Vec<u8>,
    number: u64,
) -> Option<Status>
    requires kept { IsYardKept yard.old }
    requires few { number < 1000000 }
    ensures turn { (d : Doubted) → Serves d yard.old
        → TurnIs number d held.old.items (I.left source.old) result yard.old yard.new held.new.items (I.left source.new) (O.written sink.old) (O.written sink.new) }
    ensures told { IsTold yard.new → IsTold yard.old }
    ensures files { in_files yard.new ≡ in_files yard.old }
    ensures read_later { I.faults source.old ≤ I.faults source.new }
    ensures read { result ≡ Some Status.ReadFault → StreamRose (I.faults source.old) (I.faults source.new) }
    ensures write_later { O.faults sink.old ≤ O.faults sink.new }
    ensures write { result ≡ Some Status.WriteFault → StreamRose (O.faults sink.old) (O.faults sink.new) }
{
    match next_line(source, held, line) {
        Ok(Next::Line) => answer(alloc, yard, sink, number, line),
        Ok(Next::Last) => match answer(alloc, yard, sink, number, line) {
            Some(status) => Some(status),
            None => Some(Status::Done),
        },
        Ok(Next::End) => Some(Status::Done),
        Ok(Next::Long) => Some(bad(alloc, sink, number + 1, 4097)),
        Err(ReadError::Fault) => Some(Status::ReadFault),
        Err(ReadError::Memory) => Some(Status::OutOfMemory),
    }
}
