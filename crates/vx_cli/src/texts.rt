// What is written of a script that is wrong.
ghost use Rattle.std.specs.Prelude.{◌≡◌, ◌≤◌, IfOk};
ghost use Rattle.vx_stream.specs.Causes.{StreamRose};
ghost use Rattle.vx_cli.specs.Texts.{bad_text};
ghost use Rattle.vx_cli.specs.Turns.{BadIs};

use crate::Status;
use std::alloc::{AllocError, Global};
use vx_stream::{Sink, send};

#[tactic(auto, unfolding(crate::specs::Texts::bad_text))]
fn bad_line(alloc: Global, line: u64, column: u64) -> Result<Vec<u8>, AllocError>
    ensures { IfOk result (λ text. text.items ≡ bad_text line column) }
{
    Ok(format!(in alloc; "bad {line} {column}\n")?.into_bytes())
}

/// Writes the line that says where the script is wrong.
pub fn bad<O: Sink>(alloc: Global, sink: &mut O, line: u64, column: u64) -> Status
    ensures bad { BadIs line column result (O.written sink.old) (O.written sink.new) }
    ensures reading { result ≡ Status.ReadFault → ⊥ }
    ensures later { O.faults sink.old ≤ O.faults sink.new }
    ensures cause { result ≡ Status.WriteFault → StreamRose (O.faults sink.old) (O.faults sink.new) }
{
    match bad_line(alloc, line, column) {
        Ok(text) => match send(sink, &text) {
            Ok(()) => Status::BadLine { line, column },
            Err(_) => Status::WriteFault,
        },
        Err(_) => Status::OutOfMemory,
    }
}

/// Writes the same of an open line: it is answered as one whose kind is not built, wrong at its first byte.
pub fn unbuilt<O: Sink>(alloc: Global, sink: &mut O, line: u64) -> Status
    ensures bad { BadIs line 1 result (O.written sink.old) (O.written sink.new) }
    ensures reading { result ≡ Status.ReadFault → ⊥ }
    ensures later { O.faults sink.old ≤ O.faults sink.new }
    ensures cause { result ≡ Status.WriteFault → StreamRose (O.faults sink.old) (O.faults sink.new) }
{
    bad(alloc, sink, line, 1)
}
