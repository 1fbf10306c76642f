// The words that the program was called with.
ghost use Rattle.std.specs.Prelude.{◌≡◌, ◌⊎◌, IfErr};

use std::env;
use std::io::ErrorKind;
use vx_cli::Status;

/// The words after the program's name. One that is not UTF-8 asks for nothing that there is.
pub fn words(rt: HostRuntime) -> Result<Vec<String>, Status>
    ensures { IfErr result (λ status. (status ≡ Status.Usage) ⊎ (status ≡ Status.OutOfMemory)) }
{
    match env::args(&rt) {
        Ok(all) => match all.skip(1).collect(rt.alloc()) {
            Ok(words) => Ok(words),
            Err(_) => Err(Status::OutOfMemory),
        },
        Err(error) => {
            if error.kind() == ErrorKind::OutOfMemory {
                Err(Status::OutOfMemory)
            } else {
                Err(Status::Usage)
            }
        }
    }
}
