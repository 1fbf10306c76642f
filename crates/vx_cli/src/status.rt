// How a run ends.
ghost use Rattle.std.specs.Prelude.{◌≡◌};
ghost use Rattle.vx_cli.specs.Codes.{code_of};

/// How a run ended.
#[derive(Clone, Copy, Debug, PartialEq, Eq)]
pub enum Status {
    /// Each line was answered.
    Done,
    /// The words ask for nothing that there is. Nothing was read.
    Usage,
    /// Line `line` of the script is wrong at the byte of this place; both are counted from 1.
    BadLine { line: u64, column: u64 },
    /// The script could not be read further.
    ReadFault,
    /// An answer could not be written whole.
    WriteFault,
    OutOfMemory,
    /// The script has more than 1,000,000 lines.
    TooLong,
}

impl Status {
    /// The exit status of the program, from 0 for `Done` to 6 for `TooLong`.
    pub fn code(self) -> u8
        ensures { result ≡ code_of self }
    {
        match self {
            Status::Done => 0,
            Status::Usage => 1,
            Status::BadLine { .. } => 2,
            Status::ReadFault => 3,
            Status::WriteFault => 4,
            Status::OutOfMemory => 5,
            Status::TooLong => 6,
        }
    }
}
