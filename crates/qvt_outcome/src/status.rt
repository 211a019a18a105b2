ghost use Rattle.std.specs.Prelude.{◌≡◌};
ghost use Rattle.qvt_outcome.specs.Outcome.{status_number};

/// How a call of the program ended.
#[derive(Clone, Copy, Debug, PartialEq, Eq)]
pub enum Status {
    Done,
    Refused,
    Usage,
    Fault,
    OutOfFuel,
    Low,
    ReadFault,
    WriteFault,
    NoMemory,
}

impl Status {
    /// The number that the program exits with.
    pub fn number(self) -> u8
        ensures { result ≡ status_number self }
    {
        match self {
            Status::Done => 0,
            Status::Refused => 1,
            Status::Usage => 2,
            Status::Fault => 3,
            Status::OutOfFuel => 4,
            Status::Low => 5,
            Status::ReadFault => 6,
            Status::WriteFault => 7,
            Status::NoMemory => 8,
        }
    }
}
