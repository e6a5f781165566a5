// How a run ends.
ghost use Rattle.std.specs.Prelude.{◌≡◌};
ghost use Rattle.j2k_tool.specs.Statuses.{number_of};

/// How a run ended.
#[derive(Clone, Copy, Debug, PartialEq, Eq)]
pub enum Status {
    /// It did what the words ask for.
    Done,
    /// The project has a fault, which was printed.
    Refused,
    /// The words mean no command.
    Usage,
    /// The disk failed at a listing or a read.
    ReadFault,
    /// The disk failed at a write.
    WriteFault,
    /// Memory ran out.
    NoMemory,
    /// The target folder holds a file.
    NotEmpty,
    /// A limit on sizes is exceeded.
    TooLarge,
    /// The sink failed while an answer was printed.
    OutFault,
}

impl Status {
    /// The program's exit status.
    pub fn number(self) -> u8
        ensures { result ≡ number_of self }
    {
        match self {
            Status::Done => 0,
            Status::Refused => 1,
            Status::Usage => 2,
            Status::ReadFault => 3,
            Status::WriteFault => 4,
            Status::NoMemory => 5,
            Status::NotEmpty => 6,
            Status::TooLarge => 7,
            Status::OutFault => 8,
        }
    }
}
