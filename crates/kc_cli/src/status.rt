//! How a command ended, and the exit status of the process that says so.
ghost use Rattle.std.specs.Prelude.{◌≡◌};
ghost use Rattle.kc_cli.specs.Status.{code_of};

/// How a command ended.
#[derive(Clone, Copy, Debug, PartialEq, Eq)]
pub enum Status {
    /// The command did all that it does.
    Ended,
    /// The program that was run ended with an exception.
    Threw,
    /// The words of the command line are no command.
    Words,
    /// A source file is not accepted.
    Refused,
    /// A measure of the source files is above its limit.
    Limit,
    /// A file or the input is missing or cannot be read.
    ReadFault,
    /// A file or an output stream cannot be written.
    WriteFault,
    /// A class file is not accepted.
    ClassRefused,
    /// The program that was run made as many steps as it may.
    StepLimit,
    /// An allocation failed.
    Memory,
}

impl Status {
    /// The exit status of the process: 0 to 8, or 70 for want of memory.
    pub fn code(self) -> u8
        ensures { result ≡ code_of self }
    {
        match self {
            Status::Ended => 0,
            Status::Threw => 1,
            Status::Words => 2,
            Status::Refused => 3,
            Status::Limit => 4,
            Status::ReadFault => 5,
            Status::WriteFault => 6,
            Status::ClassRefused => 7,
            Status::StepLimit => 8,
            Status::Memory => 70,
        }
    }
}
