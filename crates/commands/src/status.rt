//! How a command ended.
ghost use Rattle.std.specs.Prelude.{◌≡◌};
ghost use Rattle.commands.specs.Refusals.{exit_status};

/// How a command ended. The number of each is the program's exit status.
///
/// docs/FORMATS.md, "Exit statuses and lines of refusal".
#[derive(Debug, Clone, Copy, PartialEq, Eq)]
pub enum Status {
    /// The work is done, and what it gives is written.
    Done = 0,
    /// A certificate or a report was rejected, and the verdict is written.
    Rejected = 1,
    /// The words are no command.
    Usage = 2,
    /// A text is refused, or a word that names what is not in the texts, or a factor by which the arrivals cannot be scaled.
    BadInput = 3,
    /// A text can't be read.
    ReadFault = 4,
    /// What the work gives can't be written.
    WriteFault = 5,
    /// Memory ran out.
    NoMemory = 6,
}

impl Status {
    /// The program's exit status.
    ///
    /// docs/FORMATS.md, "Exit statuses and lines of refusal".
    pub fn code(self) -> u8
        ensures { result ≡ exit_status self }
    {
        self as u8
    }
}
