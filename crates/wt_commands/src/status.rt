ghost use Rattle.std.specs.Prelude.{◌≡◌};
ghost use Rattle.wt_commands.specs.Statuses.{code};

/// How a call ends.
#[derive(Clone, Copy, Debug, PartialEq, Eq)]
pub enum Status {
    /// The answer was written.
    Done,
    /// The words are none of a command.
    Usage,
    /// The page is refused.
    PageRefused,
    /// The HTML is refused.
    HtmlRefused,
    /// The edit is refused.
    EditRefused,
    /// Standard input failed.
    ReadFault,
    /// The folder failed.
    FolderFault,
    /// Standard output or standard error failed.
    WriteFault,
    /// No memory was found.
    NoMemory,
}

impl Status {
    /// The number with which the program ends.
    pub fn code(self) -> u8
        ensures { result ≡ code self }
    {
        match self {
            Status::Done => 0,
            Status::Usage => 1,
            Status::PageRefused => 2,
            Status::HtmlRefused => 3,
            Status::EditRefused => 4,
            Status::ReadFault => 5,
            Status::FolderFault => 6,
            Status::WriteFault => 7,
            Status::NoMemory => 8,
        }
    }
}
