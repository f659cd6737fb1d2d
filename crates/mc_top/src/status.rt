//! How a run of the program ends.
ghost use Rattle.std.specs.Prelude.{◌≡◌};
ghost use Rattle.std.specs.Option.{option_copied};
ghost use Rattle.mc_top.specs.Statuses.{text_of, number_of};

/// How a run of the program ends.
#[derive(Clone, Copy, Debug, PartialEq, Eq)]
pub enum Status {
    /// All input was read, or all up to a `quit`, and all replies to it are written.
    Ended = 0,
    /// The words are not those of a command.
    BadWords = 1,
    /// Memory was wanting.
    NoMemory = 2,
    /// The input failed.
    ReadFault = 3,
    /// The output failed.
    WriteFault = 4,
    /// The input has more bytes than are read, and no `quit` before.
    TooMuch = 7,
    /// The input ended inside a command. All before it is answered.
    EndedInside = 8,
}

impl Status {
    /// The exit status of the process.
    pub fn number(self) -> u8
        ensures { result ≡ number_of self }
    {
        self as u8
    }

    /// What is said of it on standard error, without the line's end.
    pub fn text(self) -> Option<&'static str>
        ensures { option_copied result ≡ text_of self }
    {
        match self {
            Status::Ended => None,
            Status::BadWords => Some("trustmc: bad words"),
            Status::NoMemory => Some("trustmc: no memory"),
            Status::ReadFault => Some("trustmc: read fault"),
            Status::WriteFault => Some("trustmc: write fault"),
            Status::TooMuch => Some("trustmc: too much input"),
            Status::EndedInside => Some("trustmc: input ended inside a command"),
        }
    }
}
