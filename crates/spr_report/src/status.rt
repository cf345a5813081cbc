//! How a command ended.

ghost use Rattle.std.specs.Prelude.{◌≡◌};
ghost use Rattle.spr_report.specs.Status.{number_of};

/// How a command ended: the number that the process gives back, and that the last line of its text names.
#[derive(Clone, Copy, Debug, PartialEq, Eq)]
pub enum Status {
    /// All went well.
    Good,
    /// A store failed, or a trail was full.
    Faulted,
    /// The words are no command.
    Usage,
    /// A text was refused.
    Refused,
    /// A text could not be read.
    ShelfFault,
    /// A store could not be taken, or not be given back.
    BayFault,
    /// A disk holds no image of the file.
    BadImage,
    /// The text could not be written.
    SinkFault,
    /// Memory ran out.
    Memory,
}

impl Status {
    /// The number of the status, from 0 to 8.
    pub fn number(self) -> u8
        ensures { result ≡ number_of self }
    {
        self as u8
    }
}
