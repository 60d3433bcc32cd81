//! How a session ends.
ghost use Rattle.std.specs.Prelude.{◌≡◌, option_copied};
ghost use Rattle.testpmd_shell.specs.Status.{code_of, text_of_status};

/// How a session ended.
#[derive(Clone, Copy, Debug, PartialEq, Eq)]
pub enum Status {
    /// The script was read to its end, and all was written.
    Done,
    /// The words give no options.
    Usage,
    /// An opening to read, or a read of the script or of the capture, failed.
    ReadFault,
    /// A write failed.
    WriteFault,
    /// A phase asked for a frame, and the capture was bad there.
    BadCapture,
    /// The script is over its limits, or a phase asked for a frame past those of a capture.
    TooLarge,
    NoMemory,
}

impl Status {
    /// The program's exit code.
    pub fn code(&self) -> u8
        ensures { result ≡ code_of self.now }
    {
        match self {
            Status::Done => 0,
            Status::Usage => 2,
            Status::ReadFault => 3,
            Status::WriteFault => 4,
            Status::BadCapture => 5,
            Status::TooLarge => 6,
            Status::NoMemory => 7,
        }
    }

    /// What is said on standard error, which is nothing where all went well.
    pub fn text(&self) -> Option<&'static str>
        ensures { option_copied result ≡ text_of_status self.now }
    {
        match self {
            Status::Done => None,
            Status::Usage => Some("flowpmd: bad options"),
            Status::ReadFault => Some("flowpmd: read fault"),
            Status::WriteFault => Some("flowpmd: write fault"),
            Status::BadCapture => Some("flowpmd: bad capture"),
            Status::TooLarge => Some("flowpmd: too large"),
            Status::NoMemory => Some("flowpmd: no memory"),
        }
    }
}
