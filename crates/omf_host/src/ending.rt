//! The exit status of a program.

ghost use Rattle.std.specs.Prelude.{◌≡◌, ◌≤◌, max};
ghost use Rattle.omf_host.specs.Ending.{exit_code};

/// How a program ends.
#[derive(Clone, Copy, Debug, PartialEq, Eq)]
pub enum Status {
    /// 0.
    Done,
    /// 1: something is refused.
    Refused,
    /// 2: the arguments are not understood.
    Misused,
    /// 3: a file could not be read or written, the output could not be written, or memory ran out.
    Failed,
}

impl Status {
    /// The status with an exit status.
    pub fn of_code(code: u8) -> Status
        requires { code ≤ 3 }
        ensures { exit_code result ≡ code }
    {
        match code {
            0 => Status::Done,
            1 => Status::Refused,
            2 => Status::Misused,
            _ => Status::Failed,
        }
    }

    /// The exit status of the process.
    pub fn code(self) -> u8
        ensures code { result ≡ exit_code self }
        ensures bounded { result ≤ 3 }
    {
        match self {
            Status::Done => 0,
            Status::Refused => 1,
            Status::Misused => 2,
            Status::Failed => 3,
        }
    }

    /// The one of two with the greater exit status.
    pub fn worst(self, other: Status) -> Status
        ensures { exit_code result ≡ max (exit_code self) (exit_code other) }
    {
        if self.code() < other.code() {
            other
        } else {
            self
        }
    }
}
