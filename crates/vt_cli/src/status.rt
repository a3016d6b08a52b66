//! The statuses of runs.

ghost use Rattle.std.specs.Prelude.{◌≡◌};
ghost use Rattle.vt_cli.specs.Statuses.{status_code, worse};

/// The status with which a run ends.
#[derive(Clone, Copy, PartialEq, Eq)]
pub enum Status {
    /// Nothing was found.
    Clean,
    /// Something was found.
    Found,
    /// Something was not judged: the command line, a file or memory prevented it, or the subcommand accepts no such pool.
    NotJudged,
}

impl Status {
    /// The exit status of the process.
    pub fn code(self) -> u8
        ensures { result ≡ status_code self }
    {
        match self {
            Status::Clean => 0,
            Status::Found => 1,
            Status::NotJudged => 2,
        }
    }

    /// The status of two parts of a run. `NotJudged` counts more than `Found`, and `Found` more than `Clean`.
    pub fn and(self, other: Status) -> Status
        ensures { result ≡ worse self other }
    {
        match (self, other) {
            (Status::NotJudged, _) | (_, Status::NotJudged) => Status::NotJudged,
            (Status::Found, _) | (_, Status::Found) => Status::Found,
            (Status::Clean, Status::Clean) => Status::Clean,
        }
    }
}
