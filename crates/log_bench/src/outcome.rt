//! What becomes of logs.

ghost use Rattle.std.specs.Prelude.{◌≡◌};
ghost use Rattle.log_bench.specs.Statuses.{outcome_status, status_of};

use log_expect::LineDifference;
use vt_cli::Status;

/// What became of a log.
#[derive(Clone, Copy, PartialEq, Eq)]
pub(crate) enum LogOutcome {
    /// Each line prints what is expected of it.
    Met,
    /// So many lines print something else.
    Differs(usize),
    /// It is written anew.
    Written,
    /// It has the expectations that it meets, and stays.
    Same,
    /// It could not be judged.
    NotJudged,
}

impl LogOutcome {
    /// What became of a log with these differences.
    pub(crate) fn of(differences: &[LineDifference]) -> LogOutcome
        ensures { outcome_status result ≡ status_of differences.now }
    {
        if differences.is_empty() {
            LogOutcome::Met
        } else {
            LogOutcome::Differs(differences.len())
        }
    }

    /// The status of a run after it.
    pub(crate) fn status(self) -> Status
        ensures { result ≡ outcome_status self }
    {
        match self {
            LogOutcome::Met | LogOutcome::Written | LogOutcome::Same => Status::Clean,
            LogOutcome::Differs(_) => Status::Found,
            LogOutcome::NotJudged => Status::NotJudged,
        }
    }

    /// The word for it.
    pub(crate) fn word(self) -> &'static str {
        match self {
            LogOutcome::Met => "ok",
            LogOutcome::Differs(_) => "differs",
            LogOutcome::Written => "written",
            LogOutcome::Same => "as it was",
            LogOutcome::NotJudged => "not judged",
        }
    }

    /// How many lines differ.
    pub(crate) fn differences(self) -> usize {
        match self {
            LogOutcome::Differs(count) => count,
            LogOutcome::Met | LogOutcome::Written | LogOutcome::Same | LogOutcome::NotJudged => 0,
        }
    }
}
