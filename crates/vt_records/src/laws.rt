//! The theorem about records: the contract of a function with an empty body.

ghost use Rattle.vt_records.specs.NoProperPrefix.{RecordsAreWhole};

/// No record is a proper prefix of another.
pub fn records_are_whole()
    ensures { RecordsAreWhole }
{}
