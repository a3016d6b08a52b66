//! Theorems about the definitions.

ghost use Rattle.log_answers.specs.Compared.{EachMessageIsCompared};
ghost use Rattle.log_answers.specs.Laws.{NoDifferenceIsAnswered};

/// A log has no differences exactly if on each topic each question has an equal answer in time, and each answer has a question.
pub fn nothing_is_told_of_equal_answers()
    ensures { NoDifferenceIsAnswered }
{}

/// Each message of the recorded terminal is compared, unless it is a status with the bytes of the one before, and so is each message of
/// this one. Nothing else is.
pub fn each_message_is_compared()
    ensures { EachMessageIsCompared }
{}
