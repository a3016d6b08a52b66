//! Theorems about the definitions of vt_verify: each is the contract of a function with an empty body.

ghost use Rattle.vt_verify.specs.Rules.{FirstRulesFail, GreaterLimitsAccept, RefusalsAreOne, RefusalsAreTrue};
ghost use Rattle.vt_verify.specs.Updates.{UpdatesReplace};

/// The rule of a refusal fails, and all rules before it hold.
pub fn first_rules_fail()
    ensures { FirstRulesFail }
{}

/// A pool that meets all rules is never refused by a rule: `verify` refuses it only if memory runs out.
pub fn refusals_are_true()
    ensures { RefusalsAreTrue }
{}

/// The refusal of a pool is unique, with three exceptions: a refusal of memory, the choice of a chain with too many
/// inclusions, and the choice of a circle that begins with the same macro.
pub fn refusals_are_one()
    ensures { RefusalsAreOne }
{}

/// A pool that meets all rules under some limits meets them under greater ones. Its report does not depend on the limits.
pub fn greater_limits_accept()
    ensures { GreaterLimitsAccept }
{}

/// An update replaces the objects with its IDs and no others.
pub fn updates_replace()
    ensures { UpdatesReplace }
{}
