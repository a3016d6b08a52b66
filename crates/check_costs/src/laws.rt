//! Theorems about what events cost. Each is the contract of a function with an empty body.

ghost use Rattle.check_costs.specs.Sums.{CostsAddUp, AcceptedCostsAreBudgets};

/// Each number of a breakdown is the sum of those below it, counted up to the most steps: the steps of an event are those of its macros,
/// the steps of a macro those of its commands, and the steps of a command are one and those of the events listed after it.
pub fn costs_add_up()
    ensures { CostsAddUp }
{}

/// In an acceptable pool the steps of an event are its budget, which the pool's report prints.
pub fn accepted_costs_are_budgets()
    ensures { AcceptedCostsAreBudgets }
{}
