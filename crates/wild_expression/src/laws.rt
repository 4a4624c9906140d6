//! What follows from the grammar.

ghost use Rattle.wild_expression.specs.Chains.{ChainsAreLists};
ghost use Rattle.wild_expression.specs.Depths.{DepthsAreBudgets};

/// What a level of chains reads is a first operand and a list of operators and operands, grouped to the left.
pub fn chains_are_lists()
    ensures { ChainsAreLists }
{}

/// Within a limit of depth is read what is read within any, and is no deeper.
pub fn depths_are_budgets()
    ensures { DepthsAreBudgets }
{}
