//! Theorems about commands. Each is the contract of a function with an empty body.

ghost use Rattle.vt_commands.specs.Commands.{FunctionIsFirst};
ghost use Rattle.vt_commands.specs.Pieces.{CutIsOne};
ghost use Rattle.vt_commands.specs.Rows.{EachCommandHasItsRow};

/// Bytes split into macro commands in at most one way.
pub fn cut_is_one()
    ensures { CutIsOne }
{}

/// The function of a command is the first of its bytes.
pub fn function_is_first()
    ensures { FunctionIsFirst }
{}

/// Each command has a row in the table, which says what the command raises.
pub fn each_command_has_its_row()
    ensures { EachCommandHasItsRow }
{}
