//! Laws about the states of a terminal. Each is the contract of a function that changes nothing. The laws about its steps are
//! in vt_laws.

ghost use Rattle.vt_server.specs.state.StateInvariants.{IsOrderly};
ghost use Rattle.vt_server.specs.States.{state_of};

use crate::terminal::Terminal;
use vt_names::Name;

/// Every terminal keeps its address claims by rising NAME and has at most one set at an address. The laws about its steps
/// require this.
pub fn terminals_are_orderly(terminal: &Terminal)
    ensures { IsOrderly (state_of terminal.now) }
{
    let _address = terminal.node.address_of(Name::default());
    let _count = terminal.registry.len();
}
