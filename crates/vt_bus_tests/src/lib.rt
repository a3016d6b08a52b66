//! Tests of the bus below the terminal that no log shows: refused memory, the longest message, and texts that no program prints. Come
//! here to test a call that no log makes; tests of logs are in `tests/bus`.
#![tactic(auto)]

#[cfg(test)]
mod extended;
#[cfg(test)]
mod names;
#[cfg(test)]
mod transport;
