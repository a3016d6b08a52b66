//! Tests by functions of the crates of the terminal, for what no program shows. Come here to test such a call; tests of logs are in
//! `tests/terminal`.
#![tactic(auto)]

#[cfg(test)]
mod clock;
#[cfg(test)]
mod library_example;
#[cfg(test)]
mod objects;
#[cfg(test)]
mod pool;
#[cfg(test)]
mod rank;
#[cfg(test)]
mod redrawing;
#[cfg(test)]
mod terminal;
#[cfg(test)]
mod want_of_memory;
