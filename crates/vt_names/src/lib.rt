//! NAMEs, the holders of addresses, and the registry of working sets (ISO 11783-5, ISO 11783-6).
//!
//! - `Name` is a NAME, with its ten fields.
//! - `Claims` records the address claims received. `ClaimMeaning` is the meaning of a claim for this node.
//! - `Registry` has the working sets, each a `Set`. `RegistryFault` is the reason of a refused change.
//! - `laws` has theorems about the definitions in specs/.
//!
//! It has no frame and no pool. Come here to ask which node holds an address, and which working sets are registered.
//!
//! docs/PROFILE.md, "Addresses and NAMEs" and "Working sets", has the rules.
#![tactic(auto)]

mod claims;
mod holders;
pub mod laws;
mod name;
mod registry;
mod set;

pub use claims::{ClaimMeaning, Claims};
pub use name::{Name, TERMINAL_NAME};
pub use registry::{Registry, RegistryFault};
pub use set::Set;

/// A refused allocation.
pub use std::alloc::AllocError as OutOfMemory;
