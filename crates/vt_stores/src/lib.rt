//! Stores of objects: finite maps from IDs to objects.
//!
//! `Store` is the trait; `SortedStore` and `ListStore` implement it, both by rising ID.
//!
//! The rules that the objects of a pool keep are in vt_verify. Come here to ask how an object is found by its ID.
//!
//! docs/PROFILE.md, "What every store keeps", says which references a store may have.
#![tactic(auto)]

mod list_store;
mod sorted_store;
mod sorting;
mod store;

pub use list_store::ListStore;
pub use sorted_store::SortedStore;
pub use store::Store;

/// The error of a failed allocation.
pub use std::alloc::AllocError as OutOfMemory;
