//! Tests of pools.

mod want_of_memory;
