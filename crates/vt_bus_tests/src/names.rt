//! Tests of vt_names.

mod want_of_memory;

use std::test::Fail;
use vt_names::*;

#[test]
fn printed_refusals(rt: HostRuntime) -> Result<(), Fail> {
    for (fault, wanted) in [
        (
            RegistryFault::NotClaimed,
            "no NAME holds the address of the master",
        ),
        (
            RegistryFault::NotMaster,
            "there is no working set of that address",
        ),
        (
            RegistryFault::TooManyMembers,
            "the working set has all its members already",
        ),
        (
            RegistryFault::OutOfMemory,
            "the memory for a working set was refused",
        ),
    ] {
        let text = format!(in rt.alloc(); "{fault}")?;
        assert_eq!(rt; text.as_str(), wanted);
    }
    Ok(())
}
