//! Theorems about pools. Each is the contract of a function with an empty body.

ghost use Rattle.vt_pool.specs.PoolUploads.{FaultsLast};
ghost use Rattle.vt_pool.specs.Pools.{ReadingsAreOne, WrittenIsRead};

pub use vt_records::laws::records_are_whole;

/// A pool's bytes have at most one reading: the objects in force are unique, whole records have no fault but
/// OutOfMemory, and either all other faults are type faults or none is.
pub fn readings_are_one()
    ensures { ReadingsAreOne }
{}

/// Records with distinct IDs are read back as the objects that were written.
pub fn written_is_read()
    ensures { WrittenIsRead }
{}

/// A lasting fault of a pool's first bytes stays the fault of the pool, whatever bytes follow.
pub fn faults_last()
    ensures { FaultsLast }
{}
