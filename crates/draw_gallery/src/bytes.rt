//! The objects of a store as the bytes of a pool.

ghost use Rattle.std.specs.Prelude.{◌≡◌, IfOk};
ghost use Rattle.std.specs.FinMap as finite;
ghost use Rattle.vt_pool.specs.Pools.{joined};
ghost use Rattle.vt_stores.specs.Stores.{map_of};

use std::alloc::{AllocError, Global};
use vt_objects::SortedStore;
use vt_pool::write_object;

/// The records of the objects of a store, by rising ID.
pub(crate) fn bytes_of(alloc: Global, store: &SortedStore) -> Result<Vec<u8>, AllocError>
    ensures { IfOk result (λ bytes. bytes.items ≡ joined (finite.entries (map_of store.now))) }
{
    let mut bytes = Vec::new(alloc);
    for (id, object) in store.entries() {
        write_object(alloc, *id, object, &mut bytes)?;
    }
    Ok(bytes)
}
