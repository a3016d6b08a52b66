//! The uploads that are not ended yet.

ghost use Rattle.std.specs.Prelude.{◌≡◌, ◌≢◌, ℕ, ◌∷◌, ◌++◌, List, [], None, Some, OnOk, IfOk, unwrap_or};
ghost use Rattle.std.specs.Ordering.{nat_cmp};
ghost use Rattle.std.specs.BTreeMap.{get};
ghost use Rattle.log_pools.specs.Pieces.{Told, id_of};

use crate::message::ImplementMessage;
use crate::upload::Upload;
use std::alloc::{AllocError, Global};
use std::collections::BTreeMap;
use std::collections::btree_map::Values;
use vt_can::assigned::{END_OF_POOL, TRANSFER};
use vt_commands::function::DELETE_POOL;

/// The uploads of all implements to all terminals that are not ended yet.
#[derive(Drop)]
pub struct Uploads {
    alloc: Global,
    unended: BTreeMap<u32, Upload>,
}

impl Uploads {
    ghost use Rattle.log_pools.specs.Uploads.{bytes_of, unended, HasTaken, IsEnded};

    /// No uploads. Does not allocate.
    pub fn new(alloc: Global) -> Uploads
        ensures { HasTaken [] result }
    {
        Uploads {
            alloc,
            unended: BTreeMap::new(alloc),
        }
    }

    /// Receives a message. If it is an End of Object Pool, returns the upload that it ends. After `OutOfMemory` the uploads are of
    /// no more use.
    pub fn take(&mut self, message: ImplementMessage<'_>) -> Result<Option<Upload>, AllocError>
        ensures taken { OnOk result ((messages : List Told) → HasTaken messages self.old
            → HasTaken (record { id = id_of message.entry.source message.entry.destination; bytes = message.entry.bytes.now } ∷ messages) self.new) }
        ensures ended { IfOk result (λ upload. (messages : List Told) → HasTaken messages self.old
            → IsEnded messages (record { id = id_of message.entry.source message.entry.destination; bytes = message.entry.bytes.now }) upload) }
    {
        match message.bytes {
            [TRANSFER, piece @ ..] => {
                self.append(message, piece)?;
                Ok(None)
            }
            [END_OF_POOL, ..] => Ok(Some(self.remove(message))),
            [DELETE_POOL, ..] => {
                let _deleted = self.unended.remove(&message.id());
                Ok(None)
            }
            _ => Ok(None),
        }
    }

    /// The uploads that are not ended, with their bytes so far, by rising addresses of the terminals, and for each terminal by
    /// those of the implements.
    pub fn unended(&self) -> Values<'_, u32, Upload>
        ensures { result ≡ unended self.now }
    {
        self.unended.values()
    }

    /// Appends a piece to its upload.
    fn append(&mut self, message: ImplementMessage<'_>, piece: &[u8]) -> Result<(), AllocError>
        ensures here { OnOk result (bytes_of (get nat_cmp self.new.unended (id_of message.entry.source message.entry.destination))
            ≡ Some (unwrap_or (bytes_of (get nat_cmp self.old.unended (id_of message.entry.source message.entry.destination))) [] ++ piece.now)) }
        ensures others { OnOk result ((id : ℕ) → id ≢ id_of message.entry.source message.entry.destination
            → get nat_cmp self.new.unended id ≡ get nat_cmp self.old.unended id) }
    {
        let mut upload = self.remove(message);
        upload.bytes.extend_from_slice(piece)?;
        upload.pieces = upload.pieces.saturating_add(1);
        self.unended.insert(message.id(), upload)?;
        Ok(())
    }

    /// Removes the upload that a message belongs to, which may be empty.
    fn remove(&mut self, message: ImplementMessage<'_>) -> Upload
        ensures bytes { result.bytes.items ≡ unwrap_or (bytes_of (get nat_cmp self.old.unended (id_of message.entry.source message.entry.destination))) [] }
        ensures here { get nat_cmp self.new.unended (id_of message.entry.source message.entry.destination) ≡ None }
        ensures others { (id : ℕ) → id ≢ id_of message.entry.source message.entry.destination
            → get nat_cmp self.new.unended id ≡ get nat_cmp self.old.unended id }
    {
        match self.unended.remove(&message.id()) {
            Some(upload) => upload,
            None => Upload {
                first_line: message.line,
                source: message.source,
                destination: message.destination,
                pieces: 0,
                bytes: Vec::new(self.alloc),
            },
        }
    }
}
