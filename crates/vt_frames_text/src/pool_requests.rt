//! Requests of implements about their pools, other than uploads.

use crate::shown::QuotedText;
use std::fmt;
use vt_commands::function::DELETE_POOL;

/// Get Versions: which pools the terminal has stored.
pub const GET_VERSIONS: u8 = 0xDF;

/// Get Versions Response: the labels of the pools that the terminal has stored.
pub const GET_VERSIONS_RESPONSE: u8 = 0xE0;

/// Store Version: the pool is to be stored under a label.
pub const STORE_VERSION: u8 = 0xD0;

/// Load Version: the pool of a label is to be loaded.
pub const LOAD_VERSION: u8 = 0xD1;

/// Delete Version: the pool of a label is to be deleted.
pub const DELETE_VERSION: u8 = 0xD2;

/// A request of an implement about its pools. A label has seven characters.
#[derive(Clone, Copy, Drop)]
pub enum PoolRequest<'a> {
    /// The pool of the working set is to be deleted.
    DeletePool,
    /// The labels of the stored pools are requested.
    GetVersions,
    /// The pool is to be stored under a label.
    Store(&'a [u8]),
    /// The stored pool of a label is to be loaded.
    Load(&'a [u8]),
    /// The stored pool of a label is to be deleted.
    Delete(&'a [u8]),
}

impl<'a> PoolRequest<'a> {
    /// The request in a message. `None` if it is no request about pools.
    pub fn in_message(bytes: &'a [u8]) -> Option<PoolRequest<'a>> {
        match bytes {
            [DELETE_POOL, ..] => Some(PoolRequest::DeletePool),
            [GET_VERSIONS, ..] => Some(PoolRequest::GetVersions),
            [STORE_VERSION, label @ ..] => Some(PoolRequest::Store(label)),
            [LOAD_VERSION, label @ ..] => Some(PoolRequest::Load(label)),
            [DELETE_VERSION, label @ ..] => Some(PoolRequest::Delete(label)),
            _ => None,
        }
    }

    /// The label of the request, if it has one.
    pub fn label(&self) -> Option<&'a [u8]> {
        match *self {
            PoolRequest::Store(label) | PoolRequest::Load(label) | PoolRequest::Delete(label) => {
                Some(label)
            }
            PoolRequest::DeletePool | PoolRequest::GetVersions => None,
        }
    }
}

impl fmt::Display for PoolRequest<'_> {
    fn fmt<W: fmt::Write>(&self, f: &mut fmt::Formatter<W>) -> fmt::Result {
        match self {
            PoolRequest::DeletePool => f.write_str("deletes its pool"),
            PoolRequest::GetVersions => f.write_str("asks for stored versions"),
            PoolRequest::Store(label) => write!(f, "stores version {}", QuotedText(label)),
            PoolRequest::Load(label) => write!(f, "loads version {}", QuotedText(label)),
            PoolRequest::Delete(label) => write!(f, "deletes version {}", QuotedText(label)),
        }
    }
}
