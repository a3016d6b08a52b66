//! Messages from the master of a working set: pool uploads and commands, with their replies. Also the status message.

pub(crate) mod end_of_pool;
pub(crate) mod replies;
pub(crate) mod status;
pub(crate) mod upload;
