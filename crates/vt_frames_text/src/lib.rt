//! Frames of the bus in words, without their objects: functions, claims, transport control.
//!
//! - `function_name` and `error_of` read the function and the error byte of a message. A `PoolRequest` is a request of an implement
//!   about its pools, other than an upload.
//! - `TpControl`, `EtpControl` and `Packet` are the frames of the transport protocols; `ClaimSentence`, `GroupRequest`,
//!   `MasterSentence` and `MemberSentence` those of addresses and working sets, `LanguageSentence` and `AcknowledgementSentence` two other
//!   parameter groups. Each is written by its `Display`.
//! - `HexByte`, `HexBytes`, `QuotedText`, `Destination`, `Count`, `ShownScale` and `PlainMessage` are their parts.
//!
//! Messages with objects are in vt_messages_text. Come here to ask how a claim, a packet or a request is told.
//!
//! docs/PROFILE.md, "Commands" and "Other messages", has the messages.
#![tactic(auto)]

mod addresses;
mod functions;
mod groups;
mod pool_requests;
mod shown;
mod transport;

pub use addresses::{ClaimSentence, GroupRequest, MasterSentence, MemberSentence, ParameterGroup};
pub use functions::{MAINTENANCE, SELECT_INPUT, error_of, function_name};
pub use groups::{ACKNOWLEDGEMENT, AcknowledgementSentence, LANGUAGE, LanguageSentence};
pub use pool_requests::{
    DELETE_VERSION, GET_VERSIONS, GET_VERSIONS_RESPONSE, LOAD_VERSION, PoolRequest, STORE_VERSION,
};
pub use shown::{Count, Destination, HexByte, HexBytes, PlainMessage, QuotedText, ShownScale};
pub use transport::{EtpControl, Packet, TpControl};
