//! The numbers that the standard assigns: parameter groups, addresses, the control bytes of both transport
//! protocols, and the functions of messages (ISO 11783-3, -5, -6 and -7). Also the timeouts of the profile.

// Parameter groups

/// Messages of an implement to the virtual terminal.
pub const ECU_TO_VT: u32 = 0xE700;

/// Messages of the virtual terminal to an implement.
pub const VT_TO_ECU: u32 = 0xE600;

/// The request for a parameter group.
pub const REQUEST: u32 = 0xEA00;

/// Address Claimed, and Cannot Claim.
pub const ADDRESS_CLAIMED: u32 = 0xEE00;

/// The master of a working set, with the number of its members.
pub const WORKING_SET_MASTER: u32 = 0xFE0D;

/// A member of a working set.
pub const WORKING_SET_MEMBER: u32 = 0xFE0C;

/// Connection management of the transport protocol.
pub const TP_CM: u32 = 0xEC00;

/// Data transfer of the transport protocol.
pub const TP_DT: u32 = 0xEB00;

/// Connection management of the extended transport protocol.
pub const ETP_CM: u32 = 0xC800;

/// Data transfer of the extended transport protocol.
pub const ETP_DT: u32 = 0xC700;

// Addresses

/// The preferred address of a virtual terminal.
pub const TERMINAL_ADDRESS: u8 = 0x26;

/// The source address of Cannot Claim, sent by a node without an address.
pub const NULL_ADDRESS: u8 = 254;

/// The destination address of a frame to all nodes.
pub const GLOBAL_ADDRESS: u8 = 255;

// Control bytes

/// Request to send.
pub const TP_RTS: u8 = 0x10;

/// Clear to send.
pub const TP_CTS: u8 = 0x11;

/// End of message acknowledgement.
pub const TP_END: u8 = 0x13;

/// Extended request to send.
pub const ETP_RTS: u8 = 0x14;

/// Extended clear to send.
pub const ETP_CTS: u8 = 0x15;

/// Extended data packet offset.
pub const ETP_DPO: u8 = 0x16;

/// Extended end of message acknowledgement.
pub const ETP_END: u8 = 0x17;

/// The abort of a session, in both protocols.
pub const ABORT: u8 = 0xFF;

// Functions, the first bytes of messages. Those of commands and of the operator's messages stand with the commands.

/// Object Pool Transfer: a piece of an object pool.
pub const TRANSFER: u8 = 0x11;

/// End of Object Pool, and its reply.
pub const END_OF_POOL: u8 = 0x12;

/// Get Memory, and its reply.
pub const GET_MEMORY: u8 = 0xC0;

/// Get Number of Soft Keys, and its reply.
pub const GET_SOFT_KEYS: u8 = 0xC2;

/// Get Text Font Data, and its reply.
pub const GET_FONTS: u8 = 0xC3;

/// Get Hardware, and its reply.
pub const GET_HARDWARE: u8 = 0xC7;

/// VT Status.
pub const VT_STATUS: u8 = 0xFE;

// Other bytes

/// A reserved byte.
pub const FILL: u8 = 0xFF;

/// In a request to send: a CTS may request any number of packets.
pub const NO_LIMIT: u8 = 0xFF;

// Timeouts, in microseconds

/// The longest time that a session of the TP receiver stays open without one of its frames (docs/PROFILE.md, "Timeouts").
pub const TP_TIMEOUT: u64 = 1_250_000;

/// The longest time that a session of the ETP receiver stays open without one of its frames (docs/PROFILE.md, "Timeouts").
pub const ETP_TIMEOUT: u64 = 1_250_000;

/// The longest time that a session of the TP sender stays open without one of its frames (docs/PROFILE.md, "Timeouts").
pub const SENDER_TIMEOUT: u64 = 1_250_000;
