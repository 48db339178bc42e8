//! The limits of a message. No standard sets them; the office does.

/// The greatest length of a body, and so of a file, in bytes.
pub const MOST_BODY: usize = 8_388_608;
