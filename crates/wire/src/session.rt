//! How one connection ends.

/// How a session ended.
#[derive(Clone, Copy, PartialEq, Eq)]
pub enum SessionEnd {
    /// The input ended where a message could begin.
    Ended,
    /// The input ended within a head. The partial message was not answered.
    Truncated,
    /// A refusal with this number closed the connection: 1 to 6, or 40.
    Refused(u8),
    /// The greatest number of messages was reached.
    Limit,
    /// A read failed.
    ReadFault,
    /// A write failed, or took no bytes.
    WriteFault,
}

impl SessionEnd {
    ghost use Rattle.std.specs.Prelude.{◌≡◌};
    ghost use Rattle.wire.specs.Ends.{is_fault};

    /// Whether a read or a write failed.
    pub fn is_fault(self) -> bool
        ensures { result ≡ is_fault self }
    {
        matches!(self, SessionEnd::ReadFault | SessionEnd::WriteFault)
    }
}
