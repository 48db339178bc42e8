//! The arguments whose values the program checks itself.
use std::fmt;

/// An argument whose value may be malformed.
#[derive(Clone, Copy, Debug)]
pub enum Argument {
    Allowance,
    At,
    Clerk,
    Connections,
    East,
    Expires,
    File,
    Host,
    Key,
    Listen,
    Method,
    Open,
    Patience,
    Region,
    Room,
    Secret,
    Start,
    Target,
    West,
    What,
}

impl Argument {
    // The name, as the help gives it.
    fn name(self) -> &'static str {
        match self {
            Argument::Allowance => "allowance",
            Argument::At => "at",
            Argument::Clerk => "clerk",
            Argument::Connections => "connections",
            Argument::East => "east",
            Argument::Expires => "expires",
            Argument::File => "file",
            Argument::Host => "host",
            Argument::Key => "key",
            Argument::Listen => "listen",
            Argument::Method => "method",
            Argument::Open => "open",
            Argument::Patience => "patience",
            Argument::Region => "region",
            Argument::Room => "room",
            Argument::Secret => "secret",
            Argument::Start => "start",
            Argument::Target => "target",
            Argument::West => "west",
            Argument::What => "what",
        }
    }
}

impl fmt::Display for Argument {
    fn fmt<W: fmt::Write>(&self, f: &mut fmt::Formatter<W>) -> fmt::Result {
        f.write_str(self.name())
    }
}
