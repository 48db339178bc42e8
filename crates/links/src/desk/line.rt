//! A desk command as it is read.
ghost use Rattle.std.specs.Prelude.{◌≡◌};
ghost use Rattle.boxes.specs.Changes.{command_of};
ghost use Rattle.links.specs.CommandLines.{said};

use boxes::{BoxRow, Command, Role};

/// A desk command as it was read. Its texts are slices of the line; the settings of a box are owned.
#[derive(Drop)]
pub enum DeskLine<'a> {
    /// `key add ID ROLE SECRET`.
    AddKey {
        id: &'a [u8],
        role: Role,
        secret: &'a [u8],
    },
    /// `key revoke ID`.
    RevokeKey {
        id: &'a [u8],
    },
    /// `box add NAME OPENS CLOSES DAYS FROM TO QUOTA FILES MODE RULE`.
    AddBox {
        name: &'a [u8],
        row: BoxRow,
    },
    /// `box close NAME MOMENT`, with the moment in seconds since 1970-01-01T00:00:00Z.
    CloseBox {
        name: &'a [u8],
        moment: u64,
    },
    /// `file drop BOX NAME`.
    DropFile {
        in_box: &'a [u8],
        name: &'a [u8],
    },
    /// `key limit ID BOX`.
    LimitKey {
        id: &'a [u8],
        in_box: &'a [u8],
    },
    /// `office allow SECONDS`.
    SetAllowance {
        seconds: u64,
    },
}

impl DeskLine<'_> {
    /// The command, in the form that the rules of the desk take.
    pub fn command(&self) -> Command<'_>
        ensures { command_of result ≡ said self.now }
    {
        match self {
            DeskLine::AddKey { id, role, secret } => Command::AddKey {
                id,
                role: *role,
                secret,
            },
            DeskLine::RevokeKey { id } => Command::RevokeKey { id },
            DeskLine::AddBox { name, row } => Command::AddBox { name, row },
            DeskLine::CloseBox { name, moment } => Command::CloseBox {
                name,
                moment: *moment,
            },
            DeskLine::DropFile { in_box, name } => Command::DropFile { in_box, name },
            DeskLine::LimitKey { id, in_box } => Command::LimitKey { id, in_box },
            DeskLine::SetAllowance { seconds } => Command::SetAllowance { seconds: *seconds },
        }
    }
}
