//! The changes that the rules allow a request to make.
use crate::rows::{BoxRow, Role};

/// A desk command. The rules define its change only if its texts and numbers have their forms (`HasForm`).
#[derive(Clone, Copy)]
pub enum Command<'a> {
    /// Adds a key, unrevoked.
    AddKey {
        /// 1 to 64 letters, digits, `-` or `_`.
        id: &'a [u8],
        /// What it may do.
        role: Role,
        /// The bytes with which it signs: 1 to 128 bytes, each 0x21 to 0x7E.
        secret: &'a [u8],
    },
    /// Marks the key of this id revoked.
    RevokeKey {
        /// The key's id.
        id: &'a [u8],
    },
    /// Adds a box.
    AddBox {
        /// The box's name.
        name: &'a [u8],
        /// The box's settings.
        row: &'a BoxRow,
    },
    /// Sets the second at which a box closes permanently.
    CloseBox {
        /// The box's name.
        name: &'a [u8],
        /// In seconds since 1970-01-01T00:00:00Z.
        moment: u64,
    },
    /// Removes a file. Its receipt stays.
    DropFile {
        /// The box's name.
        in_box: &'a [u8],
        /// The file's name in the box.
        name: &'a [u8],
    },
    /// Limits a key to this box, in addition to those that it is already limited to.
    LimitKey {
        /// The key's id.
        id: &'a [u8],
        /// The box's name.
        in_box: &'a [u8],
    },
    /// Sets how many seconds early a link may begin.
    SetAllowance {
        /// 0 to 900.
        seconds: u64,
    },
}

/// A file to set, without its bytes. It also gives the receipt to add.
#[derive(Clone, Copy)]
pub struct NewFile<'a> {
    /// The receipt's number.
    pub number: u64,
    /// The name of the box.
    pub in_box: &'a [u8],
    /// The name of the file.
    pub name: &'a [u8],
    /// The file's length, in bytes.
    pub size: u64,
    /// The file's SHA-256 digest.
    pub digest: [u8; 32],
    /// The moment, in seconds since 1970-01-01T00:00:00Z.
    pub moment: u64,
    /// The id of the key that uploads it.
    pub key: &'a [u8],
}

/// A change of the state.
#[derive(Clone, Copy)]
pub enum Change<'a> {
    /// Sets a file to the staged bytes and adds its receipt. Nothing is staged afterwards.
    SetFile(NewFile<'a>),
    /// The change of a desk command.
    Desk(Command<'a>),
}
