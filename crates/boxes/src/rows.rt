//! What an office keeps.
use sigv4::Allowance;

/// What a key may do. Both roles may put and fetch files.
#[derive(Clone, Copy, PartialEq, Eq)]
pub enum Role {
    /// It may also give desk commands.
    Clerk,
    /// It may only put and fetch files.
    Link,
}

/// Whether other bytes may replace those stored under a name.
#[derive(Clone, Copy, PartialEq, Eq)]
pub enum Mode {
    /// They may not.
    Keep,
    /// They may.
    Replace,
}

/// The settings of an office.
#[derive(Clone, Copy, PartialEq, Eq)]
pub struct OfficeRow {
    /// The offset of the office's clock east of UTC, in minutes: -840 to 840.
    pub east: i16,
    /// How many seconds early a link may begin.
    pub allowance: Allowance,
}

/// A key, without its id. It has no `Debug`, so that it cannot put a secret into a log.
#[derive(Drop)]
pub struct KeyRow {
    /// What it may do.
    pub role: Role,
    /// 1 to 128 bytes, each 0x21 to 0x7E.
    pub secret: Vec<u8>,
    /// Whether it was revoked.
    pub revoked: bool,
}

/// Which names a box takes. Bytes are compared.
#[derive(Drop)]
pub enum NameRule {
    /// All.
    Any,
    /// Those that end with one of the texts: 1 to 8 texts of 1 to 32 bytes.
    Ends(Vec<Vec<u8>>),
    /// Those that begin with the text, of 1 to 64 bytes.
    Begins(Vec<u8>),
}

/// A box, without its name.
#[derive(Drop)]
pub struct BoxRow {
    /// The first second at which it may be open, since 1970-01-01T00:00:00Z.
    pub opens: u64,
    /// The first second at which it is permanently closed.
    pub closes: u64,
    /// The days on which it is open, Monday first.
    pub days: [bool; 7],
    /// The first minute of the office's day at which it is open.
    pub from_minute: u16,
    /// The first minute of the office's day after `from_minute` at which it is closed: at most 1440.
    pub to_minute: u16,
    /// How many bytes its files may have in total.
    pub quota: u64,
    /// How many files it may hold.
    pub max_files: u64,
    /// Whether other bytes may replace those stored under a name.
    pub mode: Mode,
    /// Which names it takes.
    pub rule: NameRule,
}

/// A receipt. It is never changed or removed.
#[derive(Drop)]
pub struct ReceiptRow {
    /// 1, 2, 3 and so on.
    pub number: u64,
    /// The name of the box.
    pub in_box: Vec<u8>,
    /// The name of the file.
    pub name: Vec<u8>,
    /// The file's length, in bytes.
    pub size: u64,
    /// The file's SHA-256 digest.
    pub digest: [u8; 32],
    /// When it was given, in seconds since 1970-01-01T00:00:00Z.
    pub moment: u64,
    /// The id of the key that brought the file.
    pub key: Vec<u8>,
}

/// A file, with its receipt.
#[derive(Drop)]
pub struct FileRow {
    /// The file's bytes.
    pub bytes: Vec<u8>,
    /// The receipt that was given for them.
    pub receipt: ReceiptRow,
}
