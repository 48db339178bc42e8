//! `drop init`: makes an office file.
ghost use Rattle.std.specs.Prelude.{◌≤◌, IfOk, IfSome, IsOk, IsTrue};
ghost use Rattle.sqlite.specs.WalFiles.{image_at};
ghost use Rattle.commands.specs.Wording.{IsNumber};
ghost use Rattle.dropoffice.specs.Leaving.{IsCleanLeft, IsClosed};
ghost use Rattle.dropoffice.specs.Performing.{HasSettings, IsFirstRow, IsGivenSecret, IsSecretOf, MayMake};

use crate::file_work::{FileWork, work_in};
use crate::files::Purpose;
use crate::left::{FileLeft, Left, Worked, ended_with};
use crate::opening::{connect, unfit};
use boxes::OfficeRow;
use commands::{Argument, Fault, check_secret, read_secret_file};
use sigv4::{Allowance, is_key_id};
use sqlite::{Alter, Connection, Start};
use sqlkeeper::SqlKeeper;
use std::fs;
use std::fs::{Files, OpenFile, OpenOptions, Permissions};
use std::io::ErrorKind;
use std::os::unix::fs::{OpenOptionsExt, PermissionsExt};
use tasks::{Init, Secret};

/// Readable and writable by the owner only.
const OWNERS: u32 = 0o600;

/// Makes an office file from a new or an empty file. A file with the secret is read before.
pub(crate) fn do_init<S: Start + Drop>(
    rt: &HostRuntime,
    words: &Init<'_>,
    start: S,
) -> Worked<Result<(), Fault>, FileLeft<S>>
    ensures made { IsCleanLeft result.left
        → MayMake words.now (image_at S.Start) start result.left (IsOk result.gain) }
    ensures opened { IsOk result.gain → IsOk result.closed → IsClosed result.left }
{
    match read_words(rt, words) {
        Ok((office, secret)) => init_with(rt, words, office, secret.as_slice(), start),
        Err(fault) => ended_with(Err(fault), Left::Unopened(start)),
    }
}

// Makes an office file with these settings.
fn init_with<S: Start + Drop>(
    rt: &HostRuntime,
    words: &Init<'_>,
    office: OfficeRow,
    secret: &[u8],
    start: S,
) -> Worked<Result<(), Fault>, FileLeft<S>>
    ensures made { IsFirstRow words.now office secret.now → IsCleanLeft result.left
        → MayMake words.now (image_at S.Start) start result.left (IsOk result.gain) }
    ensures opened { IsOk result.gain → IsOk result.closed → IsClosed result.left }
{
    let Ok(log) = format!(in rt.alloc(); "{}-wal", words.file) else {
        return ended_with(Err(Fault::OutOfMemory), Left::Unopened(start));
    };
    let had_log = fs::symlink_metadata(rt, log.as_str()).is_ok();
    let is_new = match make_file(rt, words.file) {
        Ok(is_new) => is_new,
        Err(fault) => return ended_with(Err(fault), Left::Unopened(start)),
    };
    let made = make_office(rt, words, secret, office, start);
    if is_new && is_unmade(&made.gain) {
        remove_made(rt, words.file, log.as_str(), had_log);
    }
    made
}

// The office's settings and the secret of its clerk.
fn read_words(rt: &HostRuntime, words: &Init<'_>) -> Result<(OfficeRow, Vec<u8>), Fault>
    ensures { IfOk result (λ read. IsFirstRow words.now read.0 read.1.items) }
{
    let office = read_office(words)?;
    let secret = read_secret(rt, words.secret)?;
    Ok((office, secret))
}

// Whether the new file may be removed: it is not an office, and no other program has it open.
fn is_unmade(made: &Result<(), Fault>) -> bool
    ensures { IsTrue result → IsOk made.now → ⊥ }
{
    match made {
        Ok(()) | Err(Fault::Held | Fault::Exists) => false,
        Err(_) => true,
    }
}

// The office's settings. Fails if an argument is malformed.
fn read_office(words: &Init<'_>) -> Result<OfficeRow, Fault>
    ensures settings { IfOk result (HasSettings words.now) }
    ensures secret { IfOk result (λ office. IsGivenSecret words.now.secret) }
{
    if !is_key_id(words.clerk.as_bytes()) {
        return Err(Fault::MalformedValue(Argument::Clerk));
    }
    if let Secret::Given(text) = words.secret {
        check_secret(text.as_bytes())?;
    }
    let Some(east) = minutes_of(words.east) else {
        return Err(Fault::MalformedValue(Argument::East));
    };
    let Some(west) = minutes_of(words.west) else {
        return Err(Fault::MalformedValue(Argument::West));
    };
    let Some(allowance) = allowance_of(words.allowance) else {
        return Err(Fault::MalformedValue(Argument::Allowance));
    };
    Ok(OfficeRow {
        east: east as i16 - west as i16,
        allowance,
    })
}

// The secret: the argument itself, or the line of the named file.
fn read_secret(rt: &HostRuntime, secret: Secret<'_>) -> Result<Vec<u8>, Fault>
    ensures { IfOk result (λ text. IsGivenSecret secret.entry → IsSecretOf secret.entry text.items) }
{
    match secret {
        Secret::Given(text) => Ok(Vec::from_slice(rt.alloc(), text.as_bytes())?),
        Secret::InFile(name) => read_secret_file(rt, name),
    }
}

// A whole number of minutes from 0 to 840. The argument parser allows no other value.
fn minutes_of(text: &str) -> Option<u16>
    ensures { IfSome result (λ minutes. IsNumber text.now minutes × (minutes ≤ 840)) }
{
    let Ok(minutes) = text.parse::<u16>() else {
        return None;
    };
    if minutes <= 840 { Some(minutes) } else { None }
}

// A whole number of seconds from 0 to 900. The argument parser allows no other value.
fn allowance_of(text: &str) -> Option<Allowance>
    ensures { IfSome result (IsNumber text.now) }
{
    match text.parse::<u64>() {
        Ok(seconds) => Allowance::new(seconds),
        Err(_) => None,
    }
}

// Makes an empty file for the owner only, if there is no file. Whether it made one.
fn make_file<R: Files>(rt: &R, file: &str) -> Result<bool, Fault> {
    let mut how = OpenOptions::new();
    how.read(true).write(true).create_new(true).mode(OWNERS);
    match how.open(rt, file) {
        // The umask may have removed bits that the owner needs.
        Ok(made) => match made.set_permissions(Permissions::from_mode(OWNERS)) {
            Ok(()) => Ok(true),
            Err(_) => {
                let _ = fs::remove_file(rt, file);
                Err(Fault::CannotOpen)
            }
        },
        Err(error) if error.kind() == ErrorKind::AlreadyExists => Ok(false),
        Err(_) => Err(Fault::CannotOpen),
    }
}

// Removes the new file, and its log if that is new too.
fn remove_made<R: Files>(rt: &R, file: &str, log: &str, had_log: bool) {
    let _ = fs::remove_file(rt, file);
    if !had_log {
        let _ = fs::remove_file(rt, log);
    }
}

// Makes an office in the database of the file.
fn make_office<S: Start + Drop>(
    rt: &HostRuntime,
    words: &Init<'_>,
    secret: &[u8],
    office: OfficeRow,
    start: S,
) -> Worked<Result<(), Fault>, FileLeft<S>>
    ensures made { IsFirstRow words.now office secret.now → IsCleanLeft result.left
        → MayMake words.now (image_at S.Start) start result.left (IsOk result.gain) }
    ensures opened { IsOk result.gain → IsOk result.closed → IsClosed result.left }
{
    match connect(rt, words.file, Purpose::Change, start) {
        Ok(conn) => {
            let clerk = words.clerk.as_bytes();
            let making = Making {
                office,
                clerk,
                secret,
            };
            work_in(rt, conn, Purpose::Change, making)
        }
        Err((fault, left)) => ended_with(Err(fault), left),
    }
}

// Makes an office in a database without tables.
#[derive(Drop)]
struct Making<'a> {
    // Its settings.
    office: OfficeRow,
    // The id of its clerk's key.
    clerk: &'a [u8],
    // The secret of that key.
    secret: &'a [u8],
}

impl FileWork for Making<'_> {
    ghost use Rattle.std.specs.Prelude.{◌≡◌, IsOk};
    ghost use Rattle.sqlite.specs.State.{HasCleanDisk};
    ghost use Rattle.boxes.specs.FirstState.{first_state};
    ghost use Rattle.sqltables.specs.Schema.{s0};
    ghost use Rattle.dropoffice.specs.FileWorks.{AreFit};
    ghost use Rattle.dropoffice.specs.Working.{MadeOn, SparesShown};

    type Gain = Result<(), Fault>;

    ghost done = { λ it old gain new. AreFit it.office it.clerk.now it.secret.now → HasCleanDisk new
        → MadeOn old new (first_state it.office.east it.office.allowance it.clerk.now it.secret.now) };

    ghost undone = { λ it old gain new. (IsOk gain → ⊥) × (AreFit it.office it.clerk.now it.secret.now
        → SparesShown old new (λ t. (old.now.schema ≡ s0)
        × (t ≡ first_state it.office.east it.office.allowance it.clerk.now it.secret.now))) };

    fn go<S: Alter + Drop>(
        self,
        rt: &HostRuntime,
        conn: Connection<S>,
    ) -> Result<(Result<(), Fault>, Connection<S>), (Result<(), Fault>, Connection<S>)> {
        match SqlKeeper::create(rt.alloc(), conn, self.office, self.clerk, self.secret) {
            Ok(keeper) => Ok((Ok(()), keeper.close())),
            Err((fault, conn)) => Err((Err(unfit(fault)), conn)),
        }
    }
}
