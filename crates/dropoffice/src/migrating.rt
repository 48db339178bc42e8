//! `drop migrate`: migrates an office file from version 1 to version 2.
ghost use Rattle.std.specs.Prelude.{IsOk};
ghost use Rattle.sqlite.specs.WalFiles.{image_at};
ghost use Rattle.commands.specs.Obeying.{done_line};
ghost use Rattle.commands.specs.Saying.{HandsBack, Says};
ghost use Rattle.dropoffice.specs.Holding.{HoldsOurs};
ghost use Rattle.dropoffice.specs.Leaving.{IsCleanLeft, IsClosed};
ghost use Rattle.dropoffice.specs.Performing.{MayMigrate};

use crate::ending::unclosed;
use crate::file_work::{FileWork, work_in};
use crate::files::{Purpose, require_file};
use crate::left::{FileLeft, Left, Worked, ended_with};
use crate::opening::{connect, unfit};
use crate::works::failed;
use commands::{Done, Fault, tell};
use sqlite::{Alter, Connection, Error, Start};
use sqlkeeper::SqlKeeper;
use std::io::Write;
use tasks::OfficeFile;

/// Migrates an office file to version 2, and writes the line `done` to `out`. A file of version 2 stays unchanged.
pub(crate) fn do_migrate<S: Start + Drop, W: Write + Drop>(
    rt: &HostRuntime,
    words: &OfficeFile<'_>,
    out: W,
    start: S,
) -> Worked<Done<W>, FileLeft<S>>
    ensures ran { HoldsOurs (image_at S.Start) → IsCleanLeft result.left
        → MayMigrate (image_at S.Start) start result.left W.contents (IsOk result.gain.result) out result.gain.out }
    ensures opened { IsOk result.gain.result → IsClosed result.left }
{
    if let Err(fault) = require_file(rt, words.file) {
        return ended_with(failed(fault, out), Left::Unopened(start));
    }
    match connect(rt, words.file, Purpose::Change, start) {
        Ok(conn) => {
            let Worked { gain, closed, left } = work_in(rt, conn, Purpose::Change, Migration);
            ended_with(tell_migrated(gain, closed, out), left)
        }
        Err((fault, left)) => ended_with(failed(fault, out), left),
    }
}

// Writes the line `done` if the office was migrated and its file closed.
fn tell_migrated<W: Write + Drop>(
    migrated: Result<(), Fault>,
    closed: Result<(), Error>,
    out: W,
) -> Done<W>
    ensures said { IsOk migrated → Says W.contents done_line (IsOk result.result) out result.out }
    ensures handed { (IsOk migrated → ⊥) → HandsBack (IsOk result.result) out result.out }
    ensures done { IsOk result.result → IsOk migrated × IsOk closed }
{
    match migrated {
        Ok(()) => tell(closed.map_err(unclosed), out),
        Err(fault) => failed(fault, out),
    }
}

// Migrates the office.
#[derive(Drop)]
struct Migration;

impl FileWork for Migration {
    ghost use Rattle.std.specs.Prelude.{IsOk};
    ghost use Rattle.sqlite.specs.State.{HasCleanDisk};
    ghost use Rattle.sqlkeeper.specs.Versions.{IsOfficeFile};
    ghost use Rattle.dropoffice.specs.Working.{MigratedOn, SparesShown, StillSees, WasOurs};

    type Gain = Result<(), Fault>;

    ghost done = { λ it old gain new. IsOk gain × (WasOurs old → HasCleanDisk new → MigratedOn old new) };

    ghost undone = { λ it old gain new. (IsOk gain → ⊥) × StillSees old new
        × (WasOurs old → SparesShown old new (IsOfficeFile old)) };

    fn go<S: Alter + Drop>(
        self,
        rt: &HostRuntime,
        conn: Connection<S>,
    ) -> Result<(Result<(), Fault>, Connection<S>), (Result<(), Fault>, Connection<S>)> {
        match SqlKeeper::migrate(rt.alloc(), conn) {
            Ok(keeper) => Ok((Ok(()), keeper.close())),
            Err((fault, conn)) => Err((Err(unfit(fault)), conn)),
        }
    }
}
