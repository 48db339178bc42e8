//! The work of a command on the connection of its office file.
ghost use Rattle.sqlite.specs.Files.{file_state};
ghost use Rattle.dropoffice.specs.FileWorks.{WorksOver};

use crate::files::Purpose;
use crate::left::{Left, Worked, ended_with};
use crate::opening::{end_work, unfit};
use commands::{Fault, OfficeWork};
use sqlite::{Alter, Connection, FileStore};
use sqlite_disk::Disk;
use sqlkeeper::{OpenFault, SqlKeeper};

/// The work of a command on the connection of its office file.
pub(crate) trait FileWork {
    ghost use Rattle.std.specs.Prelude.{IfErr, IfOk};
    ghost use Rattle.sqlite.specs.Held.{state};
    ghost use Rattle.sqlite.specs.State.{State};

    /// What the work gives.
    type Gain: Drop;

    /// What the connection showed before, what the work gave, and what the connection shows then.
    ghost done: { Self → State → Self.Gain → State → Type 0 };

    /// The same for work that was not begun.
    ghost undone: { Self → State → Self.Gain → State → Type 0 };

    /// Does the work. The error means that it was not begun.
    fn go<S: Alter + Drop>(
        self,
        rt: &HostRuntime,
        conn: Connection<S>,
    ) -> Result<(Self::Gain, Connection<S>), (Self::Gain, Connection<S>)>
        ensures done { IfOk result (λ r. done self (state S.Store conn) r.0 (state S.Store r.1)) }
        ensures undone { IfErr result (λ r. undone self (state S.Store conn) r.0 (state S.Store r.1)) };
}

/// Does the work on a new connection, and ends it.
pub(crate) fn work_in<S: Drop, D: Disk + Drop, W: FileWork>(
    rt: &HostRuntime,
    conn: Connection<FileStore<D>>,
    purpose: Purpose,
    work: W,
) -> Worked<W::Gain, Left<S, D>>
    ensures { WorksOver W.done W.undone work (file_state conn) purpose
        result.gain result.closed result.left }
{
    match work.go(rt, conn) {
        Ok((gain, conn)) => {
            let (closed, left) = end_work(conn, purpose);
            Worked { gain, closed, left }
        }
        Err((gain, conn)) => ended_with(gain, Left::Looked(conn)),
    }
}

/// Opens the office, and does a command's work on it.
#[derive(Drop)]
pub(crate) struct Opened<W> {
    /// The work.
    pub(crate) work: W,
}

impl<W: OfficeWork + Drop> FileWork for Opened<W> {
    ghost use Rattle.sqlite.specs.State.{HasCleanDisk};
    ghost use Rattle.sqltables.specs.Kept.{KeepsState};
    ghost use Rattle.dropoffice.specs.Working.{RanOn, SparesShown, StillSees, WasOurs};

    type Gain = W::Gain;

    ghost done = { λ it old gain new. WasOurs old → HasCleanDisk new → RanOn old new (W.step it.work gain) };

    ghost undone = { λ it old gain new. W.idle it.work gain × StillSees old new
        × (WasOurs old → SparesShown old new (KeepsState old)) };

    fn go<S: Alter + Drop>(
        self,
        rt: &HostRuntime,
        conn: Connection<S>,
    ) -> Result<(W::Gain, Connection<S>), (W::Gain, Connection<S>)> {
        let Opened { work } = self;
        match SqlKeeper::open(rt.alloc(), conn) {
            Ok(keeper) => {
                let (gain, keeper) = work.run(rt, keeper);
                Ok((gain, keeper.close()))
            }
            Err((fault, conn)) => Err((work.refuse(unopenable(fault)), conn)),
        }
    }
}

// Why an office could not be opened.
fn unopenable(fault: OpenFault) -> Fault {
    match fault {
        OpenFault::Store => Fault::CannotOpen,
        other => unfit(other),
    }
}
