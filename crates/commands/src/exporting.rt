//! `drop export`: writes the files of an office to a folder.
ghost use Rattle.boxes.specs.Keeping.{KeepsGroup};
ghost use Rattle.boxes.specs.State.{State};
ghost use Rattle.office.specs.Crashes.{AddsStanding};

use crate::faults::Fault;
use crate::work::OfficeWork;
use boxes::Rolls;
use lists::{ExportFault, Folder, PutFault, export};
use std::alloc::Global;
use std::fs::{DirBuilder, Files, OpenOptions, Permissions};
use std::io::{BufWriter, Error, ErrorKind, Write};
use std::os::unix::fs::{DirBuilderExt, OpenOptionsExt, PermissionsExt};
use std::{fs, str};
use tasks::Export;
use wire::Counted;

/// Readable and writable by the owner only.
const OWNERS_FILE: u32 = 0o600;

/// Open to the owner only.
const OWNERS_FOLDER: u32 = 0o700;

/// An export: the folder to make, and the box to which it is limited, if one is named.
#[derive(Drop)]
pub struct ExportWork<'w> {
    /// The arguments.
    pub words: Export<'w>,
}

impl OfficeWork for ExportWork<'_> {
    ghost use Rattle.std.specs.Prelude.{IsOk};
    ghost use Rattle.commands.specs.Listing.{Looks};

    type Gain = Result<(), Fault>;

    ghost step = { λ work gain. Looks };

    ghost idle = { λ work gain. IsOk gain → ⊥ };

    fn run<K: Rolls>(self, rt: &HostRuntime, mut keeper: K) -> (Result<(), Fault>, K) {
        if make_folder(rt, self.words.folder).is_err() {
            return (Err(Fault::CannotMakeFolder), keeper);
        }
        let mut folder = ExportFolder {
            rt,
            alloc: rt.alloc(),
            root: self.words.folder,
            made: Vec::new(rt.alloc()),
            whole: 0,
        };
        let done = match export_into(rt, &mut keeper, &self.words, &mut folder) {
            Ok(()) => Ok(()),
            Err(fault) => Err(told(fault, folder.whole)),
        };
        (done, keeper)
    }

    fn refuse(self, fault: Fault) -> Result<(), Fault> {
        Err(fault)
    }
}

// Exports to the folder. The two lists lie beside the folders of the boxes. Their buffers are flushed even if the export fails.
fn export_into<K: Rolls, R: Files>(
    rt: &R,
    keeper: &mut K,
    words: &Export<'_>,
    folder: &mut ExportFolder<'_, R>,
) -> Result<(), ExportFault>
    ensures same { (s : State) → K.Keeper.means keeper.old s → K.Keeper.means keeper.new s }
    ensures honest { K.Keeper.is_honest keeper.new → K.Keeper.is_honest keeper.old }
    ensures group { KeepsGroup K.Keeper.is_alone K.Keeper.gathers keeper.old keeper.new }
    ensures crash { (s : State) → K.Keeper.means keeper.old s → K.Keeper.is_honest keeper.new
        → AddsStanding K.Keeper keeper.old keeper.new s }
{
    let alloc = folder.alloc;
    let (mut files, mut sums) = lists_in(rt, alloc, words.folder)?;
    let in_box = words.in_box.map(|name| name.as_bytes());
    let exported = export(alloc, keeper, in_box, folder, &mut files, &mut sums);
    exported.and(flush(&mut files, &mut sums))
}

// Flushes the two lists, also the second if the first fails.
fn flush<W: Write>(files: &mut W, sums: &mut W) -> Result<(), ExportFault> {
    match (files.flush().is_ok(), sums.flush().is_ok()) {
        (true, true) => Ok(()),
        (false, _) => Err(ExportFault::Files),
        (true, false) => Err(ExportFault::Sums),
    }
}

// The two lists in the folder.
fn lists_in<R: Files>(
    rt: &R,
    alloc: Global,
    folder: &str,
) -> Result<(Counted<BufWriter<R::File>>, Counted<BufWriter<R::File>>), ExportFault> {
    let files = list_in(rt, alloc, folder, "files.csv", ExportFault::Files)?;
    let sums = list_in(rt, alloc, folder, "SHA256SUMS", ExportFault::Sums)?;
    Ok((files, sums))
}

// A buffered writer for a list in the folder.
fn list_in<R: Files>(
    rt: &R,
    alloc: Global,
    folder: &str,
    name: &str,
    fault: ExportFault,
) -> Result<Counted<BufWriter<R::File>>, ExportFault> {
    let Ok(path) = format!(in alloc; "{}/{}", folder, name) else {
        return Err(ExportFault::Memory);
    };
    let Ok(file) = new_file(rt, path.as_str()) else {
        return Err(fault);
    };
    match BufWriter::new(alloc, file) {
        Ok(writer) => Ok(Counted::new(writer)),
        Err(_) => Err(ExportFault::Memory),
    }
}

// The fault of an export that failed after `whole` complete files.
fn told(fault: ExportFault, whole: u64) -> Fault {
    match fault {
        ExportFault::Keep(fault) => Fault::from(fault),
        ExportFault::Memory | ExportFault::Put(PutFault::Memory) => Fault::OutOfMemory,
        ExportFault::Put(_) | ExportFault::Files | ExportFault::Sums => Fault::CannotExport(whole),
    }
}

// The folder that files are exported to.
#[derive(Drop)]
struct ExportFolder<'r, R> {
    rt: &'r R,
    alloc: Global,
    root: &'r str,
    // The folder made last. The files of a box come one after another.
    made: Vec<u8>,
    // The number of complete files.
    whole: u64,
}

impl<R: Files> ExportFolder<'_, R> {
    // Makes this folder, unless it is the one made last.
    fn enter(&mut self, folder: &[u8], path: &str) -> Result<(), PutFault> {
        if self.made.as_slice() == folder {
            return Ok(());
        }
        make_folder(self.rt, path).map_err(put_fault)?;
        match Vec::from_slice(self.alloc, folder) {
            Ok(made) => {
                self.made = made;
                Ok(())
            }
            Err(_) => Err(PutFault::Memory),
        }
    }

    // Writes a new file.
    fn write(&self, path: &str, bytes: &[u8]) -> Result<(), PutFault> {
        let mut file = new_file(self.rt, path).map_err(put_fault)?;
        file.write_all(bytes).map_err(put_fault)
    }
}

impl<R: Files> Folder for ExportFolder<'_, R> {
    fn put(&mut self, folder: &[u8], name: &[u8], bytes: &[u8]) -> Result<(), PutFault> {
        let Ok(folder_text) = str::from_utf8(folder) else {
            return Err(PutFault::Write);
        };
        let Ok(name) = str::from_utf8(name) else {
            return Err(PutFault::Write);
        };
        let Ok(inner) = format!(in self.alloc; "{}/{}", self.root, folder_text) else {
            return Err(PutFault::Memory);
        };
        let Ok(path) = format!(in self.alloc; "{}/{}", inner, name) else {
            return Err(PutFault::Memory);
        };
        self.enter(folder, inner.as_str())?;
        self.write(path.as_str(), bytes)?;
        self.whole = self.whole.saturating_add(1);
        Ok(())
    }
}

// Why a file or folder could not be made.
fn put_fault(error: Error) -> PutFault {
    match error.kind() {
        ErrorKind::AlreadyExists => PutFault::There,
        ErrorKind::OutOfMemory => PutFault::Memory,
        _ => PutFault::Write,
    }
}

// Makes a new folder. Sets its mode again, because the umask may have removed bits that the owner needs.
fn make_folder<R: Files>(rt: &R, path: &str) -> Result<(), Error> {
    let mut how = DirBuilder::new();
    how.mode(OWNERS_FOLDER);
    how.create(rt, path)?;
    fs::set_permissions(rt, path, Permissions::from_mode(OWNERS_FOLDER))
}

// Makes a new file.
fn new_file<R: Files>(rt: &R, path: &str) -> Result<R::File, Error> {
    let mut how = OpenOptions::new();
    how.write(true).create_new(true).mode(OWNERS_FILE);
    let file = how.open(rt, path)?;
    fs::set_permissions(rt, path, Permissions::from_mode(OWNERS_FILE))?;
    Ok(file)
}
