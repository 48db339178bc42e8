//! `drop links`, `drop manifest`, `drop compare` and `drop list`: lists in CSV.
ghost use Rattle.std.specs.Prelude.{◌≡◌, IfOk, IsOk, IsTrue, Some};
ghost use Rattle.std.specs.Io.KnownBytes.{Keeps};
ghost use Rattle.boxes.specs.Sound.{IsSound};
ghost use Rattle.boxes.specs.State.{State};
ghost use Rattle.lists.specs.Lists.{by_keeper};
ghost use Rattle.boxes.specs.Bound.{StaysBy};
ghost use Rattle.commands.specs.Listing.{IsListOf, WritesStock};

use crate::faults::Fault;
use crate::signing::KeyWork;
use crate::work::{Done, OfficeWork};
use boxes::Rolls;
use links::LinkKey;
use lists::{ListFault, compare, links_from, list_boxes, list_files, list_keys, manifest};
use std::alloc::Global;
use std::io::{BufWriter, Read, Write};
use tasks::Links;
use wire::Counted;

/// A list of requested links, and the output, which gets the same list with the links.
#[derive(Drop)]
pub struct LinksWork<'w, R: Drop, W: Drop> {
    /// The host and the region.
    pub words: Links<'w>,
    /// The list.
    pub input: R,
    /// The output.
    pub out: W,
}

impl<R: Read + Drop, W: Write + Drop> KeyWork for LinksWork<'_, R, W> {
    type Out = W;

    fn run(self, alloc: Global, key: &LinkKey<'_>) -> Done<W> {
        let (host, region) = (self.words.host.as_bytes(), self.words.region.as_bytes());
        let mut writer = match buffered(alloc, self.out) {
            Ok(writer) => writer,
            Err(fault) => return failed(fault),
        };
        let written = links_from(alloc, self.input, &mut writer, key, host, region);
        told(written.end, writer)
    }

    fn refuse(self, fault: Fault) -> Done<W> {
        Done {
            result: Err(fault),
            out: Some(self.out),
        }
    }
}

/// The output of a manifest.
#[derive(Drop)]
pub struct ManifestWork<W: Drop> {
    /// The output.
    pub out: W,
}

impl<W: Write + Drop> OfficeWork for ManifestWork<W> {
    ghost use Rattle.commands.specs.Listing.{IsManifest, Writes};
    ghost use Rattle.std.specs.Prelude.{IsOk};
    ghost use Rattle.commands.specs.Saying.{HandsBack};

    type Gain = Done<W>;

    ghost step = { λ work gain. Writes W.contents IsManifest (IsOk gain.result) work.out gain.out };

    ghost idle = { λ work gain. HandsBack (IsOk gain.result) work.out gain.out };

    fn run<K: Rolls>(self, rt: &HostRuntime, mut keeper: K) -> (Done<W>, K) {
        let mut writer = match buffered(rt.alloc(), self.out) {
            Ok(writer) => writer,
            Err(fault) => return (failed(fault), keeper),
        };
        let written = manifest(rt.alloc(), &mut keeper, &mut writer);
        (told(written, writer), keeper)
    }

    fn refuse(self, fault: Fault) -> Done<W> {
        Done {
            result: Err(fault),
            out: Some(self.out),
        }
    }
}

/// The manifest to compare, and the output.
#[derive(Drop)]
pub struct CompareWork<R: Drop, W: Drop> {
    /// The manifest.
    pub input: R,
    /// The output.
    pub out: W,
}

impl<R: Read + Drop, W: Write + Drop> OfficeWork for CompareWork<R, W> {
    ghost use Rattle.commands.specs.Listing.{Compares};
    ghost use Rattle.std.specs.Prelude.{IsOk};
    ghost use Rattle.commands.specs.Saying.{HandsBack};

    type Gain = Done<W>;

    ghost step = { λ work gain. Compares W.contents (R.remaining work.input) (IsOk gain.result) work.out gain.out };

    ghost idle = { λ work gain. HandsBack (IsOk gain.result) work.out gain.out };

    fn run<K: Rolls>(self, rt: &HostRuntime, mut keeper: K) -> (Done<W>, K) {
        let CompareWork { input, out } = self;
        let mut writer = match buffered(rt.alloc(), out) {
            Ok(writer) => writer,
            Err(fault) => return (failed(fault), keeper),
        };
        let compared = compare(rt.alloc(), input, &mut keeper, &mut writer);
        (told(compared.end, writer), keeper)
    }

    fn refuse(self, fault: Fault) -> Done<W> {
        Done {
            result: Err(fault),
            out: Some(self.out),
        }
    }
}

/// The kinds of lists.
#[derive(Clone, Copy, PartialEq, Eq)]
pub enum Stock {
    /// The keys.
    Keys,
    /// The boxes.
    Boxes,
    /// The files.
    Files,
}

impl Stock {
    ghost use Rattle.std.specs.Prelude.{◌≡◌, IfSome, codes};
    ghost use Rattle.commands.specs.Listing.{stock_name};

    /// The list that the argument names.
    pub fn named(word: &str) -> Option<Stock>
        ensures { IfSome result (λ stock. word.now ≡ stock_name stock) }
    {
        match word {
            "keys" => Some(Stock::Keys),
            "boxes" => Some(Stock::Boxes),
            "files" => Some(Stock::Files),
            _ => None,
        }
    }
}

/// The list to write, and the output.
#[derive(Drop)]
pub struct ListWork<W: Drop> {
    /// The list.
    pub stock: Stock,
    /// The output.
    pub out: W,
}

impl<W: Write + Drop> OfficeWork for ListWork<W> {
    ghost use Rattle.commands.specs.Listing.{IsListOf, Writes};
    ghost use Rattle.std.specs.Prelude.{IsOk};
    ghost use Rattle.commands.specs.Saying.{HandsBack};

    type Gain = Done<W>;

    ghost step = { λ work gain. Writes W.contents (IsListOf work.stock) (IsOk gain.result) work.out gain.out };

    ghost idle = { λ work gain. HandsBack (IsOk gain.result) work.out gain.out };

    fn run<K: Rolls>(self, rt: &HostRuntime, mut keeper: K) -> (Done<W>, K) {
        let ListWork { stock, out } = self;
        let mut writer = match buffered(rt.alloc(), out) {
            Ok(writer) => writer,
            Err(fault) => return (failed(fault), keeper),
        };
        let written = list(rt.alloc(), &mut keeper, stock, &mut writer);
        (told(written, writer), keeper)
    }

    fn refuse(self, fault: Fault) -> Done<W> {
        Done {
            result: Err(fault),
            out: Some(self.out),
        }
    }
}

// Writes the list.
fn list<K: Rolls, W: Write>(
    alloc: Global,
    keeper: &mut K,
    stock: Stock,
    out: &mut Counted<W>,
) -> Result<(), ListFault>
    ensures writes { (s : State) → K.Keeper.means keeper.old s → IsSound s → K.Keeper.is_honest keeper.new
        → WritesStock stock s (W.contents out.old.inner) (W.contents out.new.inner) result }
    ensures stays { StaysBy K.Keeper keeper.old keeper.new (by_keeper result) }
{
    match stock {
        Stock::Keys => list_keys(alloc, keeper, out),
        Stock::Boxes => list_boxes(alloc, keeper, out),
        Stock::Files => list_files(alloc, keeper, out),
    }
}

/// A buffered writer.
pub(crate) fn buffered<W: Write + Drop>(
    alloc: Global,
    out: W,
) -> Result<Counted<BufWriter<W>>, Fault>
    ensures { IfOk result (λ writer. Keeps (W.contents out) (⟦<BufWriter<W> as Write>⟧.contents writer.inner)) }
{
    match BufWriter::new(alloc, out) {
        Ok(writer) => Ok(Counted::new(writer)),
        Err(_) => Err(Fault::OutOfMemory),
    }
}

// What a work gives whose output is gone.
fn failed<W: Drop>(fault: Fault) -> Done<W>
    ensures { IsOk result.result → ⊥ }
{
    Done {
        result: Err(fault),
        out: None,
    }
}

// What a work gives behind a list. Flushes the buffer even if the list failed.
fn told<W: Write + Drop>(listed: Result<(), ListFault>, writer: Counted<BufWriter<W>>) -> Done<W>
    ensures { IsOk result.result → IsOk listed × ((out : W) × (result.out ≡ Some out)
        × Keeps (⟦<BufWriter<W> as Write>⟧.contents writer.inner) (W.contents out)) }
{
    let mut writer = writer.inner;
    let is_flushed = writer.flush().is_ok();
    let (out, _) = writer.into_parts();
    Done {
        result: listed_and_flushed(listed, is_flushed),
        out: Some(out),
    }
}

// The result of a list, and of flushing it.
fn listed_and_flushed(listed: Result<(), ListFault>, is_flushed: bool) -> Result<(), Fault>
    ensures { IsOk result → IsOk listed × IsTrue is_flushed }
{
    match listed {
        Ok(()) if is_flushed => Ok(()),
        Ok(()) => Err(Fault::CannotWrite),
        Err(fault) => Err(Fault::from(fault)),
    }
}
