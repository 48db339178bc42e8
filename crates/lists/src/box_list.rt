//! The list of an office's boxes.
ghost use Rattle.std.specs.Prelude.{◌≡◌, Some, IfErr, IfOk, IfSome, option_map};
ghost use Rattle.std.specs.FinMap.{entries, get};
ghost use Rattle.sigtext.specs.Bytes.{bytes_cmp};
ghost use Rattle.sigtext.specs.Counts.{CountsErrors};
ghost use Rattle.boxes.specs.Rows.{settings_of};
ghost use Rattle.boxes.specs.Sound.{IsMoment, IsSound};
ghost use Rattle.boxes.specs.State.{State};
ghost use Rattle.boxes.specs.Views.{AreTotals};
ghost use Rattle.boxes.specs.Bound.{StaysBy};
ghost use Rattle.boxes.specs.Next.{IsBox, IsNext};
ghost use Rattle.lists.specs.Asking.{Meant};
ghost use Rattle.lists.specs.Lists.{by_keeper, by_writer, IsOfAnswering, IsOfManifest};
ghost use Rattle.lists.specs.Boxes.{boxes_head, IsBoxLine, IsTotalsLine};
ghost use Rattle.lists.specs.Written.{SendsLines, WritesList};

use crate::words::{days_text, minute_text, mode_text, rule_text};
use crate::{ListFault, line_of, moment_text, send_line, send_text};
use boxes::{BoxRow, Rolls, Totals};
use itoa::Buffer;
use std::alloc::Global;
use std::io::Write;
use wire::Counted;

/// The header line of a list of boxes.
const BOXES_HEAD: [&[u8]; 12] = [
    b"box", b"opens", b"closes", b"days", b"from", b"to", b"quota", b"files", b"mode", b"rule",
    b"used", b"count",
];

/// A box in the list.
#[derive(Drop)]
struct ListedBox {
    name: Vec<u8>,
    row: BoxRow,
    /// The bytes and files that it holds.
    totals: Totals,
}

// The first box after this name.
fn next_box<K: Rolls>(keeper: &mut K, after: &[u8]) -> Result<Option<ListedBox>, ListFault>
    ensures next { (s : State) → Meant K.Keeper keeper.old keeper.new s → IfOk result (λ found.
        IsNext bytes_cmp (IsBox s) after.now (option_map (λ b. b.name.items) found)) }
    ensures row { (s : State) → Meant K.Keeper keeper.old keeper.new s → IfOk result (λ found.
        IfSome found (λ b. Some (settings_of b.row) ≡ get s.boxes b.name.items)) }
    ensures totals { (s : State) → Meant K.Keeper keeper.old keeper.new s → IfOk result (λ found.
        IfSome found (λ b. AreTotals s b.name.items b.totals)) }
    ensures stays { StaysBy K.Keeper keeper.old keeper.new (by_keeper result) }
    ensures fault { IfErr result IsOfAnswering }
{
    let name = match keeper.box_after(after) {
        Ok(Some(name)) => name,
        Ok(None) => return Ok(None),
        Err(fault) => return Err(ListFault::Keep(fault)),
    };
    let row = match keeper.box_row(&name) {
        Ok(Some(row)) => row,
        Ok(None) => return Err(ListFault::Memory),
        Err(fault) => return Err(ListFault::Keep(fault)),
    };
    match keeper.sizes(&name) {
        Ok(totals) => Ok(Some(ListedBox { name, row, totals })),
        Err(fault) => Err(ListFault::Keep(fault)),
    }
}

// The line of a box.
fn box_line(alloc: Global, listed: &ListedBox) -> Result<Vec<u8>, ListFault>
    ensures line { IsMoment listed.now.row.opens → IsMoment listed.now.row.closes
        → IfOk result (λ text. IsTotalsLine listed.now.name.items
        (settings_of listed.now.row) listed.now.totals text.items) }
    ensures memory { IfErr result (λ f. f ≡ ListFault.Memory) }
{
    let row = &listed.row;
    let Ok(rule) = rule_text(alloc, &row.rule) else {
        return Err(ListFault::Memory);
    };
    let mut quota = Buffer::new();
    let mut files = Buffer::new();
    let mut used = Buffer::new();
    let mut count = Buffer::new();
    let fields: [&[u8]; 12] = [
        &listed.name,
        &moment_text(row.opens),
        &moment_text(row.closes),
        &days_text(&row.days),
        &minute_text(row.from_minute),
        &minute_text(row.to_minute),
        quota.format(row.quota).as_bytes(),
        files.format(row.max_files).as_bytes(),
        mode_text(row.mode),
        &rule,
        used.format(listed.totals.used).as_bytes(),
        count.format(listed.totals.count).as_bytes(),
    ];
    line_of(alloc, &fields)
}

// Writes the lines of the boxes.
fn send_boxes<K: Rolls, W: Write>(
    alloc: Global,
    keeper: &mut K,
    out: &mut Counted<W>,
) -> Result<(), ListFault>
    ensures sent { (s : State) → Meant K.Keeper keeper.old keeper.new s
        → SendsLines (IsBoxLine s) (entries s.boxes)
        (W.contents out.old.inner) (W.contents out.new.inner) result }
    ensures stays { StaysBy K.Keeper keeper.old keeper.new (by_keeper result) }
    ensures count { CountsErrors out.old.faults out.new.faults (by_writer result) }
    ensures fault { IfErr result IsOfManifest }
{
    let mut after = Vec::new(alloc);
    'boxes: for _ in 0..u64::MAX {
        let Some(listed) = next_box(keeper, &after)? else {
            return Ok(());
        };
        let text = box_line(alloc, &listed)?;
        send_text(&text, out)?;
        after = listed.name;
    }
    Err(ListFault::Memory)
}

/// Writes the boxes of an office as CSV, sorted by name. The header line is
/// `box,opens,closes,days,from,to,quota,files,mode,rule,used,count`: the name, two moments like `20130524T000000Z`, a digit for
/// each day from Monday on, two times like `HHmm`, the most bytes and files, `keep` or `replace`, the name rule as `any`, `ends
/// .pdf,.zip` or `begins offer-`, and the bytes and files that the box holds.
///
/// # Errors
///
/// `Keep` if the keeper failed, `Write` if a write failed, `Memory` if memory ran out. The output is then a beginning of the
/// list.
pub fn list_boxes<K: Rolls, W: Write>(
    alloc: Global,
    keeper: &mut K,
    out: &mut Counted<W>,
) -> Result<(), ListFault>
    ensures writes { (s : State) → K.means keeper.old s → IsSound s → K.is_honest keeper.new
        → WritesList boxes_head (IsBoxLine s) (entries s.boxes)
        (W.contents out.old.inner) (W.contents out.new.inner) result }
    ensures stays { StaysBy K.Keeper keeper.old keeper.new (by_keeper result) }
    ensures count { CountsErrors out.old.faults out.new.faults (by_writer result) }
    ensures fault { IfErr result IsOfManifest }
{
    send_line(alloc, &BOXES_HEAD, out)?;
    send_boxes(alloc, keeper, out)
}
