//! The line of the allowance, and the lines of the limits between keys and boxes.

ghost use Rattle.std.specs.Prelude.{◌≡◌, ◌≤◌, ◌↔◌, ℕ, pos, Contains, Some, IsTrue, IsSome, IsSomeAnd};
ghost use Rattle.std.specs.FinMap.{FinMap, get};
ghost use Rattle.sigtext.specs.Bytes.{bytes_cmp};
ghost use Rattle.sigv4.specs.Allowances.{most_allowance};
ghost use Rattle.boxes.specs.declared.rows.Role.TheVariants.{Link};
ghost use Rattle.boxes.specs.State.{Key};
ghost use Rattle.sqltables.specs.Tables.{Box};
ghost use Rattle.sqlaudit.specs.declared.lines.LimitLine.{LimitLine};
ghost use Rattle.sqlaudit.specs.declared.lines.RulesLine.{RulesLine};
ghost use Rattle.sqlaudit.specs.Outlines.{AreEntries, IsLimitRule, IsRulesEntry};
ghost use Rattle.sqlaudit.specs.Sorting.{HoldsBoxes, HoldsKeys, limit_in};

use crate::box_rules::Boxes;
use crate::key_rules::Keys;
use crate::lines::{LimitLine, RulesLine};
use crate::receipt_rules::natural;
use boxes::Role;
use sigv4::Allowance;

/// Whether the line is the line of the rules, with the same allowance as the first.
fn is_rules_line(line: &RulesLine, first: &RulesLine) -> bool
    ensures { IsTrue result ↔ ((line.now.id ≡ pos 1)
        × (line.now.allowance ≡ first.now.allowance)) }
{
    line.id == 1 && line.allowance == first.allowance
}

/// Whether each line is the line of the rules, with the same allowance as the first.
fn are_rules_lines(lines: &[RulesLine], first: &RulesLine) -> bool
    ensures { IsTrue result ↔ ((line : RulesLine) → Contains lines.now line
        → (line.id ≡ pos 1) × (line.allowance ≡ first.now.allowance)) }
{
    for line in lines {
        if !is_rules_line(line, first) {
            return false;
        }
    }
    true
}

/// Whether the line has an allowance that an office may have.
fn is_allowance(line: &RulesLine) -> bool
    ensures { IsTrue result ↔ ((allowance : ℕ) × (line.now.allowance ≡ pos allowance)
        × (allowance ≤ most_allowance)) }
{
    let told = line.allowance;
    match natural(told) {
        Some(seconds) => Allowance::new(seconds).is_some(),
        None => false,
    }
}

/// Whether there is a line, and every line is the one line of the rules, with the same allowance, which an office may have.
pub(crate) fn has_allowance(lines: &[RulesLine]) -> bool
    ensures { IsTrue result ↔ ((allowance : ℕ)
        × AreEntries IsRulesEntry (λ one. Some allowance) lines.now
        × (allowance ≤ most_allowance)) }
{
    let Some(first) = lines.first() else {
        return false;
    };
    if !is_allowance(first) {
        return false;
    }
    are_rules_lines(lines, first)
}

/// Whether the key exists and is a link's.
fn has_link<'a>(keys: &Keys<'a>, id: &'a [u8]) -> bool
    ensures { (ks : FinMap bytes_cmp Key) → HoldsKeys keys.now ks
        → IsTrue result ↔ IsSomeAnd (get ks id.now) (λ k. k.role ≡ Link) }
{
    match keys.get(&id) {
        Some(key) => key.role == Role::Link,
        None => false,
    }
}

/// Whether the box exists.
fn has_box<'a>(boxes: &Boxes<'a>, name: &'a [u8]) -> bool
    ensures { (bs : FinMap bytes_cmp Box) → HoldsBoxes boxes.now bs
        → IsTrue result ↔ IsSome (get bs name.now) }
{
    boxes.contains_key(&name)
}

/// Whether the line limits an existing link's key to an existing box.
fn is_limit<'a>(line: &'a LimitLine, keys: &Keys<'a>, boxes: &Boxes<'a>) -> bool
    ensures { (ks : FinMap bytes_cmp Key) (bs : FinMap bytes_cmp Box) → HoldsKeys keys.now ks
        → HoldsBoxes boxes.now bs → IsTrue result ↔ IsLimitRule ks bs (limit_in line.now) }
{
    has_link(keys, &line.key) && has_box(boxes, &line.in_box)
}

/// Whether each line limits an existing link's key to an existing box.
pub(crate) fn are_limits<'a>(lines: &'a [LimitLine], keys: &Keys<'a>, boxes: &Boxes<'a>) -> bool
    ensures { (ks : FinMap bytes_cmp Key) (bs : FinMap bytes_cmp Box) → HoldsKeys keys.now ks
        → HoldsBoxes boxes.now bs
        → IsTrue result ↔ ((line : LimitLine) → Contains lines.now line
        → IsLimitRule ks bs (limit_in line)) }
{
    for line in lines {
        if !is_limit(line, keys, boxes) {
            return false;
        }
    }
    true
}
