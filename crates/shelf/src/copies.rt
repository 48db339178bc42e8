//! Copies of what an office keeps.
ghost use Rattle.std.specs.Prelude.{◌≡◌, map, IfOk};
ghost use Rattle.boxes.specs.Rows.{key_of, name_rule_of, settings_of, numbered_receipt};

use boxes::{BoxRow, KeyRow, NameRule, ReceiptRow};
use std::alloc::{AllocError, Global};

/// A copy of a key.
///
/// # Errors
///
/// `AllocError` if an allocation was refused.
pub fn copy_key(alloc: Global, key: &KeyRow) -> Result<KeyRow, AllocError>
    ensures { IfOk result (λ k. key_of k ≡ key_of key.now) }
{
    Ok(KeyRow {
        role: key.role,
        secret: Vec::from_slice(alloc, &key.secret)?,
        revoked: key.revoked,
    })
}

/// A copy of texts.
fn copy_texts(alloc: Global, texts: &[Vec<u8>]) -> Result<Vec<Vec<u8>>, AllocError>
    ensures { IfOk result (λ copies. map (λ t. t.items) copies.items
        ≡ map (λ t. t.items) texts.now) }
{
    let mut copies = Vec::new(alloc);
    'texts: for text in texts {
        copies.push(Vec::from_slice(alloc, text)?)?;
    }
    Ok(copies)
}

/// A copy of a name rule.
fn copy_rule(alloc: Global, rule: &NameRule) -> Result<NameRule, AllocError>
    ensures { IfOk result (λ copy. name_rule_of copy ≡ name_rule_of rule.now) }
{
    match rule {
        NameRule::Any => Ok(NameRule::Any),
        NameRule::Ends(texts) => Ok(NameRule::Ends(copy_texts(alloc, texts)?)),
        NameRule::Begins(text) => Ok(NameRule::Begins(Vec::from_slice(alloc, text)?)),
    }
}

/// A copy of a box.
///
/// # Errors
///
/// `AllocError` if an allocation was refused.
pub fn copy_box(alloc: Global, row: &BoxRow) -> Result<BoxRow, AllocError>
    ensures { IfOk result (λ copy. settings_of copy ≡ settings_of row.now) }
{
    Ok(BoxRow {
        opens: row.opens,
        closes: row.closes,
        days: row.days,
        from_minute: row.from_minute,
        to_minute: row.to_minute,
        quota: row.quota,
        max_files: row.max_files,
        mode: row.mode,
        rule: copy_rule(alloc, &row.rule)?,
    })
}

/// A copy of a receipt.
pub(crate) fn copy_receipt(alloc: Global, receipt: &ReceiptRow) -> Result<ReceiptRow, AllocError>
    ensures { IfOk result (λ copy. numbered_receipt copy ≡ numbered_receipt receipt.now) }
{
    Ok(ReceiptRow {
        number: receipt.number,
        in_box: Vec::from_slice(alloc, &receipt.in_box)?,
        name: Vec::from_slice(alloc, &receipt.name)?,
        size: receipt.size,
        digest: receipt.digest,
        moment: receipt.moment,
        key: Vec::from_slice(alloc, &receipt.key)?,
    })
}

/// A copy of receipts.
pub(crate) fn copy_receipts(
    alloc: Global,
    receipts: &[ReceiptRow],
) -> Result<Vec<ReceiptRow>, AllocError>
    ensures { IfOk result (λ copies. map numbered_receipt copies.items
        ≡ map numbered_receipt receipts.now) }
{
    let mut copies = Vec::new(alloc);
    'receipts: for receipt in receipts {
        copies.push(copy_receipt(alloc, receipt)?)?;
    }
    Ok(copies)
}
