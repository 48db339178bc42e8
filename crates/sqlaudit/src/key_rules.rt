//! Converts the lines of the keys to keys.

ghost use Rattle.std.specs.Prelude.{◌≡◌, ◌↔◌, ℕ, Bool, List, IsTrue, IfOk, MatchOption};
ghost use Rattle.sqlaudit.specs.Outlines.{IsKeyEntry, IsKeyRule};
ghost use Rattle.sqlaudit.specs.Sorting.{IsGood, IsRead, key_in, text_of};
ghost use Rattle.sigtext.specs.Bytes.{bytes_cmp};
ghost use Rattle.boxes.specs.declared.rows.Role.{Role};
ghost use Rattle.boxes.specs.State.{Key};
ghost use Rattle.sqltables.specs.Tables.{flag, role_number};

use crate::lines::KeyLine;
use boxes::Role;
use sigv4::{is_key_id, is_secret};
use std::alloc::{AllocError, Global};
use std::collections::BTreeMap;

/// A key, as given by its line.
#[derive(Clone, Copy)]
pub(crate) struct KeyEntry<'a> {
    pub(crate) role: Role,
    pub(crate) secret: &'a [u8],
    pub(crate) revoked: bool,
}

/// The keys, keyed by id.
pub(crate) type Keys<'a> = BTreeMap<&'a [u8], KeyEntry<'a>>;

/// The role with this number: 0 is a link, 1 a clerk.
fn role_of(number: i64) -> Option<Role>
    ensures { MatchOption result ((role : Role) → number ≡ role_number role → ⊥)
        (λ role. number ≡ role_number role) }
{
    match number {
        0 => Some(Role::Link),
        1 => Some(Role::Clerk),
        _ => None,
    }
}

/// The flag with this number, 0 or 1.
fn flag_of(number: i64) -> Option<bool>
    ensures { MatchOption result ((is : Bool) → number ≡ flag is → ⊥) (λ is. number ≡ flag is) }
{
    match number {
        0 => Some(false),
        1 => Some(true),
        _ => None,
    }
}

/// The key of a line, if the line is a key.
fn key_of(line: &KeyLine) -> Option<KeyEntry<'_>>
    ensures { MatchOption result ((id : List ℕ) (k : Key)
        → IsGood IsKeyEntry IsKeyRule line.now id k → ⊥)
        (λ e. IsGood IsKeyEntry IsKeyRule line.now line.now.id.items (key_in e)) }
{
    if !is_key_id(&line.id) || !is_secret(&line.secret) {
        return None;
    }
    let (Some(role), Some(revoked)) = (role_of(line.role), flag_of(line.revoked)) else {
        return None;
    };
    Some(KeyEntry {
        role,
        secret: &line.secret,
        revoked,
    })
}

/// Whether two entries are the same key.
fn is_same_key(a: &KeyEntry<'_>, b: &KeyEntry<'_>) -> bool
    ensures { IsTrue result ↔ key_in a.now ≡ key_in b.now }
{
    a.role == b.role && a.revoked == b.revoked && a.secret == b.secret
}

/// The keys of the lines, if each line is a key and no two different keys have the same id.
pub(crate) fn keys_by_id<'a>(
    alloc: Global,
    lines: &'a [KeyLine],
) -> Result<Option<Keys<'a>>, AllocError>
    ensures { IfOk result (IsRead bytes_cmp text_of key_in
        (IsGood IsKeyEntry IsKeyRule) lines.now) }
{
    let mut keys = BTreeMap::new(alloc);
    for line in lines {
        let Some(key) = key_of(line) else {
            return Ok(None);
        };
        if let Some(first) = keys.insert(line.id.as_slice(), key)? {
            if !is_same_key(&first, &key) {
                return Ok(None);
            }
        }
    }
    Ok(Some(keys))
}
