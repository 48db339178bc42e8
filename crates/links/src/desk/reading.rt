//! Reading a desk command.
ghost use Rattle.std.specs.Prelude.{◌++◌, IfErr, IfOk, IfSome, codes};
ghost use Rattle.boxes.specs.Commands.{HasForm};
ghost use Rattle.links.specs.Finds.{IfFound};
ghost use Rattle.links.specs.CommandLines.{said, FindsCommand, HasListedRule, HasRuleWord, SaysCommand};

use crate::desk::line::DeskLine;
use crate::desk::settings::read_settings;
use crate::desk::values::{read_number, read_role};
use crate::inspecting::read_moment;
use boxes::has_form;
use sigtext::cut;
use std::alloc::{AllocError, Global};

// Reads what follows `key add `.
fn read_key(words: &[u8]) -> Option<DeskLine<'_>>
    ensures some { IfSome result (SaysCommand (codes "key add " ++ words.now)) }
    ensures all { FindsCommand (codes "key add " ++ words.now) result }
{
    let (id, rest) = cut(words, b' ')?;
    let (role, secret) = cut(rest, b' ')?;
    let role = read_role(role)?;
    Some(DeskLine::AddKey { id, role, secret })
}

// Reads what follows `box add `.
fn read_box(alloc: Global, words: &[u8]) -> Result<Option<DeskLine<'_>>, AllocError>
    ensures some { IfFound result (SaysCommand (codes "box add " ++ words.now)) }
    ensures all { IfOk result (FindsCommand (codes "box add " ++ words.now)) }
    ensures memory { IfErr result (λ e. HasRuleWord words.now) }
{
    let Some((name, rest)) = cut(words, b' ') else {
        return Ok(None);
    };
    match read_settings(alloc, rest)? {
        Some(row) => Ok(Some(DeskLine::AddBox { name, row })),
        None => Ok(None),
    }
}

// Reads what follows `box close `.
fn read_closing(words: &[u8]) -> Option<DeskLine<'_>>
    ensures some { IfSome result (SaysCommand (codes "box close " ++ words.now)) }
    ensures all { FindsCommand (codes "box close " ++ words.now) result }
{
    let (name, moment) = cut(words, b' ')?;
    let moment = read_moment(moment)?.seconds();
    Some(DeskLine::CloseBox { name, moment })
}

// Reads what follows `file drop `. The name is everything after the box, including spaces.
fn read_drop(words: &[u8]) -> Option<DeskLine<'_>>
    ensures some { IfSome result (SaysCommand (codes "file drop " ++ words.now)) }
    ensures all { FindsCommand (codes "file drop " ++ words.now) result }
{
    let (in_box, name) = cut(words, b' ')?;
    Some(DeskLine::DropFile { in_box, name })
}

// Reads what follows `key limit `.
fn read_limit(words: &[u8]) -> Option<DeskLine<'_>>
    ensures some { IfSome result (SaysCommand (codes "key limit " ++ words.now)) }
    ensures all { FindsCommand (codes "key limit " ++ words.now) result }
{
    let (id, in_box) = cut(words, b' ')?;
    Some(DeskLine::LimitKey { id, in_box })
}

// Reads what follows `office allow `.
fn read_allowance(word: &[u8]) -> Option<DeskLine<'_>>
    ensures some { IfSome result (SaysCommand (codes "office allow " ++ word.now)) }
    ensures all { FindsCommand (codes "office allow " ++ word.now) result }
{
    let seconds = read_number(word)?;
    Some(DeskLine::SetAllowance { seconds })
}

// Reads one of the seven commands. Does not check the forms of names, ids and secrets.
fn read_line(alloc: Global, line: &[u8]) -> Result<Option<DeskLine<'_>>, AllocError>
    ensures some { IfFound result (SaysCommand line.now) }
    ensures all { IfOk result (FindsCommand line.now) }
    ensures memory { IfErr result (λ e. HasListedRule line.now) }
{
    if let Some(words) = line.strip_prefix(b"key add ") {
        return Ok(read_key(words));
    }
    if let Some(id) = line.strip_prefix(b"key revoke ") {
        return Ok(Some(DeskLine::RevokeKey { id }));
    }
    if let Some(words) = line.strip_prefix(b"box add ") {
        return read_box(alloc, words);
    }
    if let Some(words) = line.strip_prefix(b"box close ") {
        return Ok(read_closing(words));
    }
    if let Some(words) = line.strip_prefix(b"file drop ") {
        return Ok(read_drop(words));
    }
    if let Some(words) = line.strip_prefix(b"key limit ") {
        return Ok(read_limit(words));
    }
    match line.strip_prefix(b"office allow ") {
        Some(word) => Ok(read_allowance(word)),
        None => Ok(None),
    }
}

/// Reads a desk command: words separated by single spaces, in one of seven forms. ID, SECRET and the names of
/// boxes and files must have the forms that the office asks for (`boxes::has_form`).
///
/// - `key add ID ROLE SECRET`, where ROLE is `clerk` or `link`;
/// - `key revoke ID`;
/// - `box add NAME OPENS CLOSES DAYS FROM TO QUOTA FILES MODE RULE`. OPENS and CLOSES are moments like
///   `20130524T000000Z`. DAYS is seven digits, each 0 or 1, Monday first. FROM and TO are times `HHmm`, FROM
///   before TO, and TO at most `2400`. QUOTA is a number of bytes up to 1000000000000, and FILES a number up
///   to 1000000; neither has a leading zero, except `0` itself. MODE is `keep` or `replace`. RULE is `any`,
///   `ends T,T,..` with 1 to 8 endings of 1 to 32 bytes, or `begins T` with a beginning of 1 to 64 bytes.
///   Each T is UTF-8 without commas, spaces or control bytes;
/// - `box close NAME MOMENT`, with MOMENT written like OPENS;
/// - `file drop BOX NAME`, where NAME runs to the end of the line and may contain spaces;
/// - `key limit ID BOX`;
/// - `office allow SECONDS`, with SECONDS up to 900 and no leading zero, except `0` itself.
///
/// `None` if the line is not a command.
///
/// # Errors
///
/// Memory was refused. Only `box add` with a rule `ends` or `begins` takes memory.
pub fn read_command(alloc: Global, line: &[u8]) -> Result<Option<DeskLine<'_>>, AllocError>
    ensures some { IfFound result (λ l. SaysCommand line.now l × HasForm (said l)) }
    ensures all { IfOk result (FindsCommand line.now) }
    ensures memory { IfErr result (λ e. HasListedRule line.now) }
{
    match read_line(alloc, line)? {
        Some(read) if has_form(&read.command()) => Ok(Some(read)),
        _ => Ok(None),
    }
}
