//! The words of a box's settings.
ghost use Rattle.std.specs.Prelude.{◌≡◌, ◌∷◌, [], ◌==◌, ◌⊎◌, ℕ, List, true, IfErr, IfOk, IfSome, map, option_map, Some, codes};
ghost use Rattle.std.specs.List.{join_with_byte, slice_split};
ghost use Rattle.boxes.specs.Rows.{name_rule_of, settings_of};
ghost use Rattle.boxes.specs.Sound.{AreSettings, IsNameRule};
ghost use Rattle.boxes.specs.State as state;
ghost use Rattle.boxes.specs.State.{AnyName, Settings};
ghost use Rattle.sigtext.specs.Bytes.{begins_with};
ghost use Rattle.sigtext.specs.Targets.{Lacks};
ghost use Rattle.links.specs.CommandLines.{texts_of, HasRuleWord, SayRow};
ghost use Rattle.links.specs.Finds.{IfFound};
ghost use Rattle.links.specs.CommandTexts.{SaysSettings, SpellsSettings, rule_words};

use crate::desk::values::{read_days, read_minute, read_mode, read_number};
use crate::inspecting::read_moment;
use boxes::{BoxRow, NameRule};
use sigtext::cut;
use std::alloc::{AllocError, Global};

/// The words of a box's settings. `rule` holds everything after the mode.
#[derive(Clone, Copy)]
pub(crate) struct SettingsWords<'a> {
    pub(crate) opens: &'a [u8],
    pub(crate) closes: &'a [u8],
    pub(crate) days: &'a [u8],
    pub(crate) from: &'a [u8],
    pub(crate) to: &'a [u8],
    pub(crate) quota: &'a [u8],
    pub(crate) max_files: &'a [u8],
    pub(crate) mode: &'a [u8],
    pub(crate) rule: &'a [u8],
}

// Cuts the words at the first eight spaces.
fn cut_words(text: &[u8]) -> Option<SettingsWords<'_>>
    ensures some { IfSome result (λ w. text.now ≡ join_with_byte 32 (texts_of w)) }
    ensures all { (opens closes days from to quota max_files mode rule : List ℕ)
        → Lacks 32 opens → Lacks 32 closes → Lacks 32 days → Lacks 32 from → Lacks 32 to
        → Lacks 32 quota → Lacks 32 max_files → Lacks 32 mode
        → let texts = opens ∷ closes ∷ days ∷ from ∷ to ∷ quota ∷ max_files ∷ mode ∷ rule ∷ [] in
        text.now ≡ join_with_byte 32 texts → option_map texts_of result ≡ Some texts }
{
    let (opens, rest) = cut(text, b' ')?;
    let (closes, rest) = cut(rest, b' ')?;
    let (days, rest) = cut(rest, b' ')?;
    let (from, rest) = cut(rest, b' ')?;
    let (to, rest) = cut(rest, b' ')?;
    let (quota, rest) = cut(rest, b' ')?;
    let (max_files, rest) = cut(rest, b' ')?;
    let (mode, rule) = cut(rest, b' ')?;
    Some(SettingsWords {
        opens,
        closes,
        days,
        from,
        to,
        quota,
        max_files,
        mode,
        rule,
    })
}

// Splits a list of texts at its commas.
fn read_texts(alloc: Global, list: &[u8]) -> Result<Vec<Vec<u8>>, AllocError>
    ensures { IfOk result (λ texts.
        map (λ t. t.items) texts.items ≡ slice_split (λ b. b == 44) list.now) }
{
    let mut texts = Vec::new(alloc);
    for text in list.split(|byte| *byte == b',') {
        texts.push(Vec::from_slice(alloc, text)?)?;
    }
    Ok(texts)
}

// Reads a name rule: `any`, `ends T,T,..` or `begins T`.
fn read_rule(alloc: Global, words: &[u8]) -> Result<Option<NameRule>, AllocError>
    ensures some { IfFound result (λ r. words.now ≡ join_with_byte 32 (rule_words (name_rule_of r))) }
    ensures all { IfOk result (λ found. (r : state.NameRule) → IsNameRule r
        → words.now ≡ join_with_byte 32 (rule_words r) → option_map name_rule_of found ≡ Some r) }
    ensures memory { IfErr result (λ e. (begins_with words.now (codes "ends ") ≡ true)
        ⊎ (begins_with words.now (codes "begins ") ≡ true)) }
{
    if words == b"any".as_slice() {
        return Ok(Some(NameRule::Any));
    }
    if let Some(list) = words.strip_prefix(b"ends ") {
        return Ok(Some(NameRule::Ends(read_texts(alloc, list)?)));
    }
    match words.strip_prefix(b"begins ") {
        Some(text) => Ok(Some(NameRule::Begins(Vec::from_slice(alloc, text)?))),
        None => Ok(None),
    }
}

// Reads the settings in these words, all but the name rule, which is set to any name.
fn read_row(words: &SettingsWords<'_>) -> Option<BoxRow>
    ensures some { IfSome result (λ row. SayRow words.now (settings_of row)
        × ((settings_of row).rule ≡ AnyName)) }
    ensures all { (b : Settings) → SayRow words.now b → AreSettings b
        → option_map settings_of result ≡ Some (record b { rule = AnyName }) }
{
    let opens = read_moment(words.opens)?.seconds();
    let closes = read_moment(words.closes)?.seconds();
    let days = read_days(words.days)?;
    let from_minute = read_minute(words.from)?;
    let to_minute = read_minute(words.to)?;
    let quota = read_number(words.quota)?;
    let max_files = read_number(words.max_files)?;
    let mode = read_mode(words.mode)?;
    Some(BoxRow {
        opens,
        closes,
        days,
        from_minute,
        to_minute,
        quota,
        max_files,
        mode,
        rule: NameRule::Any,
    })
}

/// Reads the settings of a box: `OPENS CLOSES DAYS FROM TO QUOTA FILES MODE RULE`.
pub(crate) fn read_settings(alloc: Global, text: &[u8]) -> Result<Option<BoxRow>, AllocError>
    ensures some { IfFound result (λ row. SpellsSettings text.now (settings_of row)) }
    ensures all { IfOk result (λ found. (words : List (List ℕ)) (b : Settings) → SaysSettings words b
        → AreSettings b → text.now ≡ join_with_byte 32 words → option_map settings_of found ≡ Some b) }
    ensures memory { IfErr result (λ e. HasRuleWord text.now) }
{
    let Some(words) = cut_words(text) else {
        return Ok(None);
    };
    let Some(row) = read_row(&words) else {
        return Ok(None);
    };
    match read_rule(alloc, words.rule)? {
        Some(rule) => Ok(Some(BoxRow { rule, ..row })),
        None => Ok(None),
    }
}
