//! A line of the table, and the line that answers it.
use percent_encoding::{AsciiSet, CONTROLS, ascii_set, percent_decode, percent_encode};
use sigtext::{Field, Refusal, TextFault};
use std::alloc::{AllocError, Global};
use std::fmt;

// The ASCII bytes that are percent-encoded. Bytes above ASCII always are.
const ESCAPED: AsciiSet = ascii_set!(CONTROLS.add(b' ').add(b'"').add(b'%'));

// How an empty word is written.
const EMPTY: &str = "\"\"";

/// Why a row has no proper answer.
#[derive(Clone, Copy, PartialEq, Eq)]
pub(crate) enum RowFault {
    /// The row has an unknown call, or a missing or malformed word.
    Malformed,
    /// Memory ran out.
    Memory,
    /// The call returned this refusal.
    Refused(Refusal),
}

impl fmt::Display for RowFault {
    fn fmt<W: fmt::Write>(&self, f: &mut fmt::Formatter<W>) -> fmt::Result {
        match self {
            RowFault::Malformed => write!(f, "malformed row"),
            RowFault::Memory => write!(f, "memory"),
            RowFault::Refused(refusal) => {
                let number = refusal.number();
                write!(f, "refusal {number}")
            }
        }
    }
}

impl From<AllocError> for RowFault {
    fn from(_fault: AllocError) -> RowFault {
        RowFault::Memory
    }
}

impl From<Refusal> for RowFault {
    fn from(refusal: Refusal) -> RowFault {
        RowFault::Refused(refusal)
    }
}

impl From<TextFault> for RowFault {
    fn from(fault: TextFault) -> RowFault {
        RowFault::Refused(fault.refusal())
    }
}

/// The name of a call and its decoded words. In the table each word follows one space. Bytes may be percent-encoded, and an
/// empty word is written `""`.
#[derive(Drop)]
pub(crate) struct Row<'a> {
    pub(crate) call: &'a str,
    words: Vec<Vec<u8>>,
}

impl<'a> Row<'a> {
    pub(crate) fn read(alloc: Global, text: &'a str) -> Result<Row<'a>, AllocError> {
        let (call, rest) = text.split_once(' ').unwrap_or((text, ""));
        let mut words = Vec::new(alloc);
        if !rest.is_empty() {
            for piece in rest.split(' ') {
                words.push(unescaped(alloc, piece)?)?;
            }
        }
        Ok(Row { call, words })
    }

    /// The words.
    pub(crate) fn words(&self) -> &[Vec<u8>] {
        &self.words
    }

    /// The word at this index, counted from 0.
    pub(crate) fn word(&self, at: usize) -> Result<&[u8], RowFault> {
        match self.words.get(at) {
            Some(word) => Ok(word),
            None => Err(RowFault::Malformed),
        }
    }

    /// The decimal number at this index.
    pub(crate) fn number(&self, at: usize) -> Result<u64, RowFault> {
        let Ok(text) = str::from_utf8(self.word(at)?) else {
            return Err(RowFault::Malformed);
        };
        text.parse::<u64>().map_err(|_| RowFault::Malformed)
    }

    /// The words from this index on as fields: a name and a value in turn.
    pub(crate) fn fields(&self, alloc: Global, from: usize) -> Result<Vec<Field<'_>>, RowFault> {
        let mut fields = Vec::new(alloc);
        for pair in self.words.get(from..).unwrap_or_default().chunks(2) {
            let [name, value] = pair else {
                return Err(RowFault::Malformed);
            };
            fields
                .push(Field { name, value })
                .map_err(AllocError::from)?;
        }
        Ok(fields)
    }
}

fn unescaped(alloc: Global, piece: &str) -> Result<Vec<u8>, AllocError> {
    let mut word = Vec::new(alloc);
    if piece != EMPTY {
        percent_decode(piece.as_bytes()).append_to(&mut word)?;
    }
    Ok(word)
}

/// An answer: words, encoded like those of a row.
#[derive(Drop)]
pub(crate) struct Line {
    text: String,
}

impl Line {
    pub(crate) fn new(alloc: Global) -> Line {
        Line {
            text: String::new(alloc),
        }
    }

    /// Appends a word.
    pub(crate) fn put(&mut self, word: &[u8]) -> Result<(), AllocError> {
        if !self.text.is_empty() {
            self.text.push(' ')?;
        }
        if word.is_empty() {
            return self.text.push_str(EMPTY);
        }
        percent_encode(word, ESCAPED).append_to(&mut self.text)
    }

    /// Appends `true` or `false`.
    pub(crate) fn put_bool(&mut self, value: bool) -> Result<(), AllocError> {
        self.put(if value { b"true" } else { b"false" })
    }

    /// Appends a number in decimal digits.
    pub(crate) fn put_number(&mut self, alloc: Global, number: u64) -> Result<(), AllocError> {
        let digits = format!(in alloc; "{number}")?;
        self.put(digits.as_bytes())
    }
}

impl fmt::Display for Line {
    fn fmt<W: fmt::Write>(&self, f: &mut fmt::Formatter<W>) -> fmt::Result {
        f.write_str(&self.text)
    }
}
