//! The texts of a presigned request: refusals, escapes, targets, signed headers and the canonical request.
#![tactic(auto)]

pub mod canonical;
pub mod digits;
pub mod encode;
pub mod escapes;
pub mod field;
pub mod fields;
pub mod laws;
pub mod limits;
pub mod names;
pub mod params;
pub mod refusal;
mod sending;
pub mod sink;
pub mod target;
pub mod values;
pub mod words;

pub use canonical::{Parts, canonical_into};
pub use digits::{are_digits, read_digits};
pub use encode::{Slash, uri_encode};
pub use escapes::decodes_to;
pub use field::Field;
pub use fields::{is_fit_value, only_field, trim_blanks};
pub use laws::law_text;
pub use limits::MOST_BODY;
pub use names::{SignedNames, is_header_name};
pub use params::Params;
pub use refusal::Refusal;
pub use sink::ByteSink;
pub use target::{Pairs, RawParam, Target, TextFault, cut};
pub use values::{Values, signed_values};
pub use words::{is_visible, is_word};
