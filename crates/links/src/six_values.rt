//! The values of the six signing parameters, decoded.
ghost use Rattle.std.specs.Prelude.{◌≤◌, length};

use crate::six::RawSix;
use percent_encoding::percent_decode;
use std::alloc::{AllocError, Global};

/// The decoded values of the six signing parameters, one after another in one buffer: algorithm, credential, date, expiry,
/// names of the signed headers, signature. The signature extends to the end of the buffer.
#[derive(Drop)]
pub(crate) struct SixValues {
    bytes: Vec<u8>,
    algorithm_end: usize,
    credential_end: usize,
    date_end: usize,
    expires_end: usize,
    names_end: usize,
    ghost credential_fits: { algorithm_end ≤ credential_end },
    ghost date_fits: { credential_end ≤ date_end },
    ghost expires_fits: { date_end ≤ expires_end },
    ghost names_fit: { expires_end ≤ names_end },
    ghost signature_fits: { names_end ≤ length bytes.items },
}

impl SixValues {
    ghost use Rattle.std.specs.Prelude.{◌≡◌, List, IfOk};
    ghost use Rattle.sigtext.specs.Target.{Param};
    ghost use Rattle.links.specs.SixValues.{AreRawSix, AreSixOf, texts_of};

    /// Decodes the raw values. It requests memory once.
    pub(crate) fn decode(alloc: Global, raw: RawSix<'_>) -> Result<SixValues, AllocError>
        ensures { IfOk result (λ six. (ps : List Param) → AreRawSix raw.entry ps
            → AreSixOf (texts_of six) ps) }
    {
        let mut bytes = Vec::with_capacity(alloc, raw.len())?;
        percent_decode(raw.algorithm).append_to(&mut bytes)?;
        let algorithm_end = bytes.len();
        percent_decode(raw.credential).append_to(&mut bytes)?;
        let credential_end = bytes.len();
        percent_decode(raw.date).append_to(&mut bytes)?;
        let date_end = bytes.len();
        percent_decode(raw.expires).append_to(&mut bytes)?;
        let expires_end = bytes.len();
        percent_decode(raw.names).append_to(&mut bytes)?;
        let names_end = bytes.len();
        percent_decode(raw.signature).append_to(&mut bytes)?;
        Ok(SixValues {
            bytes,
            algorithm_end,
            credential_end,
            date_end,
            expires_end,
            names_end,
        })
    }

    pub(crate) fn algorithm(&self) -> &[u8]
        ensures { result.now ≡ (texts_of self.now).algorithm }
    {
        &self.bytes[..self.algorithm_end]
    }

    pub(crate) fn credential(&self) -> &[u8]
        ensures { result.now ≡ (texts_of self.now).credential }
    {
        &self.bytes[self.algorithm_end..self.credential_end]
    }

    pub(crate) fn date(&self) -> &[u8]
        ensures { result.now ≡ (texts_of self.now).date }
    {
        &self.bytes[self.credential_end..self.date_end]
    }

    pub(crate) fn expires(&self) -> &[u8]
        ensures { result.now ≡ (texts_of self.now).expires }
    {
        &self.bytes[self.date_end..self.expires_end]
    }

    pub(crate) fn names(&self) -> &[u8]
        ensures { result.now ≡ (texts_of self.now).names }
    {
        &self.bytes[self.expires_end..self.names_end]
    }

    pub(crate) fn signature(&self) -> &[u8]
        ensures { result.now ≡ (texts_of self.now).signature }
    {
        &self.bytes[self.names_end..]
    }
}
