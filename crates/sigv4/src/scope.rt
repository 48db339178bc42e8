//! Credential scopes.
ghost use Rattle.std.specs.Prelude.{◌≡◌, ◌≢◌, ◌↔◌, ℕ, List, ◌∷◌, ◌++◌, length, IsTrue, IfSome, IfNone, IfOk, IfErr};
ghost use Rattle.std.specs.List.{All, list_all};
ghost use Rattle.std.specs.Char.{is_ascii_digit};
ghost use Rattle.sigtext.specs.Bytes.{begins_with};
ghost use Rattle.sigv4.specs.Signature.{CredentialScope, scope_text};
ghost use Rattle.sigv4.specs.Credential.{is_key_byte, is_region_byte, IsKeyId, IsRegion, IsSecret, IsCredential};
ghost use Rattle.sigv4.specs.Scopes.{scope_of};

use sigtext::{Refusal, are_digits, cut, is_visible, is_word};

/// A credential: the key id, and the parts of its scope that are not fixed.
#[derive(Clone, Copy)]
pub struct Scope<'a> {
    /// 1 to 64 bytes of `A-Z a-z 0-9 - _`.
    pub key_id: &'a [u8],
    /// The day, `yyyyMMdd`.
    pub date: &'a [u8],
    /// 1 to 32 bytes of `a-z 0-9 -`.
    pub region: &'a [u8],
}

fn is_key_byte(byte: u8) -> bool
    ensures { result ≡ is_key_byte byte }
{
    byte.is_ascii_alphanumeric() || matches!(byte, b'-' | b'_')
}

/// Whether the text has the form of a key id: 1 to 64 bytes of `A-Z a-z 0-9 - _`.
pub fn is_key_id(text: &[u8]) -> bool
    ensures { IsTrue result ↔ IsKeyId text.now }
{
    is_word(text, 64, is_key_byte)
}

/// Whether the text has the form of a key's secret: 1 to 128 bytes 0x21 to 0x7E.
pub fn is_secret(text: &[u8]) -> bool
    ensures { IsTrue result ↔ IsSecret text.now }
{
    is_word(text, 128, is_visible)
}

fn is_region_byte(byte: u8) -> bool
    ensures { result ≡ is_region_byte byte }
{
    byte.is_ascii_lowercase() || byte.is_ascii_digit() || byte == b'-'
}

/// Whether the text has the form of a region: 1 to 32 bytes of `a-z 0-9 -`.
pub fn is_region(text: &[u8]) -> bool
    ensures { IsTrue result ↔ IsRegion text.now }
{
    is_word(text, 32, is_region_byte)
}

// Whether the day is eight digits and the date begins with it.
fn is_day_of(day: &[u8], date: &[u8]) -> bool
    ensures { IsTrue result
        ↔ ((length day.now ≡ 8) × IsTrue (list_all is_ascii_digit day.now)
        × IsTrue (begins_with date.now day.now)) }
{
    day.len() == 8 && are_digits(day, 8) && date.starts_with(day)
}

// Splits a credential into its parts, whatever their forms.
fn parts(credential: &[u8]) -> Option<Scope<'_>>
    ensures found { IfSome result
        (λ s. (credential.now ≡ s.key_id.now ++ 47 ∷ scope_text (scope_of s))
        × All (λ b. b ≢ 47) s.key_id.now × All (λ b. b ≢ 47) s.date.now) }
    ensures absent { IfNone result
        ((key_id : List ℕ) (scope : CredentialScope) → All (λ b. b ≢ 47) key_id
        → All (λ b. b ≢ 47) scope.date → credential.now ≡ key_id ++ 47 ∷ scope_text scope → ⊥) }
{
    let front = credential.strip_suffix(b"/s3/aws4_request")?;
    let (key_id, rest) = cut(front, b'/')?;
    let (date, region) = cut(rest, b'/')?;
    Some(Scope {
        key_id,
        date,
        region,
    })
}

// Whether each part has its form, and the date begins with the day.
fn is_well_formed(scope: &Scope<'_>, date: &[u8]) -> bool
    ensures { IsTrue result
        ↔ (IsKeyId scope.now.key_id.now
        × ((length scope.now.date.now ≡ 8) × IsTrue (list_all is_ascii_digit scope.now.date.now)
        × IsTrue (begins_with date.now scope.now.date.now)) × IsRegion scope.now.region.now) }
{
    is_key_id(scope.key_id) && is_day_of(scope.date, date) && is_region(scope.region)
}

impl<'a> Scope<'a> {
    /// Reads `<key id>/<yyyyMMdd>/<region>/s3/aws4_request`, the value of `X-Amz-Credential` (Amazon
    /// S3 API Reference, "Authenticating Requests: Using Query Parameters"). Its day must be the
    /// first eight bytes of `date`, the value of `X-Amz-Date`.
    ///
    /// # Errors
    ///
    /// `Refusal::Credential` if the credential has another form or another day.
    pub fn read(credential: &'a [u8], date: &[u8]) -> Result<Scope<'a>, Refusal>
        ensures ok { IfOk result
            (λ s. IsCredential credential.now date.now s.key_id.now (scope_of s)) }
        ensures err { IfErr result
            (λ r. (r ≡ Refusal.Credential)
            × ((key_id : List ℕ) (scope : CredentialScope)
            → IsCredential credential.now date.now key_id scope → ⊥)) }
    {
        let Some(scope) = parts(credential) else {
            return Err(Refusal::Credential);
        };
        if is_well_formed(&scope, date) {
            Ok(scope)
        } else {
            Err(Refusal::Credential)
        }
    }
}
