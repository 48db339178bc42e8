//! The signing key and the signature (Amazon S3 API Reference, "Authenticating Requests: Using Query
//! Parameters", tasks 2 and 3 of the calculation).
ghost use Rattle.std.specs.Prelude.{◌≡◌, ℕ, List, []};
ghost use Rattle.sha2.specs.Sha256.{sha256};
ghost use Rattle.hex.specs.Hex.{encode_lower};
ghost use Rattle.sigtext.specs.CanonicalRequest.{Signed, IsCanonicalRequest, IsTheOnly};
ghost use Rattle.sigtext.specs.Signing.{AreOf};
ghost use Rattle.sigv4.specs.Hashers.{HmacHolds};
ghost use Rattle.sigv4.specs.Hmac.{hmac};
ghost use Rattle.sigv4.specs.Signature.{signing_key, signature_of};
ghost use Rattle.sigv4.specs.Dates.{WritesMoment};
ghost use Rattle.sigv4.specs.Scopes.{scope_of};

use crate::hash::{Hmac, Sha};
use crate::moment::Moment;
use crate::scope::Scope;
use hex::encode_to_slice;
use sigtext::{Parts, canonical_into};

fn keyed(key: &[u8], text: &[u8]) -> [u8; 32]
    ensures { result ≡ hmac key.now text.now }
{
    let mut hmac = Hmac::new(key);
    hmac.update(text);
    hmac.finish()
}

// The SHA-256 of the canonical request. Feeding it to a hasher never fails.
fn canonical_digest(parts: &Parts<'_>) -> [u8; 32]
    ensures { (signed : Signed) → AreOf parts.now signed
        → (text : List ℕ) × IsTheOnly (IsCanonicalRequest signed) text × (result ≡ sha256 text) }
{
    let mut sha = Sha::new();
    match canonical_into(parts, &mut sha) {
        Ok(()) => sha.finish(),
        Err(_) => unreachable!(),
    }
}

// The hexadecimal digits of the digest, in lower case.
fn hex_digits(digest: [u8; 32]) -> [u8; 64]
    ensures { result ≡ encode_lower digest }
{
    let mut digits = [0; 64];
    let _ = encode_to_slice(digest, &mut digits);
    digits
}

/// Derives the signing key from a secret with four HMACs. The first is keyed with `AWS4` followed by the secret, and covers
/// the day. Each of the others is keyed with the result before it. They cover the region, `s3` and `aws4_request`, in this order.
pub fn derive(secret: &[u8], scope: &Scope<'_>) -> [u8; 32]
    ensures { result ≡ signing_key secret.now (scope_of scope.now) }
{
    let mut of_day = Hmac::keyed(b"AWS4", secret);
    of_day.update(scope.date);
    let of_region = keyed(&of_day.finish(), scope.region);
    let of_service = keyed(&of_region, b"s3");
    keyed(&of_service, b"aws4_request")
}

/// Signs the canonical request of the parts. The hasher is for the signing key, and was fed nothing yet. The signature is 64
/// hexadecimal digits in lower case. The request and the string to sign are sent to the hashers piece by piece, and are never
/// held whole.
pub fn sign(mut signed: Hmac, scope: &Scope<'_>, moment: &Moment, parts: &Parts<'_>) -> [u8; 64]
    ensures { (secret : List ℕ) → HmacHolds signed (signing_key secret (scope_of scope.now)) []
        → (request : Signed) → AreOf parts.now request
        → (text : List ℕ) × IsTheOnly (IsCanonicalRequest request) text
        × ((date : List ℕ) → WritesMoment date moment.now
        → result ≡ signature_of secret date (scope_of scope.now) text) }
{
    let digest = hex_digits(canonical_digest(parts));
    signed.update(b"AWS4-HMAC-SHA256\n");
    signed.update(&moment.text());
    signed.update(b"\n");
    signed.update(scope.date);
    signed.update(b"/");
    signed.update(scope.region);
    signed.update(b"/s3/aws4_request\n");
    signed.update(&digest);
    hex_digits(signed.finish())
}

/// Signs the canonical request of the parts under a secret, as [`sign`] does under the secret's signing key.
pub fn signature(secret: &[u8], scope: &Scope<'_>, moment: &Moment, parts: &Parts<'_>) -> [u8; 64]
    ensures { (signed : Signed) → AreOf parts.now signed
        → (text : List ℕ) × IsTheOnly (IsCanonicalRequest signed) text
        × ((date : List ℕ) → WritesMoment date moment.now
        → result ≡ signature_of secret.now date (scope_of scope.now) text) }
{
    sign(Hmac::new(&derive(secret, scope)), scope, moment, parts)
}
