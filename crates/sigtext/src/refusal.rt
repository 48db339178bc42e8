//! The refusals: the rule that failed, and the number, status, word and text of its answer.

/// Why a message is refused. Each variant is the rule that failed. They stand in the order of their numbers.
#[derive(Clone, Copy, Debug, PartialEq, Eq)]
pub enum Refusal {
    /// The head, which ends at the first CR LF CR LF, is malformed or has more than 64 fields.
    HeadMalformed,
    /// The head does not end within 8192 bytes.
    HeadTooLong,
    /// The head has a Transfer-Encoding field.
    TransferCoding,
    /// Content-Length occurs twice, or is not 1 to 10 digits.
    LengthMalformed,
    /// Content-Length exceeds the greatest length of a body.
    BodyTooLarge,
    /// The input ended within the body.
    BodyIncomplete,
    /// The method is not PUT, GET, HEAD or POST.
    Method,
    /// The target is malformed.
    Target,
    /// The target has none of the six signing parameters.
    NotSigned,
    /// A parameter occurs twice, one of the six is missing, or another name begins with `X-Amz-`.
    Parameters,
    /// `X-Amz-Algorithm` is not `AWS4-HMAC-SHA256`.
    Algorithm,
    /// `X-Amz-Credential` is malformed, or its day is not that of `X-Amz-Date`.
    Credential,
    /// `X-Amz-Date` is not a moment of the years 1970 to 9999.
    Date,
    /// `X-Amz-Expires` is not 1 to 604800, or has a leading zero.
    Expiry,
    /// `X-Amz-SignedHeaders` is malformed, or lacks `host`.
    SignedHeaders,
    /// `X-Amz-Signature` is not 64 lower-case hexadecimal digits.
    SignatureText,
    /// A signed header is absent, occurs twice, or has a value that may not be signed.
    SignedValues,
    /// The request has an `x-amz-` header that is not signed.
    HeaderNotSigned,
    /// The key is unknown.
    KeyUnknown,
    /// The key is revoked.
    KeyRevoked,
    /// The signature does not match the canonical request.
    SignatureMismatch,
    /// The link is not valid yet.
    NotYetValid,
    /// The link has expired.
    Expired,
    /// A POST with a key that is not a clerk's.
    RoleNotAllowed,
    /// A PUT without Content-Length.
    LengthMissing,
    /// A nonempty body with a method other than PUT.
    BodyNotTaken,
    /// The box does not exist.
    NoSuchBox,
    /// The name is longer than 1024 bytes.
    NameTooLong,
    /// The name is empty, is not plain UTF-8, or breaks the box's naming rule.
    NameNotAllowed,
    /// The box is closed now.
    BoxClosed,
    /// The box keeps its files, and a file of this name has other bytes.
    OtherBytesKept,
    /// The name is new, and the box holds its maximum number of files.
    TooManyFiles,
    /// The box would exceed its quota of bytes.
    QuotaPassed,
    /// The file does not exist.
    NoSuchFile,
    /// The desk command is malformed.
    CommandMalformed,
    /// The desk command cannot be carried out.
    CommandNotPossible,
    /// No memory could be had, or the keeper counted a fault.
    TryAgain,
}

// The status, the error code and the text of each refusal, in the order of the refusals.
static ROWS: [(u16, &str, &str); 37] = [
    (400, "InvalidRequest", "the head is not a request head"),
    (400, "InvalidRequest", "the head is too long"),
    (501, "NotImplemented", "transfer codings are not served"),
    (400, "InvalidRequest", "Content-Length is malformed"),
    (400, "EntityTooLarge", "the body is too large"),
    (400, "IncompleteBody", "the input ended in the body"),
    (405, "MethodNotAllowed", "the method is not served"),
    (400, "InvalidURI", "the target is malformed"),
    (403, "AccessDenied", "the request is not signed"),
    (
        400,
        "AuthorizationQueryParametersError",
        "the signing parameters are not the six",
    ),
    (
        400,
        "AuthorizationQueryParametersError",
        "the algorithm is not AWS4-HMAC-SHA256",
    ),
    (
        400,
        "AuthorizationQueryParametersError",
        "the credential is malformed",
    ),
    (
        400,
        "AuthorizationQueryParametersError",
        "the date is malformed",
    ),
    (
        400,
        "AuthorizationQueryParametersError",
        "the expiry is not 1 to 604800 seconds",
    ),
    (
        400,
        "AuthorizationQueryParametersError",
        "the signed headers are malformed",
    ),
    (
        400,
        "AuthorizationQueryParametersError",
        "the signature is not 64 lower-case hexadecimal digits",
    ),
    (
        400,
        "InvalidRequest",
        "a signed header is absent, doubled or unfit",
    ),
    (403, "AccessDenied", "an x-amz- header is not signed"),
    (403, "InvalidAccessKeyId", "the key is unknown"),
    (403, "InvalidAccessKeyId", "the key is revoked"),
    (403, "SignatureDoesNotMatch", "the signature does not match"),
    (403, "AccessDenied", "the link is not valid yet"),
    (403, "AccessDenied", "the link has expired"),
    (403, "AccessDenied", "the key may not do this"),
    (411, "MissingContentLength", "Content-Length is missing"),
    (400, "InvalidRequest", "a body is not taken here"),
    (404, "NoSuchBucket", "no such box"),
    (400, "KeyTooLongError", "the name is too long"),
    (400, "InvalidArgument", "the name is not allowed"),
    (403, "AccessDenied", "the box is closed"),
    (
        412,
        "PreconditionFailed",
        "other bytes are kept under this name",
    ),
    (
        403,
        "AccessDenied",
        "the box has its greatest number of files",
    ),
    (403, "AccessDenied", "the box's quota would be passed"),
    (404, "NoSuchKey", "no such file"),
    (400, "InvalidArgument", "the desk command is malformed"),
    (400, "InvalidArgument", "the desk command is not possible"),
    (500, "InternalError", "try again"),
];

impl Refusal {
    ghost use Rattle.std.specs.Prelude.{◌≡◌};
    ghost use Rattle.sigtext.specs.Refusals.{number_of, status_of, word_of, text_of};

    /// The number of the rule: 1 to 36, or 40.
    pub fn number(self) -> u8
        ensures { result ≡ number_of self }
    {
        match self {
            Refusal::TryAgain => 40,
            rule => rule as u8 + 1,
        }
    }

    /// The status of the answer (RFC 9110, section 15): 400 to 501.
    pub fn status(self) -> u16
        ensures { result ≡ status_of self }
    {
        ROWS[self as usize].0
    }

    /// The error code at the beginning of the body, such as `AccessDenied`.
    pub fn word(self) -> &'static str
        ensures { result.now ≡ word_of self }
    {
        ROWS[self as usize].1
    }

    /// The text at the end of the body.
    pub fn text(self) -> &'static str
        ensures { result.now ≡ text_of self }
    {
        ROWS[self as usize].2
    }
}
