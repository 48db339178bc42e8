//! The expected answers to uploads and fetches. The digests come from Python's `hashlib`.

pub const NO_SIGNATURE: &[u8] =
    b"HTTP/1.1 403 Forbidden\r\nContent-Type: text/plain\r\nContent-Length: 54\r\n\r\nSignatureDoesNotMatch 21 the signature does not match\n";

pub const DONE: &[u8] =
    b"HTTP/1.1 200 OK\r\nContent-Type: text/plain\r\nContent-Length: 5\r\n\r\ndone\n";

pub const NO_WHOLE_BODY: &[u8] =
    b"HTTP/1.1 400 Bad Request\r\nContent-Type: text/plain\r\nContent-Length: 45\r\nConnection: close\r\n\r\nIncompleteBody 6 the input ended in the body\n";

pub const PAST_QUOTA: &[u8] =
    b"HTTP/1.1 403 Forbidden\r\nContent-Type: text/plain\r\nContent-Length: 48\r\n\r\nAccessDenied 33 the box's quota would be passed\n";

pub const FIRST_ABC: &[u8] =
    b"HTTP/1.1 200 OK\r\nContent-Type: text/plain\r\nContent-Length: 77\r\n\r\nreceipt 1 3 ba7816bf8f01cfea414140de5dae2223b00361a396177a9cb410ff61f20015ad\n";

pub const SECOND_X: &[u8] =
    b"HTTP/1.1 200 OK\r\nContent-Type: text/plain\r\nContent-Length: 77\r\n\r\nreceipt 2 1 2d711642b726b04401627ca9fbac32f5c8530fb1903cc4db02258717921a4881\n";

pub const SECOND_ABD: &[u8] =
    b"HTTP/1.1 200 OK\r\nContent-Type: text/plain\r\nContent-Length: 77\r\n\r\nreceipt 2 3 a52d159f262b2c6ddb724a61840befc36eb30c88877a4030b65cbe86298449c9\n";

pub const FOUND_ABC: &[u8] =
    b"HTTP/1.1 200 OK\r\nContent-Type: application/octet-stream\r\nContent-Length: 3\r\nX-Drop-Receipt: 1\r\nX-Drop-Sha256: ba7816bf8f01cfea414140de5dae2223b00361a396177a9cb410ff61f20015ad\r\n\r\nabc";
