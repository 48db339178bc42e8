//! Secrets in files of their own.
ghost use Rattle.std.specs.Prelude.{IfOk, IsOk};
ghost use Rattle.sigv4.specs.Credential.{IsSecret};

use crate::arguments::Argument;
use crate::faults::Fault;
use sigv4::is_secret;
use std::fs;
use std::io::{Error, ErrorKind};
use tasks::read_line;

/// The most bytes of a secret.
const LONGEST_SECRET: u16 = 128;

/// Fails if this is not a secret.
pub fn check_secret(secret: &[u8]) -> Result<(), Fault>
    ensures { IsOk result → IsSecret secret.now }
{
    if is_secret(secret) {
        Ok(())
    } else {
        Err(Fault::MalformedValue(Argument::Secret))
    }
}

/// The secret in a file. It must be the only line.
pub fn read_secret_file(rt: &HostRuntime, name: &str) -> Result<Vec<u8>, Fault>
    ensures { IfOk result (λ secret. IsSecret secret.items) }
{
    let file = match fs::open(rt, name) {
        Ok(file) => file,
        Err(error) => return Err(unread(error)),
    };
    let line = match read_line(rt.alloc(), file, LONGEST_SECRET) {
        Ok(Some(line)) => line,
        Ok(None) => return Err(Fault::MalformedValue(Argument::Secret)),
        Err(error) => return Err(unread(error)),
    };
    check_secret(line.as_slice())?;
    Ok(line)
}

// Why the file with the secret could not be read.
fn unread(error: Error) -> Fault {
    match error.kind() {
        ErrorKind::OutOfMemory => Fault::OutOfMemory,
        _ => Fault::CannotReadSecret,
    }
}
