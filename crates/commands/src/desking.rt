//! `drop desk`: runs one desk command.
ghost use Rattle.std.specs.Prelude.{IfOk, IsOk, option_map};
ghost use Rattle.commands.specs.Obeying.{IsCommandOf, IsGiven, done_line};
ghost use Rattle.commands.specs.Saying.{Says};
ghost use Rattle.commands.specs.Working.{Passes};

use crate::faults::Fault;
use crate::work::{Done, OfficeWork, say};
use boxes::{Keeper, Rolls};
use office::{DeskFault, Office};
use std::alloc::Global;
use std::io::{Error, ErrorKind, Read, Write};
use tasks::read_line;

/// The most bytes of a command read from input.
const LONGEST_COMMAND: u16 = 4096;

/// A desk command, and the output, which gets the line `done`.
#[derive(Drop)]
pub struct DeskWork<W: Drop> {
    /// The command. `None` if the input is not a single line of at most 4096 bytes.
    pub command: Option<Vec<u8>>,
    /// The output.
    pub out: W,
}

impl<W: Write + Drop> OfficeWork for DeskWork<W> {
    ghost use Rattle.std.specs.Prelude.{IsOk, option_map};
    ghost use Rattle.commands.specs.Obeying.{TellsLine};
    ghost use Rattle.commands.specs.Saying.{HandsBack};

    type Gain = Done<W>;

    ghost step = { λ work gain. TellsLine W.contents (option_map (λ line. line.items) work.command)
        (IsOk gain.result) work.out gain.out };

    ghost idle = { λ work gain. HandsBack (IsOk gain.result) work.out gain.out };

    fn run<K: Rolls>(self, rt: &HostRuntime, keeper: K) -> (Done<W>, K) {
        let DeskWork { command, out } = self;
        let mut office = Office::new(rt.alloc(), keeper);
        let obeyed = obey(&mut office, command);
        (tell(obeyed, out), office.keeper)
    }

    fn refuse(self, fault: Fault) -> Done<W> {
        Done {
            result: Err(fault),
            out: Some(self.out),
        }
    }
}

// Does what the line says.
fn obey<K: Keeper>(office: &mut Office<K>, command: Option<Vec<u8>>) -> Result<(), Fault>
    ensures { Passes K.Keeper office.old.keeper office.new.keeper
        (IsGiven (option_map (λ line. line.items) command) (IsOk result)) }
{
    let Some(line) = command else {
        return Err(Fault::Desk(DeskFault::Malformed));
    };
    match office.desk(line.as_slice()) {
        Ok(()) => Ok(()),
        Err(fault) => Err(Fault::from(fault)),
    }
}

/// Says that the command was done, if it was.
pub fn tell<W: Write + Drop>(obeyed: Result<(), Fault>, mut out: W) -> Done<W>
    ensures said { Says W.contents done_line (IsOk result.result) out result.out }
    ensures done { IsOk result.result → IsOk obeyed }
{
    let told = match obeyed {
        Ok(()) => say(&mut out, b"done\n"),
        Err(fault) => Err(fault),
    };
    Done {
        result: told,
        out: Some(out),
    }
}

/// The command: the argument itself, or for `-` the only line of the input, of at most 4096 bytes. `None` if the input has no
/// line, more than one, or too long a line.
///
/// # Errors
///
/// The input could not be read, or memory was refused.
pub fn read_command<R: Read + Drop>(
    alloc: Global,
    line: &str,
    input: R,
) -> Result<Option<Vec<u8>>, Fault>
    ensures { IfOk result (λ command. IsCommandOf (R.remaining input) line.now
        (option_map (λ line. line.items) command)) }
{
    if line != "-" {
        return Ok(Some(Vec::from_slice(alloc, line.as_bytes())?));
    }
    match read_line(alloc, input, LONGEST_COMMAND) {
        Ok(command) => Ok(command),
        Err(error) => Err(unread(error)),
    }
}

// Why the command could not be read.
fn unread(error: Error) -> Fault {
    match error.kind() {
        ErrorKind::OutOfMemory => Fault::OutOfMemory,
        _ => Fault::CannotReadCommand,
    }
}
