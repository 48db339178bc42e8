//! The program's command line, as clap reads it.
ghost use Rattle.std.specs.Prelude.{◌≡◌, IfOk, false};
ghost use Rattle.clap.specs.Words.{App, app_of, new_app, rule_of, with_subcommand};
ghost use Rattle.tasks.specs.Building.{IsLocal, app_in, lined, rule_in, valued};
ghost use Rattle.tasks.specs.Tasks.{bare_app, drop_app, init_app};

use clap::builder::ValueParser;
use clap::{Arg, Command};
use std::alloc::{AllocError, Global};

// A command without its commands below: its name, what it is about, a text for its help, and its arguments in order.
struct Form {
    name: &'static str,
    about: &'static str,
    text: Text,
    arguments: &'static [Argument],
}

// A text that the help of a command has beside the usual ones.
enum Text {
    // None.
    Nothing,
    // The usage line, in place of the one that clap makes.
    Usage(&'static str),
    // A text after the help.
    After(&'static str),
}

// An argument: its id, the name that the help shows for its value, its help, whether it must be given, and its form.
struct Argument {
    id: &'static str,
    value: &'static str,
    help: &'static str,
    required: bool,
    given: Given,
}

// How an argument is given.
#[derive(Clone, Copy)]
enum Given {
    // A positional value.
    Word,
    // One or more positional values.
    Words,
    // `--id VALUE`.
    Option(Value),
}

// The value of an option.
#[derive(Clone, Copy)]
enum Value {
    // Any text.
    Text,
    // A whole number within these bounds.
    Number(u64, u64),
    // The same, with a default.
    Defaulted(u64, u64, &'static str),
}

// The version of the program.
const VERSION: &str = "1.0.0";

// The usage line of `init`. It shows that one of the two secrets is required, which clap can't express.
const INIT_USAGE: &str =
    "drop init [OPTIONS] --clerk <ID> <--secret <SECRET>|--secret-file <SECRETFILE>> <FILE>";

// The help on FILE for `link` and `links`.
const SIGNER: &str =
    "The office file, or key:SECRETFILE to sign with the secret in SECRETFILE without opening an office";

// The text after the help of `desk`: the forms of its commands, with examples.
const DESK_FORMS: &str = "\
The commands. Words are separated by single spaces. Put each command in quotes, so that it is one LINE:

  key add ID ROLE SECRET
      Adds a key. An id can't be used twice, even after its key is revoked.
        ID             1 to 64 of A-Z a-z 0-9 - _
        ROLE           clerk (desk and files) or link (files only)
        SECRET         1 to 128 visible ASCII characters without spaces
      Example: key add tender-2 link 3kQz7mWx0PbT

  key revoke ID
      Revokes a key for good. Its links are refused from then on. The last clerk's key can't be revoked.
      Example: key revoke tender-2

  box add NAME OPENS CLOSES DAYS FROM TO QUOTA FILES MODE RULE
      Adds a box. All values are required, in this order. Numbers have no leading zeros.
        NAME           1 to 63 of a-z 0-9 - .
        OPENS, CLOSES  when uploads begin and end, in UTC: 20261201T080000Z
        DAYS           a digit for each weekday from Monday, 1 open, 0 closed: 1111100 is Monday to Friday
        FROM, TO       its hours on an open day, by the office's clock: 0000 to 2400, FROM before TO, as 0800 1800
        QUOTA          the most bytes it holds, 0 to 1000000000000
        FILES          the most files it holds, 0 to 1000000
        MODE           keep (a file stays as it is) or replace (an upload replaces the file of its name)
        RULE           the names it accepts. any: all names. ends .pdf,.zip: names with one of these endings (1 to 8
                       endings of 1 to 32 bytes). begins offer-: names with this beginning (1 to 64 bytes).
                       Endings and beginnings have no commas or spaces, and A and a differ
      Example: box add roadworks 20261201T080000Z 20261215T110000Z 1111100 0800 1800 1000000000 500 keep ends .pdf,.zip

  box close NAME MOMENT
      Sets the end of uploads to a box, in UTC. It may be earlier or later than before.
      Example: box close roadworks 20261210T110000Z

  file drop BOX NAME
      Removes a file from a box. Its receipt is kept. NAME may contain spaces.
      Example: file drop roadworks plan 2.pdf

  key limit ID BOX
      Limits a key of role link to a box. Each further such command adds a box. Links of the key to any other box
      are refused. A limit can't be removed: add another key instead.
      Example: key limit tender-2 roadworks

  office allow SECONDS
      Sets how many seconds before its start a link is accepted, 0 to 900, for senders whose clocks are fast.
      Example: office allow 60

For an office file called office:
  drop desk office 'key revoke tender-2'

Other users of this machine can see the command while it runs, including a secret. With - as LINE it is read from
standard input, which must hold exactly one line:
  drop desk office - <line";

// The text after the help of `links`: the rows that it reads and writes.
const LINK_ROWS: &str = "\
The list is CSV. Its first row is the head, and each row below asks for one link:

  method,box,name,start,expires
  PUT,roadworks,offer.pdf,20261201T080000Z,604800

  method   PUT to upload, GET or HEAD to fetch
  box      the box's name. The box need not exist yet
  name     the file's name: 1 to 1024 bytes without control characters
  start    when the link becomes valid, in UTC. An office with an allowance accepts it that much earlier
  expires  how many seconds it is valid: 1 to 604800 (one week)

The output repeats each row with its link in a last column, link. A malformed row ends the list. The error names the
row by its number, counted from 1 below the head. The rows before it are written.

For an office file called office:
  drop links office --key tender-2 --host files.example --region us-east-1 <asked.csv >links.csv";

// The text after the help of `manifest`: the rows that it writes.
const RECEIPT_ROWS: &str = "\
The list is CSV. Its first row is the head, and each row below is one receipt, from receipt 1 on:

  receipt,box,name,length,sha256,moment,key

  receipt  the receipt's number
  box      the box that the file was uploaded to
  name     the file's name
  length   how many bytes the file had
  sha256   the SHA-256 of its bytes, in hexadecimal digits
  moment   when it was uploaded, in UTC: 20261203T101500Z
  key      the id of the key that signed its link

A receipt is kept even if its file is replaced or removed. drop compare tells which files are still there.

For an office file called office:
  drop manifest office >manifest.csv";

// The text after the help of `compare`: the rows that it writes.
const STATE_ROWS: &str = "\
The input is a manifest that drop manifest wrote. The output is CSV, one row for each of its rows, in order:

  receipt,box,name,state

  standing  the file of this receipt is in its box, with the row's length and SHA-256
  differs   it is in its box, with another length or SHA-256
  gone      the box has no such file, or one with another receipt

The files are read and hashed again. A malformed row ends the list. The error names the row by its number, counted from
1 below the head. The rows before it are answered.

For an office file called office:
  drop compare office <manifest.csv";

// The text after the help of `list`: the rows that it writes.
const LISTED_ROWS: &str = "\
The list is CSV. Its first row is the head. Rows are ordered by id, by box, or by box and name.

keys: one row for each key, including revoked ones. Secrets are never written.
  key,role,revoked,boxes
  boxes    the boxes that the key is limited to, separated by spaces; empty if it may use every box

boxes: one row for each box.
  box,opens,closes,days,from,to,quota,files,mode,rule,used,count
  quota, files  the most bytes and the most files that it may hold
  used, count   the bytes and the files that it holds

files: one row for each file in a box.
  box,name,length,sha256,receipt,moment,key
  receipt  the number of its receipt
  moment   when it was uploaded, in UTC: 20261203T101500Z
  key      the id of the key that signed its link

For an office file called office:
  drop list office boxes >boxes.csv";

// The text after the help of `export`: the files that it makes.
const EXPORTED: &str = "\
Creates DIR, which must not exist. Each file is DIR/BOX/NUMBER-NAME. NUMBER is the number of its receipt. NAME is the
last part of its name; underscores replace characters that some file systems don't allow. Two lists are beside the boxes:

  files.csv   box, name, receipt, length, SHA-256, moment and key of each path:
              path,box,name,receipt,length,sha256,moment,key
  SHA256SUMS  the SHA-256 of each path. In DIR, sha256sum --check SHA256SUMS checks them all

For an office file called office:
  drop export office files";

// The text after the help of `migrate`: what to do before it.
const UPGRADE: &str = "\
Stop the server and copy the file first. All keys, boxes, files and receipts are kept. The file is migrated completely or
not at all. If a migration was interrupted, run it again.

For an office file called office:
  drop migrate office";

// The argument of a command on an office file.
const OFFICE_FILE: Argument = Argument {
    id: "file",
    value: "FILE",
    help: "The office file",
    required: true,
    given: Given::Word,
};

// The argument of a command that signs.
const SIGNING_FILE: Argument = Argument {
    id: "file",
    value: "FILE",
    help: SIGNER,
    required: true,
    given: Given::Word,
};

// `--key ID`.
const KEY: Argument = Argument {
    id: "key",
    value: "ID",
    help: "The id of the key that signs",
    required: true,
    given: Given::Option(Value::Text),
};

// `--host H`.
const HOST: Argument = Argument {
    id: "host",
    value: "H",
    help: "The host that the link names: files.example, or files.example:8080",
    required: true,
    given: Given::Option(Value::Text),
};

// `--region R`.
const REGION: Argument = Argument {
    id: "region",
    value: "R",
    help: "The region that the link names: us-east-1",
    required: true,
    given: Given::Option(Value::Text),
};

// `init FILE --clerk ID --secret SECRET --secret-file SECRETFILE --east M --west M --allowance N`. clap does
// not know that exactly one of the two secrets is required.
static INIT: Form = Form {
    name: "init",
    about: "Makes an office file with one clerk's key and no boxes",
    text: Text::Usage(INIT_USAGE),
    arguments: &[
        Argument {
            id: "file",
            value: "FILE",
            help: "The office file to make. It must not exist, or be empty",
            required: true,
            given: Given::Word,
        },
        Argument {
            id: "clerk",
            value: "ID",
            help: "The id of the clerk's key: 1 to 64 of A-Z a-z 0-9 - _",
            required: true,
            given: Given::Option(Value::Text),
        },
        Argument {
            id: "secret",
            value: "SECRET",
            help: "The key's secret: 1 to 128 visible ASCII characters without spaces",
            required: false,
            given: Given::Option(Value::Text),
        },
        Argument {
            id: "secret-file",
            value: "SECRETFILE",
            help: "A file that holds the secret as its only line, so that the command line does not show it",
            required: false,
            given: Given::Option(Value::Text),
        },
        Argument {
            id: "east",
            value: "M",
            help: "How many minutes the office's clock is ahead of UTC: 0 to 840",
            required: false,
            given: Given::Option(Value::Defaulted(0, 840, "0")),
        },
        Argument {
            id: "west",
            value: "M",
            help: "How many minutes it is behind UTC: 0 to 840",
            required: false,
            given: Given::Option(Value::Defaulted(0, 840, "0")),
        },
        Argument {
            id: "allowance",
            value: "N",
            help: "How many seconds before its start a link is accepted: 0 to 900",
            required: false,
            given: Given::Option(Value::Defaulted(0, 900, "0")),
        },
    ],
};

// `desk FILE LINE`.
static DESK: Form = Form {
    name: "desk",
    about: "Runs one command of the desk, on a key, a box, a file or the office",
    text: Text::After(DESK_FORMS),
    arguments: &[
        OFFICE_FILE,
        Argument {
            id: "line",
            value: "LINE",
            help: "One command of the desk in quotes, or - to read it from standard input",
            required: true,
            given: Given::Word,
        },
    ],
};

// `link FILE METHOD TARGET --key ID --host H --region R --start MOMENT --expires N`.
static LINK: Form = Form {
    name: "link",
    about: "Writes a link to a file of an office, or to its desk, signed by a key",
    text: Text::Nothing,
    arguments: &[
        SIGNING_FILE,
        Argument {
            id: "method",
            value: "METHOD",
            help: "PUT to upload, GET or HEAD to fetch, POST for a desk command",
            required: true,
            given: Given::Word,
        },
        Argument {
            id: "target",
            value: "TARGET",
            help: "The box and the file's name: box/name. For POST the desk command",
            required: true,
            given: Given::Word,
        },
        KEY,
        HOST,
        REGION,
        Argument {
            id: "start",
            value: "MOMENT",
            help: "When the link becomes valid, in UTC: 20130524T000000Z. An office with an allowance accepts it that much earlier",
            required: true,
            given: Given::Option(Value::Text),
        },
        Argument {
            id: "expires",
            value: "N",
            help: "How many seconds the link is valid: 1 to 604800 (one week)",
            required: true,
            given: Given::Option(Value::Number(1, 604_800)),
        },
    ],
};

// `links FILE --key ID --host H --region R`.
static LINKS: Form = Form {
    name: "links",
    about: "Reads a list of wanted links and writes it with the signed links",
    text: Text::After(LINK_ROWS),
    arguments: &[SIGNING_FILE, KEY, HOST, REGION],
};

// `manifest FILE`.
static MANIFEST: Form = Form {
    name: "manifest",
    about: "Writes the receipts of an office as a list",
    text: Text::After(RECEIPT_ROWS),
    arguments: &[OFFICE_FILE],
};

// `compare FILE`.
static COMPARE: Form = Form {
    name: "compare",
    about: "Reads a manifest and tells for each receipt whether its file is still there",
    text: Text::After(STATE_ROWS),
    arguments: &[OFFICE_FILE],
};

// `list FILE WHAT`.
static LIST: Form = Form {
    name: "list",
    about: "Lists the keys, the boxes or the files of an office",
    text: Text::After(LISTED_ROWS),
    arguments: &[
        OFFICE_FILE,
        Argument {
            id: "what",
            value: "WHAT",
            help: "What to list: keys, boxes or files",
            required: true,
            given: Given::Word,
        },
    ],
};

// `export FILE DIR --box NAME`.
static EXPORT: Form = Form {
    name: "export",
    about: "Writes the files of an office to a folder, with lists of them",
    text: Text::After(EXPORTED),
    arguments: &[
        OFFICE_FILE,
        Argument {
            id: "dir",
            value: "DIR",
            help: "The folder to make",
            required: true,
            given: Given::Word,
        },
        Argument {
            id: "box",
            value: "NAME",
            help: "Writes only the files of this box",
            required: false,
            given: Given::Option(Value::Text),
        },
    ],
};

// `replay FILE STREAM.. --at MOMENT`.
static REPLAY: Form = Form {
    name: "replay",
    about: "Answers recorded connections, one after another, and prints the answers",
    text: Text::Nothing,
    arguments: &[
        Argument {
            id: "file",
            value: "FILE",
            help: "The office file. memory:ID/SECRET makes an empty office for this run, with one clerk's key",
            required: true,
            given: Given::Word,
        },
        Argument {
            id: "stream",
            value: "STREAM",
            help: "The files with the bytes that each caller sent",
            required: true,
            given: Given::Words,
        },
        Argument {
            id: "at",
            value: "MOMENT",
            help: "The time to answer at, in UTC: 20130524T000000Z is 24 May 2013, 00:00:00",
            required: true,
            given: Given::Option(Value::Text),
        },
    ],
};

// `serve FILE --listen ADDR --connections N --patience SECONDS --open N --room MB --manifest OUT`.
static SERVE: Form = Form {
    name: "serve",
    about: "Serves an office over HTTP until the given number of connections have ended",
    text: Text::Nothing,
    arguments: &[
        OFFICE_FILE,
        Argument {
            id: "listen",
            value: "ADDR",
            help: "The address to listen on: 127.0.0.1:8080, or 0.0.0.0:8080 for all addresses of this machine",
            required: true,
            given: Given::Option(Value::Text),
        },
        Argument {
            id: "connections",
            value: "N",
            help: "How many connections are served before the program ends: 1 to 1000000",
            required: true,
            given: Given::Option(Value::Number(1, 1_000_000)),
        },
        Argument {
            id: "patience",
            value: "SECONDS",
            help: "How many seconds to wait for a peer: 0 to 3600; 0 is without limit",
            required: false,
            given: Given::Option(Value::Defaulted(0, 3600, "30")),
        },
        Argument {
            id: "open",
            value: "N",
            help: "How many connections may be open at a time: 1 to 4096",
            required: false,
            given: Given::Option(Value::Defaulted(1, 4096, "512")),
        },
        Argument {
            id: "room",
            value: "MB",
            help: "How many megabytes of files may be kept while the rest of them comes: 1 to 1000000; a quarter of the memory, but at least 64, if not given",
            required: false,
            given: Given::Option(Value::Number(1, 1_000_000)),
        },
        Argument {
            id: "manifest",
            value: "OUT",
            help: "A file that is kept up to date as the office's manifest",
            required: false,
            given: Given::Option(Value::Text),
        },
    ],
};

// `migrate FILE`.
static MIGRATE: Form = Form {
    name: "migrate",
    about: "Migrates an office file from version 1 to version 2; a file of version 2 stays as it is",
    text: Text::After(UPGRADE),
    arguments: &[OFFICE_FILE],
};

/// `drop COMMAND`.
pub(crate) fn command_line<'a>(alloc: Global) -> Result<Command<'a>, AllocError>
    ensures { IfOk result (λ c. app_of c ≡ drop_app) }
{
    // In the order of the help.
    let forms = [
        &INIT, &DESK, &LINK, &LINKS, &MANIFEST, &COMPARE, &LIST, &EXPORT, &REPLAY, &SERVE, &MIGRATE,
    ];
    with_commands(alloc, bare_line(alloc), &forms)
}

// Adds the commands of these forms to those of `line`.
fn with_commands<'a>(
    alloc: Global,
    line: Command<'a>,
    forms: &[&Form],
) -> Result<Command<'a>, AllocError>
    ensures { (app : App) → app_of line.entry ≡ app → IfOk result (λ c. app_of c ≡ lined app forms.now) }
{
    let mut line = line;
    for form in forms {
        line = with_command(line, built(alloc, form))?;
    }
    Ok(line)
}

// `drop` without its commands.
fn bare_line<'a>(alloc: Global) -> Command<'a>
    ensures { app_of result ≡ bare_app }
{
    Command::new(alloc, "drop")
        .version(VERSION)
        .about(
            "A file drop for offices: links that expire, uploads with numbered receipts, one office file",
        )
        .subcommand_required(true)
        .arg_required_else_help(true)
}

// Adds a command to those of `line`. A call drops the line where there is none, so that the proof does not drop each of
// its fields.
fn with_command<'a>(
    line: Command<'a>,
    command: Result<Command<'a>, AllocError>,
) -> Result<Command<'a>, AllocError>
    ensures { (below : App) → IfOk command.entry (IsLocal below)
        → IfOk result (λ c. app_of c ≡ with_subcommand (app_of line.entry) below.top) }
{
    match command {
        Ok(command) => line.subcommand(command),
        Err(error) => {
            drop(line);
            Err(error)
        }
    }
}

/// The command `init`.
pub(crate) fn init_command<'a>(alloc: Global) -> Result<Command<'a>, AllocError>
    ensures { IfOk result (IsLocal init_app) }
{
    built(alloc, &INIT)
}

// The command of this form.
fn built<'a>(alloc: Global, form: &Form) -> Result<Command<'a>, AllocError>
    ensures { IfOk result (IsLocal (app_in form.now)) }
{
    let mut command = opened(alloc, form);
    for argument in form.arguments {
        command = command.arg(arg_of(alloc, argument))?;
    }
    Ok(command)
}

// The same without its arguments.
fn opened<'a>(alloc: Global, form: &Form) -> Command<'a>
    ensures { IsLocal (new_app form.now.name.now) result }
{
    let command = Command::new(alloc, form.name).about(form.about);
    match form.text {
        Text::Nothing => command,
        Text::Usage(text) => command.override_usage(text),
        Text::After(text) => command.after_help(text),
    }
}

// The argument, as clap has it.
fn arg_of<'a>(alloc: Global, argument: &Argument) -> Arg<'a>
    ensures rule { rule_of result ≡ rule_in argument.now }
    ensures local { result.global ≡ false }
{
    let arg = Arg::new(alloc, argument.id)
        .value_name(argument.value)
        .required(argument.required)
        .help(argument.help);
    match argument.given {
        Given::Word => arg,
        Given::Words => arg.num_args(1..),
        Given::Option(Value::Text) => arg.long(argument.id),
        Given::Option(Value::Number(least, most)) => arg
            .long(argument.id)
            .value_parser(ValueParser::unsigned(least, most)),
        Given::Option(Value::Defaulted(least, most, default)) => arg
            .long(argument.id)
            .value_parser(ValueParser::unsigned(least, most))
            .default_value(default),
    }
}
