//! The task that the command line asks for.
ghost use Rattle.std.specs.Prelude.{◌≡◌, ◌⊎◌, [], IfOk, IfErr, IfSome, IsErrAnd, IsSome, MatchResult, None, Some, codes, is_some, true, map};
ghost use Rattle.clap.specs.Words.{all_of, app_of, fault_of, first_of, found_of, kind_of, rows_of, subcommand_of, subcommand_rows_of, takes};
ghost use Rattle.tasks.specs.Building.{NamesSole};
ghost use Rattle.tasks.specs.Tasks.{drop_app, HasDesk, HasExport, HasInit, HasLink, HasLinks, HasListing, HasOneSecret, HasReplay, HasServe, HasValue, IsDeskIn, IsExportIn, IsFaultOf, IsInitOf, IsLinkIn, IsLinksIn, IsListingIn, IsOfficeIn, IsReplayOf, IsSecretFault, IsSecretIn, IsServeIn, IsTaskIn, IsTaskOf, NamesCompare, NamesDesk, NamesExport, NamesInit, NamesLink, NamesLinks, NamesListing, NamesManifest, NamesMigrate, NamesOneSecret, NamesReplay, NamesServe, NamesStock, NamesTask};

use crate::words::{command_line, init_command};
use clap::error::ErrorKind;
use clap::{ArgMatches, Command, Error};
use std::alloc::{AllocError, Global};

/// What the program is asked to do. It has no `Debug`, so that no secret gets into a log.
#[derive(Drop)]
pub enum Task<'a> {
    /// Make an office file.
    Init(Init<'a>),
    /// Do a desk command.
    Desk(Desk<'a>),
    /// Write a link.
    Link(Link<'a>),
    /// Write many links.
    Links(Links<'a>),
    /// Write the receipts.
    Manifest(OfficeFile<'a>),
    /// Compare a manifest with the files of the office.
    Compare(OfficeFile<'a>),
    /// List what the office holds.
    List(Listing<'a>),
    /// Write the files into a folder.
    Export(Export<'a>),
    /// Answer recorded connections.
    Replay(Replay<'a>),
    /// Serve connections over a socket.
    Serve(Serve<'a>),
    /// Migrate an office file from version 1 to version 2.
    Migrate(OfficeFile<'a>),
}

/// The values of `drop init FILE --clerk ID --secret SECRET --east M --west M --allowance N`, or with
/// `--secret-file SECRETFILE` instead of `--secret SECRET`. Each is the text as it was given, and the three
/// numbers default to `0`. M is 0 to 840 and N is 0 to 900; no other value is checked here.
#[derive(Clone, Copy)]
pub struct Init<'a> {
    /// The office file.
    pub file: &'a str,
    /// The id of the clerk's key.
    pub clerk: &'a str,
    /// Its secret.
    pub secret: Secret<'a>,
    /// How many minutes the office's clock is ahead of UTC.
    pub east: &'a str,
    /// How many minutes it is behind UTC.
    pub west: &'a str,
    /// How many seconds before its start a link is accepted.
    pub allowance: &'a str,
}

/// The source of a key's secret. It has no `Debug`, so that no secret gets into a log.
#[derive(Clone, Copy)]
pub enum Secret<'a> {
    /// The secret itself.
    Given(&'a str),
    /// The name of a file whose line is the secret.
    InFile(&'a str),
}

/// The values of `drop desk FILE LINE`, as they were given. They are not checked here. It has no `Debug`,
/// because a line may contain a secret.
#[derive(Clone, Copy)]
pub struct Desk<'a> {
    /// The office file.
    pub file: &'a str,
    /// The desk command.
    pub line: &'a str,
}

/// The values of `drop link FILE METHOD TARGET --key ID --host H --region R --start MOMENT --expires N`, as
/// they were given. N is 1 to 604800; no other value is checked here.
#[derive(Clone, Copy)]
pub struct Link<'a> {
    /// The office file.
    pub file: &'a str,
    /// The method.
    pub method: &'a str,
    /// The box and the name, or for POST a desk command.
    pub target: &'a str,
    /// The id of the key that signs.
    pub key: &'a str,
    /// The host.
    pub host: &'a str,
    /// The region.
    pub region: &'a str,
    /// The first moment at which the link is valid.
    pub start: &'a str,
    /// For how many seconds it is valid.
    pub expires: &'a str,
}

/// The values of `drop links FILE --key ID --host H --region R`, as they were given. They are not checked
/// here.
#[derive(Clone, Copy)]
pub struct Links<'a> {
    /// The office file.
    pub file: &'a str,
    /// The id of the key that signs.
    pub key: &'a str,
    /// The host.
    pub host: &'a str,
    /// The region.
    pub region: &'a str,
}

/// The value of `drop manifest FILE`, `drop compare FILE` or `drop migrate FILE`, as it was given.
#[derive(Clone, Copy)]
pub struct OfficeFile<'a> {
    /// The office file.
    pub file: &'a str,
}

/// The values of `drop list FILE WHAT`, as they were given. They are not checked here.
#[derive(Clone, Copy)]
pub struct Listing<'a> {
    /// The office file.
    pub file: &'a str,
    /// What to list.
    pub what: &'a str,
}

/// The values of `drop export FILE DIR --box NAME`, as they were given. They are not checked here.
#[derive(Clone, Copy)]
pub struct Export<'a> {
    /// The office file.
    pub file: &'a str,
    /// The folder to make.
    pub folder: &'a str,
    /// The box to which the export is limited, if one is named.
    pub in_box: Option<&'a str>,
}

/// The values of `drop replay FILE STREAM.. --at MOMENT`, as they were given. They are not checked here.
#[derive(Drop)]
pub struct Replay<'a> {
    /// The office.
    pub file: &'a str,
    /// The moment at which the requests are answered.
    pub at: &'a str,
    /// The names of the files that hold the bytes of the connections, at least one.
    pub streams: Vec<&'a str>,
}

/// The values of `drop serve FILE --listen ADDR --connections N --patience SECONDS --open N --room MB
/// --manifest OUT`, as they were given. SECONDS defaults to `30`, and the open connections to `512`. The
/// connections are 1 to 1000000, SECONDS is 0 to 3600, the open connections are 1 to 4096, and MB is 1 to
/// 1000000; no other value is checked here.
#[derive(Debug, Clone, Copy)]
pub struct Serve<'a> {
    /// The office file.
    pub file: &'a str,
    /// The address to listen on.
    pub listen: &'a str,
    /// How many connections to serve.
    pub connections: &'a str,
    /// For how many seconds a peer may keep the office waiting.
    pub patience: &'a str,
    /// How many connections may be open at a time.
    pub open: &'a str,
    /// How many megabytes of files may be kept while the rest of them comes, if that is given.
    pub room: Option<&'a str>,
    /// The file that is kept up to date as the manifest, if one is named.
    pub manifest: Option<&'a str>,
}

impl<'a> Task<'a> {
    /// Parses the words of the command line. The first is the program's name.
    ///
    /// The error is that of clap, for a mistake or for help that was asked for. Its `Display` is the whole
    /// text for the user, `use_stderr` tells which stream to write it to, and `exit_code` is the exit status:
    /// 2, or 0 for help.
    pub fn read(alloc: Global, words: &'a [&'a str]) -> Result<Task<'a>, Error>
        ensures task { IfOk result (IsTaskOf (map (λ w. w.now) words.entry.now)) }
        ensures passes { IfErr result (λ e. takes drop_app (map (λ w. w.now) words.entry.now) ≡ true
            → (kind_of e ≡ ErrorKind.OutOfMemory)
            ⊎ IsSecretFault (subcommand_of drop_app (map (λ w. w.now) words.entry.now))
            (kind_of e)) }
        ensures kinds { MatchResult result
            (λ _. fault_of drop_app (map (λ w. w.now) words.entry.now) ≡ [])
            (λ e. (kind_of e ≡ ErrorKind.OutOfMemory)
            ⊎ IsFaultOf (map (λ w. w.now) words.entry.now) (kind_of e)) }
        ensures secrets { (kind : ErrorKind)
            → IsSecretFault (subcommand_of drop_app (map (λ w. w.now) words.entry.now)) kind
            → fault_of drop_app (map (λ w. w.now) words.entry.now) ≡ []
            → IsErrAnd result (λ e. (kind_of e ≡ ErrorKind.OutOfMemory) ⊎ (kind_of e ≡ kind)) }
    {
        let mut command = command_line(alloc)?;
        let task = Task::parsed(alloc, &mut command, words);
        // A call drops the command, so that the proof does not drop each of its fields.
        drop(command);
        task
    }

    // The task of the words, which the program's command parses.
    fn parsed(
        alloc: Global,
        command: &mut Command<'a>,
        words: &'a [&'a str],
    ) -> Result<Task<'a>, Error>
        requires { app_of command.now ≡ drop_app }
        ensures task { IfOk result (IsTaskOf (map (λ w. w.now) words.entry.now)) }
        ensures passes { IfErr result (λ e. takes drop_app (map (λ w. w.now) words.entry.now) ≡ true
            → (kind_of e ≡ ErrorKind.OutOfMemory)
            ⊎ IsSecretFault (subcommand_of drop_app (map (λ w. w.now) words.entry.now))
            (kind_of e)) }
        ensures kinds { MatchResult result
            (λ _. fault_of drop_app (map (λ w. w.now) words.entry.now) ≡ [])
            (λ e. (kind_of e ≡ ErrorKind.OutOfMemory)
            ⊎ IsFaultOf (map (λ w. w.now) words.entry.now) (kind_of e)) }
    {
        let matches = command.try_get_matches_from_mut(words)?;
        Task::matched(alloc, command, &matches)
    }

    // The task that the words named, if the secrets of `init` have no fault.
    fn matched(
        alloc: Global,
        command: &mut Command<'a>,
        matches: &ArgMatches<'a>,
    ) -> Result<Task<'a>, Error>
        requires { NamesOneSecret (subcommand_rows_of matches.now)
            → NamesTask (subcommand_rows_of matches.now) }
        ensures task { IfOk result (IsTaskIn (subcommand_rows_of matches.now)) }
        ensures fault { IfErr result (λ e. (kind_of e ≡ ErrorKind.OutOfMemory)
            ⊎ IsSecretFault (subcommand_rows_of matches.now) (kind_of e)) }
    {
        if let Some(kind) = secret_fault(matches) {
            return Err(secret_error(alloc, kind)?);
        }
        match Task::of_matches(alloc, matches)? {
            Some(task) => Ok(task),
            // The contract rules this out: clap has refused such words.
            None => Err(command.error(ErrorKind::MissingSubcommand, "a command is missing")?),
        }
    }

    // The task that the words named.
    fn of_matches(alloc: Global, matches: &ArgMatches<'a>) -> Result<Option<Task<'a>>, AllocError>
        ensures task { IfOk result
            (λ found. IfSome found (IsTaskIn (subcommand_rows_of matches.now))) }
        ensures named { NamesTask (subcommand_rows_of matches.now)
            → IfOk result (λ found. IsSome found) }
    {
        match Task::sole_in(matches) {
            Some(task) => Ok(Some(task)),
            None => Task::replay_in(alloc, matches),
        }
    }

    // The task, if it is no replay, whose list of streams takes memory.
    fn sole_in(matches: &ArgMatches<'a>) -> Option<Task<'a>>
        ensures task { IfSome result (IsTaskIn (subcommand_rows_of matches.now)) }
        ensures named { NamesSole (subcommand_rows_of matches.now) → IsSome result }
    {
        Task::init_in(matches)
            .or(Task::desk_in(matches))
            .or(Task::link_in(matches))
            .or(Task::stock_in(matches))
            .or(Task::serve_in(matches))
            .or(Task::migrate_in(matches))
    }

    fn init_in(matches: &ArgMatches<'a>) -> Option<Task<'a>>
        ensures task { IfSome result (IsTaskIn (subcommand_rows_of matches.now)) }
        ensures named { NamesInit (subcommand_rows_of matches.now) → IsSome result }
    {
        let values = matches.subcommand_matches("init")?;
        Some(Task::Init(Init::of_matches(values)?))
    }

    fn desk_in(matches: &ArgMatches<'a>) -> Option<Task<'a>>
        ensures task { IfSome result (IsTaskIn (subcommand_rows_of matches.now)) }
        ensures named { NamesDesk (subcommand_rows_of matches.now) → IsSome result }
    {
        let values = matches.subcommand_matches("desk")?;
        Some(Task::Desk(Desk::of_matches(values)?))
    }

    fn link_in(matches: &ArgMatches<'a>) -> Option<Task<'a>>
        ensures task { IfSome result (IsTaskIn (subcommand_rows_of matches.now)) }
        ensures named { NamesLink (subcommand_rows_of matches.now) → IsSome result }
    {
        let values = matches.subcommand_matches("link")?;
        Some(Task::Link(Link::of_matches(values)?))
    }

    // A list that is read or written, or an export.
    fn stock_in(matches: &ArgMatches<'a>) -> Option<Task<'a>>
        ensures task { IfSome result (IsTaskIn (subcommand_rows_of matches.now)) }
        ensures named { NamesStock (subcommand_rows_of matches.now) → IsSome result }
    {
        Task::links_in(matches)
            .or(Task::manifest_in(matches))
            .or(Task::compare_in(matches))
            .or(Task::listing_in(matches))
            .or(Task::export_in(matches))
    }

    fn links_in(matches: &ArgMatches<'a>) -> Option<Task<'a>>
        ensures task { IfSome result (IsTaskIn (subcommand_rows_of matches.now)) }
        ensures named { NamesLinks (subcommand_rows_of matches.now) → IsSome result }
    {
        let values = matches.subcommand_matches("links")?;
        Some(Task::Links(Links::of_matches(values)?))
    }

    fn manifest_in(matches: &ArgMatches<'a>) -> Option<Task<'a>>
        ensures task { IfSome result (IsTaskIn (subcommand_rows_of matches.now)) }
        ensures named { NamesManifest (subcommand_rows_of matches.now) → IsSome result }
    {
        let values = matches.subcommand_matches("manifest")?;
        Some(Task::Manifest(OfficeFile::of_matches(values)?))
    }

    fn compare_in(matches: &ArgMatches<'a>) -> Option<Task<'a>>
        ensures task { IfSome result (IsTaskIn (subcommand_rows_of matches.now)) }
        ensures named { NamesCompare (subcommand_rows_of matches.now) → IsSome result }
    {
        let values = matches.subcommand_matches("compare")?;
        Some(Task::Compare(OfficeFile::of_matches(values)?))
    }

    fn listing_in(matches: &ArgMatches<'a>) -> Option<Task<'a>>
        ensures task { IfSome result (IsTaskIn (subcommand_rows_of matches.now)) }
        ensures named { NamesListing (subcommand_rows_of matches.now) → IsSome result }
    {
        let values = matches.subcommand_matches("list")?;
        Some(Task::List(Listing::of_matches(values)?))
    }

    fn export_in(matches: &ArgMatches<'a>) -> Option<Task<'a>>
        ensures task { IfSome result (IsTaskIn (subcommand_rows_of matches.now)) }
        ensures named { NamesExport (subcommand_rows_of matches.now) → IsSome result }
    {
        let values = matches.subcommand_matches("export")?;
        Some(Task::Export(Export::of_matches(values)?))
    }

    fn serve_in(matches: &ArgMatches<'a>) -> Option<Task<'a>>
        ensures task { IfSome result (IsTaskIn (subcommand_rows_of matches.now)) }
        ensures named { NamesServe (subcommand_rows_of matches.now) → IsSome result }
    {
        let values = matches.subcommand_matches("serve")?;
        Some(Task::Serve(Serve::of_matches(values)?))
    }

    fn migrate_in(matches: &ArgMatches<'a>) -> Option<Task<'a>>
        ensures task { IfSome result (IsTaskIn (subcommand_rows_of matches.now)) }
        ensures named { NamesMigrate (subcommand_rows_of matches.now) → IsSome result }
    {
        let values = matches.subcommand_matches("migrate")?;
        Some(Task::Migrate(OfficeFile::of_matches(values)?))
    }

    fn replay_in(alloc: Global, matches: &ArgMatches<'a>) -> Result<Option<Task<'a>>, AllocError>
        ensures task { IfOk result
            (λ found. IfSome found (IsTaskIn (subcommand_rows_of matches.now))) }
        ensures named { NamesReplay (subcommand_rows_of matches.now)
            → IfOk result (λ found. IsSome found) }
    {
        let Some(values) = matches.subcommand_matches("replay") else {
            return Ok(None);
        };
        match Replay::of_matches(alloc, values)? {
            Some(replay) => Ok(Some(Task::Replay(replay))),
            None => Ok(None),
        }
    }
}

impl<'a> Init<'a> {
    fn of_matches(values: &ArgMatches<'a>) -> Option<Init<'a>>
        ensures values { IfSome result (IsInitOf (rows_of (found_of values.now))) }
        ensures given { HasInit (rows_of (found_of values.now)) → IsSome result }
    {
        let (Some(file), Some(clerk), Some(secret), Some(east), Some(west), Some(allowance)) = (
            value_of(values, "file"),
            value_of(values, "clerk"),
            Secret::of_matches(values),
            value_of(values, "east"),
            value_of(values, "west"),
            value_of(values, "allowance"),
        ) else {
            return None;
        };
        Some(Init {
            file,
            clerk,
            secret,
            east,
            west,
            allowance,
        })
    }
}

impl<'a> Secret<'a> {
    // The secret that was given, if exactly one was.
    fn of_matches(values: &ArgMatches<'a>) -> Option<Secret<'a>>
        ensures values { IfSome result (IsSecretIn (rows_of (found_of values.now))) }
        ensures given { HasOneSecret (rows_of (found_of values.now)) → IsSome result }
    {
        match (value_of(values, "secret"), value_of(values, "secret-file")) {
            (Some(text), None) => Some(Secret::Given(text)),
            (None, Some(name)) => Some(Secret::InFile(name)),
            (None, None) | (Some(_), Some(_)) => None,
        }
    }
}

impl<'a> Desk<'a> {
    fn of_matches(values: &ArgMatches<'a>) -> Option<Desk<'a>>
        ensures values { IfSome result (IsDeskIn (rows_of (found_of values.now))) }
        ensures given { HasDesk (rows_of (found_of values.now)) → IsSome result }
    {
        Some(Desk {
            file: value_of(values, "file")?,
            line: value_of(values, "line")?,
        })
    }
}

impl<'a> Link<'a> {
    fn of_matches(values: &ArgMatches<'a>) -> Option<Link<'a>>
        ensures values { IfSome result (IsLinkIn (rows_of (found_of values.now))) }
        ensures given { HasLink (rows_of (found_of values.now)) → IsSome result }
    {
        // These four are the values of `links` too.
        let Links {
            file,
            key,
            host,
            region,
        } = Links::of_matches(values)?;
        let (Some(method), Some(target), Some(start), Some(expires)) = (
            value_of(values, "method"),
            value_of(values, "target"),
            value_of(values, "start"),
            value_of(values, "expires"),
        ) else {
            return None;
        };
        Some(Link {
            file,
            method,
            target,
            key,
            host,
            region,
            start,
            expires,
        })
    }
}

impl<'a> Links<'a> {
    fn of_matches(values: &ArgMatches<'a>) -> Option<Links<'a>>
        ensures values { IfSome result (IsLinksIn (rows_of (found_of values.now))) }
        ensures given { HasLinks (rows_of (found_of values.now)) → IsSome result }
    {
        let (Some(file), Some(key), Some(host), Some(region)) = (
            value_of(values, "file"),
            value_of(values, "key"),
            value_of(values, "host"),
            value_of(values, "region"),
        ) else {
            return None;
        };
        Some(Links {
            file,
            key,
            host,
            region,
        })
    }
}

impl<'a> OfficeFile<'a> {
    fn of_matches(values: &ArgMatches<'a>) -> Option<OfficeFile<'a>>
        ensures values { IfSome result (IsOfficeIn (rows_of (found_of values.now))) }
        ensures given { HasValue (codes "file") (rows_of (found_of values.now)) → IsSome result }
    {
        Some(OfficeFile {
            file: value_of(values, "file")?,
        })
    }
}

impl<'a> Listing<'a> {
    fn of_matches(values: &ArgMatches<'a>) -> Option<Listing<'a>>
        ensures values { IfSome result (IsListingIn (rows_of (found_of values.now))) }
        ensures given { HasListing (rows_of (found_of values.now)) → IsSome result }
    {
        Some(Listing {
            file: value_of(values, "file")?,
            what: value_of(values, "what")?,
        })
    }
}

impl<'a> Export<'a> {
    fn of_matches(values: &ArgMatches<'a>) -> Option<Export<'a>>
        ensures values { IfSome result (IsExportIn (rows_of (found_of values.now))) }
        ensures given { HasExport (rows_of (found_of values.now)) → IsSome result }
    {
        Some(Export {
            file: value_of(values, "file")?,
            folder: value_of(values, "dir")?,
            in_box: value_of(values, "box"),
        })
    }
}

impl<'a> Serve<'a> {
    fn of_matches(values: &ArgMatches<'a>) -> Option<Serve<'a>>
        ensures values { IfSome result (IsServeIn (rows_of (found_of values.now))) }
        ensures given { HasServe (rows_of (found_of values.now)) → IsSome result }
    {
        let (Some(file), Some(listen), Some(connections), Some(patience), Some(open)) = (
            value_of(values, "file"),
            value_of(values, "listen"),
            value_of(values, "connections"),
            value_of(values, "patience"),
            value_of(values, "open"),
        ) else {
            return None;
        };
        Some(Serve {
            file,
            listen,
            connections,
            patience,
            open,
            room: value_of(values, "room"),
            manifest: value_of(values, "manifest"),
        })
    }
}

impl<'a> Replay<'a> {
    fn of_matches(alloc: Global, values: &ArgMatches<'a>) -> Result<Option<Replay<'a>>, AllocError>
        ensures values { IfOk result
            (λ found. IfSome found (IsReplayOf (rows_of (found_of values.now)))) }
        ensures given { HasReplay (rows_of (found_of values.now))
            → IfOk result (λ found. IsSome found) }
    {
        let Some(file) = value_of(values, "file") else {
            return Ok(None);
        };
        let Some(at) = value_of(values, "at") else {
            return Ok(None);
        };
        match values_of(alloc, values, "stream")? {
            Some(streams) => Ok(Some(Replay { file, at, streams })),
            None => Ok(None),
        }
    }
}

// What is wrong with the secrets of `init`, if the words name it: none or two are given.
fn secret_fault(matches: &ArgMatches<'_>) -> Option<ErrorKind>
    ensures fault { IfSome result (IsSecretFault (subcommand_rows_of matches.now)) }
    ensures one { (result ≡ None) → NamesOneSecret (subcommand_rows_of matches.now) }
{
    let values = matches.subcommand_matches("init")?;
    match (value_of(values, "secret"), value_of(values, "secret-file")) {
        (None, None) => Some(ErrorKind::MissingRequiredArgument),
        (Some(_), Some(_)) => Some(ErrorKind::ArgumentConflict),
        (Some(_), None) | (None, Some(_)) => None,
    }
}

// The error for that fault, worded like clap's own errors.
fn secret_error(alloc: Global, kind: ErrorKind) -> Result<Error, AllocError>
    ensures kind { IfOk result (λ e. kind_of e ≡ kind) }
{
    let message = match kind {
        ErrorKind::ArgumentConflict =>
            "the argument '--secret <SECRET>' cannot be used with '--secret-file <SECRETFILE>'",
        _ =>
            "the following required arguments were not provided:\n  <--secret <SECRET>|--secret-file <SECRETFILE>>",
    };
    let mut command = init_command(alloc)?;
    let error = command.error(kind, message);
    // A call drops the command, so that the proof does not drop each of its fields.
    drop(command);
    error
}

// The value of an argument that has one value.
fn value_of<'a>(values: &ArgMatches<'a>, id: &str) -> Option<&'a str>
    ensures value { IfSome result
        (λ s. first_of id.now (rows_of (found_of values.now)) ≡ Some s.now) }
    ensures given { HasValue id.now (rows_of (found_of values.now)) → IsSome result }
    ensures absent { (result ≡ None) → first_of id.now (rows_of (found_of values.now)) ≡ None }
{
    values.get_str(id)
}

// The values of an argument that has several.
fn values_of<'a>(
    alloc: Global,
    values: &ArgMatches<'a>,
    id: &str,
) -> Result<Option<Vec<&'a str>>, AllocError>
    ensures values { IfOk result
        (λ found. IfSome found
        (λ v. all_of id.now (rows_of (found_of values.now)) ≡ Some (map (λ s. s.now) v.items))) }
    ensures given { is_some (all_of id.now (rows_of (found_of values.now))) ≡ true
        → IfOk result (λ found. IsSome found) }
{
    match values.get_strs(id) {
        Some(texts) => Ok(Some(Vec::from_slice(alloc, texts)?)),
        None => Ok(None),
    }
}
