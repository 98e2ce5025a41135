//! The job that the words of a command line ask for.
ghost use Rattle.std.specs.Prelude.{◌≡◌, ◌⊎◌, false, Some, None, ◌≤◌, IfOk, IfErr, IfSome, option_and_then};
ghost use Rattle.clap.specs.Words.{app_of, fault_of, first_of, found_of, kind_of, rows_of, rule_of, subcommand_rows_of};
ghost use Rattle.clap.specs.declared.builder.command.Command.TheViews.{out-Command as fields_of};
ghost use Rattle.station_cli.specs.Prelude.{CanGive, IsFaultOfKind, RefusesWith, ShowsVersion, books_app, check_map_app, check_map_of, check_site_app};
ghost use Rattle.station_cli.specs.Prelude.{check_site_of, checked_rule, connections_rule, db_rule, from_rule};
ghost use Rattle.station_cli.specs.Prelude.{existing_rule, has_flag, job_by, job_read, number_of_digits, number_of_option, port_rule, replay_app, replay_of};
ghost use Rattle.station_cli.specs.Prelude.{required_db_rule, serve_app, serve_of, site_rule, station_app, store_of, texts, top_app};
ghost use Rattle.station_cli.specs.declared.job.WordsFault.TheVariants.{NoMemory};

use clap::builder::ValueParser;
use clap::error::ErrorKind;
use clap::{Arg, ArgAction, ArgMatches, Command, Error};
use std::alloc::{AllocError, Global};
use std::rt::Env;
use std::{env, io};
use text_core::Text;

/// The number of the program's version, which `--version` tells. It stands here alone: the package is
/// made of it, and `tools/version` finds the files that repeat it.
pub const VERSION: &str = "2.0.0";

/// Why a word that the system passed the program is refused.
const NOT_UTF8: &str = "error: a word of the command line is not UTF-8\n";

/// Why words that `clap` takes are refused: where `replay` is to find a store and none is named, or
/// should `clap` ever enter a subcommand that names no job.
const NO_JOB: &str = "error: the words name no job (--existing speaks of the store of --db)\n";

/// The greatest number of a port.
const PORT_LIMIT: u64 = 65535;

/// The most connections that one run serves.
const CONNECTION_LIMIT: u64 = 1_000_000;

/// The store that a job is served over.
#[derive(Drop)]
pub struct StoreName {
    /// The name of its file, as it was given.
    pub file: Text,
    /// Whether it has to be there: else it is made where there is none.
    pub is_existing: bool,
}

/// What the program is to do.
#[derive(Drop)]
pub enum Job {
    /// Serves connections of a port one after another, over the store in a file.
    Serve {
        /// The name of the site's file, as it was given.
        site: Text,
        /// The store.
        store: StoreName,
        /// The port of this machine that is listened on, which isn't 0.
        port: u16,
        /// How many connections are served, 1 to 1,000,000.
        connections: u32,
    },
    /// Serves one stream of requests, from standard input to standard output.
    Replay {
        /// The name of the site's file, as it was given.
        site: Text,
        /// The store. Without one the tables are in memory, and end with the job.
        store: Option<StoreName>,
    },
    /// Reads one fuse map, and tells its name and its size, or its fault.
    CheckMap {
        /// The name of the map's file, as it was given.
        map: Text,
    },
    /// Reads one site, and tells how many customers it has, or its fault with the place.
    CheckSite {
        /// The name of the site's file, as it was given.
        site: Text,
        /// The name of the file of the site that it is to be a growth of, if one was given.
        old: Option<Text>,
    },
}

/// Why words give no job.
#[derive(Debug, Drop, thiserror::Error)]
pub enum WordsFault {
    /// The words ask for help or for the version, and this is the text.
    #[error("{0}")]
    Help(String),
    /// The words are no command line of the program: the text says why, and how it is used.
    #[error("{0}")]
    Refused(String),
    /// Memory ran out.
    #[error("no memory")]
    NoMemory,
}

impl From<AllocError> for WordsFault {
    ghost from_gives = { λ _ fault. fault ≡ NoMemory };

    fn from(_error: AllocError) -> WordsFault {
        WordsFault::NoMemory
    }
}

/// The job that the program was started for, by the words that the system passed it.
///
/// # Errors
///
/// Those of `read_job`; a word that is not UTF-8 is refused.
pub fn job_from_env(rt: &(impl Env + AllocGlobal)) -> Result<Job, WordsFault> {
    let alloc = rt.alloc();
    let args = match env::args(rt) {
        Ok(args) => args,
        Err(error) => return Err(args_fault(alloc, &error)),
    };
    let args: Vec<String> = args.collect(alloc)?;
    let words: Vec<&str> = args.iter().map(|arg| arg.as_str()).collect(alloc)?;
    read_job(alloc, words.as_slice())
}

/// The fault that an error in reading the program's words stands for.
fn args_fault(alloc: Global, error: &io::Error) -> WordsFault
    ensures { RefusesWith NOT_UTF8.now result }
{
    if error.kind() == io::ErrorKind::OutOfMemory {
        return WordsFault::NoMemory;
    }
    refused(alloc, NOT_UTF8)
}

/// The refusal with this text, or want of memory.
fn refused(alloc: Global, text: &str) -> WordsFault
    ensures { RefusesWith text.now result }
{
    match String::from_str(alloc, text) {
        Ok(text) => WordsFault::Refused(text),
        Err(_) => WordsFault::NoMemory,
    }
}

/// The job that the words give, by `clap`'s reading of the program's command line.
///
/// The words are all those that the system passes a program, so the first is the program's own
/// name, which is passed over. No word at all is a missing subcommand.
///
/// # Errors
///
/// `Help` with the text of help, or with the line of the version, where the words ask for it,
/// `Refused` with `clap`'s text where they are no command line of the program, `NoMemory` where
/// memory runs out.
pub fn read_job<'a>(alloc: Global, words: &'a [&'a str]) -> Result<Job, WordsFault>
    ensures ok { IfOk result (λ job. job_read (texts words.entry) ≡ Some job) }
    ensures err { IfErr result (λ fault.
        (fault ≡ NoMemory) ⊎ (job_read (texts words.entry) ≡ None)) }

    // Help and the version's line come only where they are among the answers that `clap` may give to
    // the words, and a refusal only where neither is the one answer. `clap` leaves two open where
    // `help` stands for a subcommand, since what follows it may name none.
    ensures fault { IfErr result (CanGive VERSION.now
        (fault_of station_app (texts words.entry))) }
{
    let command = station_command(alloc)?;
    let matches = match command.try_get_matches_from(words) {
        Ok(matches) => matches,
        Err(error) => return Err(words_fault(alloc, &error)),
    };
    match job_from(alloc, &matches)? {
        Some(job) => Ok(job),
        None => Err(refused(alloc, NO_JOB)),
    }
}

/// The program's command line.
fn station_command<'a>(alloc: Global) -> Result<Command<'a>, AllocError>
    ensures { IfOk result (λ command. app_of command ≡ station_app) }
{
    let serve = serve_command(alloc)?;
    let replay = replay_command(alloc)?;
    let check_map = check_map_command(alloc)?;
    let check_site = check_site_command(alloc)?;
    top_command(alloc)
        .subcommand(serve)?
        .subcommand(replay)?
        .subcommand(check_map)?
        .subcommand(check_site)
}

/// The program's command line without its subcommands.
fn top_command<'a>(alloc: Global) -> Command<'a>
    ensures { app_of result ≡ top_app }
{
    Command::new(alloc, "station")
        .about("Serves programming stations")
        .version(VERSION)
        .subcommand_required(true)
}

/// The option `--site F`.
fn site_option<'a>(alloc: Global) -> Arg<'a>
    ensures rule { rule_of result ≡ site_rule }
    ensures local { result.global ≡ false }
{
    Arg::new(alloc, "site")
        .long("site")
        .required(true)
        .value_name("F")
        .help("The file of the site: its customers, their seats, and the manager")
}

/// The option `--db F`.
fn store_option<'a>(alloc: Global) -> Arg<'a>
    ensures rule { rule_of result ≡ db_rule }
    ensures local { result.global ≡ false }
{
    Arg::new(alloc, "db").long("db").value_name("F").help(
        "The file of the store, made where there is none; without one, memory alone",
    )
}

/// The option `--db F`, which has to be there.
fn required_store_option<'a>(alloc: Global) -> Arg<'a>
    ensures rule { rule_of result ≡ required_db_rule }
    ensures local { result.global ≡ false }
{
    Arg::new(alloc, "db")
        .long("db")
        .required(true)
        .value_name("F")
        .help("The file of the store, made where there is none")
}

/// The flag `--existing`.
fn existing_option<'a>(alloc: Global) -> Arg<'a>
    ensures rule { rule_of result ≡ existing_rule }
    ensures local { result.global ≡ false }
{
    Arg::new(alloc, "existing")
        .long("existing")
        .action(ArgAction::SetTrue)
        .help("Serve only over a store that is there: none is made")
}

/// The option `--port N`.
fn port_option<'a>(alloc: Global) -> Arg<'a>
    ensures rule { rule_of result ≡ port_rule }
    ensures local { result.global ≡ false }
{
    Arg::new(alloc, "port")
        .long("port")
        .required(true)
        .value_parser(ValueParser::unsigned(1, PORT_LIMIT))
        .value_name("N")
        .help("The port of this machine to listen on, 1 to 65535")
}

/// The option `--connections K`.
fn connections_option<'a>(alloc: Global) -> Arg<'a>
    ensures rule { rule_of result ≡ connections_rule }
    ensures local { result.global ≡ false }
{
    Arg::new(alloc, "connections")
        .long("connections")
        .required(true)
        .value_parser(ValueParser::unsigned(1, CONNECTION_LIMIT))
        .value_name("K")
        .help("How many connections to serve before it ends, 1 to 1000000")
}

/// The subcommand `serve --site F --db F [--existing] --port N --connections K`.
fn serve_command<'a>(alloc: Global) -> Result<Command<'a>, AllocError>
    ensures shape { IfOk result (λ command. app_of command ≡ serve_app) }
    ensures local { IfOk result (λ command. (fields_of command).has_globals ≡ false) }
{
    books_command(alloc)?
        .arg(port_option(alloc))?
        .arg(connections_option(alloc))
}

/// The subcommand `serve --site F --db F [--existing]`, without the options of its port.
fn books_command<'a>(alloc: Global) -> Result<Command<'a>, AllocError>
    ensures shape { IfOk result (λ command. app_of command ≡ books_app) }
    ensures local { IfOk result (λ command. (fields_of command).has_globals ≡ false) }
{
    Command::new(alloc, "serve")
        .about("Serves connections of a port, one after another, over the store in a file")
        .arg(site_option(alloc))?
        .arg(required_store_option(alloc))?
        .arg(existing_option(alloc))
}

/// The subcommand `replay --site F [--db F [--existing]]`.
fn replay_command<'a>(alloc: Global) -> Result<Command<'a>, AllocError>
    ensures shape { IfOk result (λ command. app_of command ≡ replay_app) }
    ensures local { IfOk result (λ command. (fields_of command).has_globals ≡ false) }
{
    Command::new(alloc, "replay")
        .about("Serves one stream of requests, from standard input to standard output")
        .arg(site_option(alloc))?
        .arg(store_option(alloc))?
        .arg(existing_option(alloc))
}

/// The subcommand `check-map F`.
fn check_map_command<'a>(alloc: Global) -> Result<Command<'a>, AllocError>
    ensures shape { IfOk result (λ command. app_of command ≡ check_map_app) }
    ensures local { IfOk result (λ command. (fields_of command).has_globals ≡ false) }
{
    let map = Arg::new(alloc, "map")
        .required(true)
        .value_name("F")
        .help("The file of the fuse map: its blocks and fields");
    Command::new(alloc, "check-map")
        .about("Reads a fuse map, and tells its name and its size, or its fault")
        .arg(map)
}

/// The file `F` of a site that is checked.
fn checked_file<'a>(alloc: Global) -> Arg<'a>
    ensures rule { rule_of result ≡ checked_rule }
    ensures local { result.global ≡ false }
{
    Arg::new(alloc, "site")
        .required(true)
        .value_name("F")
        .help("The file of the site that is checked")
}

/// The option `--from OLD`.
fn from_option<'a>(alloc: Global) -> Arg<'a>
    ensures rule { rule_of result ≡ from_rule }
    ensures local { result.global ≡ false }
{
    Arg::new(alloc, "from")
        .long("from")
        .value_name("OLD")
        .help("The file of the site that it is to be a growth of")
}

/// The subcommand `check-site F [--from OLD]`.
fn check_site_command<'a>(alloc: Global) -> Result<Command<'a>, AllocError>
    ensures shape { IfOk result (λ command. app_of command ≡ check_site_app) }
    ensures local { IfOk result (λ command. (fields_of command).has_globals ≡ false) }
{
    Command::new(alloc, "check-site")
        .about("Reads a site, and tells how many customers it has, or its fault with the place")
        .arg(checked_file(alloc))?
        .arg(from_option(alloc))
}

/// The fault that an error of `clap` stands for.
fn words_fault(alloc: Global, error: &Error) -> WordsFault
    ensures { IsFaultOfKind VERSION.now (kind_of error.now) result }
{
    let kind = error.kind();
    if kind == ErrorKind::OutOfMemory {
        return WordsFault::NoMemory;
    }
    if kind == ErrorKind::DisplayVersion {
        return version_shown(alloc);
    }
    let Ok(text) = error.to_string(alloc) else {
        return WordsFault::NoMemory;
    };
    if kind == ErrorKind::DisplayHelp {
        WordsFault::Help(text)
    } else {
        WordsFault::Refused(text)
    }
}

/// The line of the version, or want of memory.
fn version_shown(alloc: Global) -> WordsFault
    ensures { ShowsVersion VERSION.now result }
{
    match format!(in alloc; "station {VERSION}\n") {
        Ok(line) => WordsFault::Help(line),
        Err(_) => WordsFault::NoMemory,
    }
}

/// The job of the subcommand that was met.
fn job_from(alloc: Global, matches: &ArgMatches<'_>) -> Result<Option<Job>, AllocError>
    ensures { IfOk result (λ job. job ≡ option_and_then job_by (subcommand_rows_of matches.now)) }
{
    match matches.subcommand() {
        Some((name, options)) => job_by(alloc, name, options),
        None => Ok(None),
    }
}

/// The job of the subcommand with this name and these options.
fn job_by(alloc: Global, name: &str, options: &ArgMatches<'_>) -> Result<Option<Job>, AllocError>
    ensures { IfOk result (λ job. job ≡ job_by (name.now, rows_of (found_of options.now))) }
{
    match name {
        "serve" => serve_job(alloc, options),
        "replay" => replay_job(alloc, options),
        "check-map" => check_map_job(alloc, options),
        "check-site" => check_site_job(alloc, options),
        _ => Ok(None),
    }
}

/// The job of `serve` with these options.
fn serve_job(alloc: Global, options: &ArgMatches<'_>) -> Result<Option<Job>, AllocError>
    ensures { IfOk result (λ job. job ≡ serve_of (rows_of (found_of options.now))) }
{
    let Some(site) = option_text(alloc, options, "site")? else {
        return Ok(None);
    };
    let Some(store) = store_named(alloc, options)? else {
        return Ok(None);
    };
    let Some(port) = option_number(options, "port", 1, PORT_LIMIT) else {
        return Ok(None);
    };
    let Some(connections) = option_number(options, "connections", 1, CONNECTION_LIMIT) else {
        return Ok(None);
    };
    Ok(Some(Job::Serve {
        site,
        store,
        port: port as u16,
        connections: connections as u32,
    }))
}

/// The job of `replay` with these options.
fn replay_job(alloc: Global, options: &ArgMatches<'_>) -> Result<Option<Job>, AllocError>
    ensures { IfOk result (λ job. job ≡ replay_of (rows_of (found_of options.now))) }
{
    let Some(site) = option_text(alloc, options, "site")? else {
        return Ok(None);
    };
    let store = store_named(alloc, options)?;
    if store.is_none() && has_flag(options, "existing") {
        return Ok(None);
    }
    Ok(Some(Job::Replay { site, store }))
}

/// The store that these options name, if they name one.
fn store_named(alloc: Global, options: &ArgMatches<'_>) -> Result<Option<StoreName>, AllocError>
    ensures { IfOk result (λ store. store ≡ store_of (rows_of (found_of options.now))) }
{
    match option_text(alloc, options, "db")? {
        Some(file) => Ok(Some(StoreName {
            file,
            is_existing: has_flag(options, "existing"),
        })),
        None => Ok(None),
    }
}

/// The job of `check-map` with these options.
fn check_map_job(alloc: Global, options: &ArgMatches<'_>) -> Result<Option<Job>, AllocError>
    ensures { IfOk result (λ job. job ≡ check_map_of (rows_of (found_of options.now))) }
{
    match option_text(alloc, options, "map")? {
        Some(map) => Ok(Some(Job::CheckMap { map })),
        None => Ok(None),
    }
}

/// The job of `check-site` with these options.
fn check_site_job(alloc: Global, options: &ArgMatches<'_>) -> Result<Option<Job>, AllocError>
    ensures { IfOk result (λ job. job ≡ check_site_of (rows_of (found_of options.now))) }
{
    let Some(site) = option_text(alloc, options, "site")? else {
        return Ok(None);
    };
    let old = option_text(alloc, options, "from")?;
    Ok(Some(Job::CheckSite { site, old }))
}

/// Whether a flag is among the options.
#[tactic(auto, using(crate::proofs::Options::first_of_rows))]
fn has_flag(options: &ArgMatches<'_>, id: &str) -> bool
    ensures { result ≡ has_flag id.now (rows_of (found_of options.now)) }
{
    match options.get_str(id) {
        Some(text) => text == "true",
        None => false,
    }
}

/// The text that an option was given, the first if there are several.
#[tactic(auto, using(crate::proofs::Options::first_of_rows))]
fn option_text(
    alloc: Global,
    options: &ArgMatches<'_>,
    id: &str,
) -> Result<Option<Text>, AllocError>
    ensures { IfOk result (λ text. text ≡ first_of id.now (rows_of (found_of options.now))) }
{
    match options.get_str(id) {
        Some(text) => Ok(Some(Text::copy_of(alloc, text)?)),
        None => Ok(None),
    }
}

/// The number that an option was given, the first if there are several, where it is one of these.
fn option_number(options: &ArgMatches<'_>, id: &str, least: u64, most: u64) -> Option<u64>
    ensures number { result ≡ number_of_option id.now least most (rows_of (found_of options.now)) }
    ensures within { IfSome result (λ number. (least ≤ number) × (number ≤ most)) }
{
    match options.get_str(id) {
        Some(text) => number_of_digits(text, least, most),
        None => None,
    }
}

/// The number that a text stands for, where it is one of these.
fn number_of_digits(text: &str, least: u64, most: u64) -> Option<u64>
    ensures number { result ≡ number_of_digits least most text.now }
    ensures within { IfSome result (λ number. (least ≤ number) × (number ≤ most)) }
{
    match text.parse::<u64>() {
        Ok(number) if least <= number && number <= most => Some(number),
        _ => None,
    }
}
