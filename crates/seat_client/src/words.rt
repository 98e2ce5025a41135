// The words of `station ask`.
ghost use Rattle.std.specs.Prelude.{◌≡◌, ◌<◌, IfSome, length, true};
ghost use Rattle.std.specs.Char.{is_ascii_graphic};
ghost use Rattle.std.specs.List.{list_all};
ghost use Rattle.seat_client.specs.Prelude.{is_host_byte};

use crate::asking::{Door, ask};
use crate::failure::AskFailure::{self, NoToken};
use crate::request::read_wanted;
use clap::builder::ValueParser;
use clap::error::ErrorKind;
use clap::{Arg, ArgAction, ArgMatches, Command, Error};
use seat_ask::End;
use std::alloc::{AllocError, Global};
use std::io::{Read, Write};
use std::rt::Env;
use std::time::Duration;
use std::{env, fs, io, str};

/// The most seconds for which a reply is asked for.
const PATIENCE_LIMIT: u64 = 86_400;

/// The most bytes of a token's file.
const TOKEN_LIMIT: u64 = 4096;

/// Whether the program was started to ask.
pub fn is_asked(rt: &(impl Env + AllocGlobal)) -> bool {
    let Ok(mut args) = env::args(rt) else {
        return false;
    };
    let _name = args.next();
    match args.next() {
        Some(word) => word.as_str() == "ask",
        None => false,
    }
}

/// The words that `station ask` takes.
fn command<'a>(alloc: Global) -> Result<Command<'a>, AllocError> {
    let url = Arg::new(alloc, "url")
        .long("url")
        .required(true)
        .value_name("U")
        .help("The server, as http://127.0.0.1:880");
    let token = Arg::new(alloc, "token-file")
        .long("token-file")
        .required(true)
        .value_name("F")
        .help("The file with the seat's token");
    let state = Arg::new(alloc, "state")
        .long("state")
        .required(true)
        .value_name("F")
        .help("The station's file, made where there is none; F.journal beside it is its log");
    let patience = Arg::new(alloc, "patience")
        .long("patience")
        .value_name("S")
        .value_parser(ValueParser::unsigned(1, PATIENCE_LIMIT))
        .help("For how many seconds a reply is asked for, 120 without it");
    let looked = Arg::new(alloc, "looked")
        .long("looked")
        .action(ArgAction::SetTrue)
        .help("A person has looked why the station stopped: go on with the expected number");
    Command::new(alloc, "station ask")
        .about("Makes one request of a seat, once: a line POST and its path, then a JSON object")
        .arg(url)?
        .arg(token)?
        .arg(state)?
        .arg(patience)?
        .arg(looked)
}

/// Whether a byte may stand in a host and its port: a letter, a digit, `-`, `.` or `:`.
fn is_host_byte(byte: u8) -> bool
    ensures { result ≡ is_host_byte byte }
{
    byte.is_ascii_alphanumeric() || byte == b'-' || byte == b'.' || byte == b':'
}

/// Whether each byte may stand in a host and its port.
fn is_host(bytes: &[u8]) -> bool
    ensures { result ≡ list_all is_host_byte bytes.now }
{
    bytes.iter().all(|byte| is_host_byte(*byte))
}

/// The host and the port of an address.
fn host_of(url: &str) -> Option<&str>
    ensures { IfSome result (λ host. list_all is_host_byte host.now ≡ true) }
{
    let rest = url.strip_prefix("http://")?;
    let host = rest.strip_suffix("/").unwrap_or(rest);
    let (name, port) = host.rsplit_once(':')?;
    if is_host(host.as_bytes()) && !name.is_empty() && !port.is_empty() {
        Some(host)
    } else {
        None
    }
}

/// Whether each byte is a visible one of ASCII.
fn is_visible(bytes: &[u8]) -> bool
    ensures { result ≡ list_all is_ascii_graphic bytes.now }
{
    bytes.iter().all(|byte| byte.is_ascii_graphic())
}

/// The token that the text of a file is, but for white space behind it.
fn token_in(text: &str) -> Option<&str>
    ensures { IfSome result (λ token. (list_all is_ascii_graphic token.now ≡ true)
        × (0 < length token.now)) }
{
    let token = text.trim_end();
    if !token.is_empty() && is_visible(token.as_bytes()) {
        Some(token)
    } else {
        None
    }
}

/// The token of a file.
fn token_of(rt: &HostRuntime, alloc: Global, name: &str) -> Result<String, AskFailure> {
    let file = fs::open(rt, name).or(Err(NoToken))?;
    let mut bytes = Vec::new(alloc);
    file.take(TOKEN_LIMIT)
        .read_to_end(&mut bytes)
        .or(Err(NoToken))?;
    let text = str::from_utf8(&bytes).or(Err(NoToken))?;
    let token = token_in(text).ok_or(NoToken)?;
    Ok(String::from_str(alloc, token)?)
}

/// Has done what the options ask for.
fn ask_by<R: Read + Drop, W: Write>(
    rt: &HostRuntime,
    alloc: Global,
    options: &ArgMatches<'_>,
    input: R,
    output: &mut W,
) -> Result<End, AskFailure> {
    let Some(host) = options.get_str("url").and_then(host_of) else {
        return Err(AskFailure::OtherUrl);
    };
    let Some(state) = options.get_str("state") else {
        return Err(AskFailure::CannotRead);
    };
    let token = token_of(rt, alloc, options.get_str("token-file").unwrap_or(""))?;
    let patience = match options.get_str("patience") {
        Some(text) => text.parse::<u64>().unwrap_or(120),
        None => 120,
    };
    let door = Door {
        host,
        token: token.as_str(),
        patience: Duration::from_secs(patience),
    };
    if options.get_str("looked") == Some("true") {
        return ask(rt, alloc, door, state, None, output);
    }
    let wanted = read_wanted(alloc, input)?;
    ask(rt, alloc, door, state, Some(&wanted), output)
}

/// What a person reads where a request wasn't done.
fn words_of(end: End) -> &'static str {
    match end {
        End::Done => "",
        End::Refused(_) => "station: refused\n",
        End::Stopped => "station: stopped: look why, then give --looked\n",
        End::Unsure => "station: unsure: the request stays under way\n",
        End::Waits => "station: no reply: the request stays under way\n",
    }
}

/// Has done what the program's words ask for, from standard input to standard output. Answers the
/// status with which the program ends.
pub fn ask_from_env(rt: &HostRuntime) -> u8 {
    let alloc = rt.alloc();
    match asked(rt, alloc) {
        Ok(status) => status,
        Err(failure) => {
            let _ = writeln!(&mut rt.stderr(), "station: {failure}");
            1
        }
    }
}

/// Shows help, or why words are refused. Answers the status.
fn shown(rt: &HostRuntime, error: &Error, text: &str) -> u8 {
    if error.kind() == ErrorKind::DisplayHelp {
        let _ = write!(&mut io::writer(rt), "{text}");
        return 0;
    }
    let _ = write!(&mut rt.stderr(), "{text}");
    2
}

/// The status with which asking ends.
fn asked(rt: &HostRuntime, alloc: Global) -> Result<u8, AskFailure> {
    let Ok(args) = env::args(rt) else {
        return Err(AskFailure::NoMemory);
    };
    let args: Vec<String> = args.collect(alloc)?;
    let words: Vec<&str> = args.iter().skip(1).map(|arg| arg.as_str()).collect(alloc)?;
    let command = command(alloc)?;
    let options = match command.try_get_matches_from(words.as_slice()) {
        Ok(options) => options,
        Err(error) => {
            let text = error.to_string(alloc)?;
            return Ok(shown(rt, &error, text.as_str()));
        }
    };
    let end = ask_by(rt, alloc, &options, rt.reader(), &mut io::writer(rt))?;
    let _ = write!(&mut rt.stderr(), "{}", words_of(end));
    Ok(end.status())
}
