//! The words of the command line: the job that they give, what is printed where they give none, and that
//! all of them are read.
use crate::jobs::Short;
use station_cli::{Job, StoreName, VERSION, WordsFault, job_from_env, read_job, report};
use std::alloc::{AllocError, Global};
use std::env::FillError;
use std::io;
use std::io::Write;
use std::rt::Env;
use std::test::Fail;

/// Lines of words, and what becomes of each: the job and the names and numbers that it has, help,
/// whose text says how the program is used, the version, whose text has its number alone, or a
/// refusal, whose text names an error.
const LINES: &[(&str, &str)] = &[
    ("station replay --site site.toml", "replay site.toml"),
    (
        "station replay --site=../a/site.toml",
        "replay ../a/site.toml",
    ),
    ("station replay --site=--site", "replay --site"),
    ("station replay --site a --db x", "replay a x"),
    ("station replay --db x --site a", "replay a x"),
    ("station replay --site=a --db=../x/y", "replay a ../x/y"),
    ("station replay --site a --db=--db", "replay a --db"),
    (
        "station serve --site a --db x --port 80 --connections 1",
        "serve a x 80 1",
    ),
    (
        "station serve --connections=1000000 --port=65535 --db=x --site=a",
        "serve a x 65535 1000000",
    ),
    (
        "station serve --existing --site a --db x --port 80 --connections 1",
        "serve a x existing 80 1",
    ),
    (
        "station replay --site a --db x --existing",
        "replay a x existing",
    ),
    ("station check-map map.toml", "check-map map.toml"),
    ("station check-map ../a/map.toml", "check-map ../a/map.toml"),
    ("station check-map -- --help", "check-map --help"),
    ("station check-site site.toml", "check-site site.toml"),
    (
        "station check-site new.toml --from old.toml",
        "check-site new.toml from old.toml",
    ),
    ("station check-site --from=a b", "check-site b from a"),
    ("station check-site --help", "help"),
    ("station --help", "help"),
    ("station replay --help", "help"),
    ("station replay --site site.toml --help", "help"),
    ("station replay --db x --help", "help"),
    ("station serve --help", "help"),
    ("station help serve", "help"),
    ("station help", "help"),
    ("station help replay", "help"),
    ("station check-map --help", "help"),
    ("station check-map map.toml -h", "help"),
    ("station help check-map", "help"),
    ("station --version", "version"),
    ("station -V", "version"),
    ("station --version --help", "version"),
    ("station --version serve", "version"),
    ("station --help --version", "help"),
    ("", "refused"),
    ("station", "refused"),
    ("replay --site site.toml", "refused"),
    ("station frobnicate", "refused"),
    ("station --version=1", "refused"),
    ("station version", "refused"),
    ("station serve --version", "refused"),
    ("station replay --site a -V", "refused"),
    ("station help frobnicate", "refused"),
    ("station replay", "refused"),
    ("station replay site.toml", "refused"),
    ("station replay --site", "refused"),
    ("station replay --site a --site b", "refused"),
    ("station replay --site a b", "refused"),
    ("station replay --db x", "refused"),
    ("station replay --site a --existing", "refused"),
    (
        "station replay --site a --db x --existing --existing",
        "refused",
    ),
    ("station replay --site a --db x --existing=yes", "refused"),
    ("station replay --site a --db", "refused"),
    ("station replay --db --site a", "refused"),
    ("station replay --site a --db x --db y", "refused"),
    ("station replay --site a --db x y", "refused"),
    ("station --site a replay", "refused"),
    ("station --db x replay --site a", "refused"),
    ("check-map map.toml", "refused"),
    ("station check-map", "refused"),
    ("station check-map --", "refused"),
    ("station check-map a b", "refused"),
    ("station check-map --map a", "refused"),
    ("station check-map --site a", "refused"),
    ("station check-map a --site b", "refused"),
    ("station check-map a --db b", "refused"),
    ("station check-map --db b", "refused"),
    ("station replay check-map a", "refused"),
    ("station check-site", "refused"),
    ("station check-site a b", "refused"),
    ("station check-site --from a", "refused"),
    ("station check-site a --from", "refused"),
    ("station check-site a --from b --from c", "refused"),
    ("station check-map a --from b", "refused"),
    (
        "station serve --site a --db x --port 0 --connections 1",
        "refused",
    ),
    (
        "station serve --site a --db x --port 65536 --connections 1",
        "refused",
    ),
    (
        "station serve --site a --db x --port http --connections 1",
        "refused",
    ),
    (
        "station serve --site a --db x --port 80 --connections 0",
        "refused",
    ),
    (
        "station serve --site a --db x --port 80 --connections 1000001",
        "refused",
    ),
    (
        "station serve --site a --port 80 --connections 1",
        "refused",
    ),
    ("station serve --db x --port 80 --connections 1", "refused"),
    ("station serve --site a --db x --connections 1", "refused"),
    ("station serve --site a --db x --port 80", "refused"),
];

/// Names of files that are one word of a line.
const SITE_NAMES: &[&str] = &["a site.toml", " ", "\u{e4}\n"];

/// Faults, by their kind and text, and what is printed for each: the status, and what is on the output
/// and on standard error.
const FAULTS: &[(&str, &str)] = &[
    ("help", "0 [how it is used] []"),
    ("refused", "2 [] [how it is used]"),
    ("no memory", "1 [] [station: no memory\n]"),
];

/// Long lines of words, how many there are, and what becomes of them: a job with the names and numbers
/// that it has, or the first line of the refusal. No line that is longer than twelve words is a job.
const LONG_LINES: &[(usize, &str, &str)] = &[
    (
        10,
        "station serve --site a --db x --port 80 --connections 7",
        "serve a x 80 7",
    ),
    (
        11,
        "station serve --site a --db x --port 80 --connections 7 --existing",
        "serve a x existing 80 7",
    ),
    (
        12,
        "station serve --site a --db x --port 80 --connections 7 --existing --",
        "serve a x existing 80 7",
    ),
    (
        13,
        "station serve --site a --db x --port 80 --connections 7 --existing -- b",
        "error: unexpected argument 'b' found",
    ),
    (
        19,
        "station serve --site a --db x --port 80 --connections 7 --existing --site b --db y --port 81 --connections 8",
        "error: the argument '--site <F>' cannot be used multiple times",
    ),
];

/// The word for a text that has a part, or else the text.
fn word_for<'a>(text: &'a str, part: &str, word: &'a str) -> &'a str {
    if text.contains(part) { word } else { text }
}

/// The store that a job names.
fn store_told(alloc: Global, store: &StoreName) -> Result<String, AllocError> {
    let existing = if store.is_existing { " existing" } else { "" };
    format!(in alloc; "{}{existing}", store.file.as_str())
}

/// A job, and the names and numbers that it has.
fn job_told(alloc: Global, job: &Job) -> Result<String, AllocError> {
    match job {
        Job::Serve {
            site,
            store,
            port,
            connections,
        } => {
            let store = store_told(alloc, store)?;
            format!(in alloc; "serve {} {store} {port} {connections}", site.as_str())
        }
        Job::Replay {
            site,
            store: Some(store),
        } => {
            let store = store_told(alloc, store)?;
            format!(in alloc; "replay {} {store}", site.as_str())
        }
        Job::Replay { site, store: None } => format!(in alloc; "replay {}", site.as_str()),
        Job::CheckMap { map } => format!(in alloc; "check-map {}", map.as_str()),
        Job::CheckSite { site, old: None } => format!(in alloc; "check-site {}", site.as_str()),
        Job::CheckSite {
            site,
            old: Some(old),
        } => format!(in alloc; "check-site {} from {}", site.as_str(), old.as_str()),
    }
}

/// The word for a text that is printed where words ask for one.
fn shown(alloc: Global, text: &str) -> Result<String, AllocError> {
    let version = format!(in alloc; "station {VERSION}\n")?;
    let word = if text == version.as_str() {
        "version"
    } else {
        word_for(text, "Usage: station", "help")
    };
    String::from_str(alloc, word)
}

/// What becomes of words, by what was read.
fn outcome_of(alloc: Global, found: &Result<Job, WordsFault>) -> Result<String, AllocError> {
    match found {
        Ok(job) => job_told(alloc, job),
        Err(WordsFault::Help(text)) => shown(alloc, text.as_str()),
        Err(WordsFault::Refused(text)) => {
            String::from_str(alloc, word_for(text.as_str(), "error: ", "refused"))
        }
        Err(WordsFault::NoMemory) => String::from_str(alloc, "no memory"),
    }
}

/// What becomes of words.
fn outcome(alloc: Global, words: &[&str]) -> Result<String, AllocError> {
    outcome_of(alloc, &read_job(alloc, words))
}

/// What becomes of the words of a line.
fn outcome_of_line(alloc: Global, line: &str) -> Result<String, AllocError> {
    let words: Vec<&str> = line.split_whitespace().collect(alloc)?;
    outcome(alloc, words.as_slice())
}

/// A system that passes its program these words.
#[derive(Drop)]
struct Words<'a> {
    words: &'a [&'a str],
}

impl Env for Words<'_> {
    fn arg(&self, i: usize, buf: &mut [u8]) -> Result<usize, FillError> {
        let Some(word) = self.words.get(i) else {
            return Err(FillError::NotPresent);
        };
        if word.len() > buf.len() {
            return Err(FillError::TooLong);
        }
        buf[..word.len()].copy_from_slice(word.as_bytes());
        Ok(word.len())
    }

    fn var(&self, _name: &str, _buf: &mut [u8]) -> Result<usize, FillError> {
        Err(FillError::NotPresent)
    }

    fn var_at(&self, _i: usize, _buf: &mut [u8]) -> Result<usize, FillError> {
        Err(FillError::NotPresent)
    }
}

/// The fault of a kind, with a text.
fn fault_of(alloc: Global, kind: &str) -> Result<WordsFault, Fail> {
    let text = String::from_str(alloc, "how it is used")?;
    Ok(match kind {
        "help" => WordsFault::Help(text),
        "refused" => WordsFault::Refused(text),
        _ => WordsFault::NoMemory,
    })
}

/// What is printed for a fault of a kind.
fn reported(alloc: Global, kind: &str) -> Result<String, Fail> {
    let mut out = Vec::new(alloc);
    let mut err = Vec::new(alloc);
    let status = report(&fault_of(alloc, kind)?, &mut out, &mut err);
    let out = String::from_utf8(out).map_err(|_| "no text")?;
    let err = String::from_utf8(err).map_err(|_| "no text")?;
    Ok(format!(in alloc; "{status} [{out}] [{err}]")?)
}

#[test]
fn words_give_their_jobs(rt: HostRuntime) -> Result<(), Fail> {
    for row in LINES {
        let told = outcome_of_line(rt.alloc(), row.0)?;
        assert_eq!(rt; told.as_str(), row.1, "{}", row.0);
    }
    for name in SITE_NAMES {
        let told = outcome(rt.alloc(), &["station", "replay", "--site", name])?;
        assert_eq!(rt; told.as_str().strip_prefix("replay "), Some(*name));
    }
    Ok(())
}

#[test]
fn help_tells_of_the_version(rt: HostRuntime) -> Result<(), Fail> {
    let text = match read_job(rt.alloc(), &["station", "--help"]) {
        Err(WordsFault::Help(text)) => text,
        _ => return Err(Fail::from("no help")),
    };
    assert!(rt; text.as_str().contains("-V, --version"), "{text}");
    Ok(())
}

#[test]
fn faults_of_words_are_printed(rt: HostRuntime) -> Result<(), Fail> {
    for row in FAULTS {
        let told = reported(rt.alloc(), row.0)?;
        assert_eq!(rt; told.as_str(), row.1);
    }
    let mut err = Vec::new(rt.alloc());
    let mut full = Short {
        room: 3,
        flushes: true,
    };
    let status = report(&fault_of(rt.alloc(), "help")?, &mut full, &mut err);
    assert_eq!(rt; status, 1);
    assert_eq!(rt; err.as_slice(), b"station: write failed\n".as_slice());
    Ok(())
}

/// How many words a line has, and what becomes of them where the system passes them.
fn passed(alloc: Global, line: &str) -> Result<(usize, Result<Job, WordsFault>), Fail> {
    let words: Vec<&str> = line.split_whitespace().collect(alloc)?;
    let system = Words {
        words: words.as_slice(),
    };
    Ok((words.len(), job_from_env(&(system, alloc))))
}

#[test]
fn all_words_are_read(rt: HostRuntime) -> Result<(), Fail> {
    for row in LINES {
        let (_count, found) = passed(rt.alloc(), row.0)?;
        let told = outcome_of(rt.alloc(), &found)?;
        assert_eq!(rt; told.as_str(), row.1, "{}", row.0);
    }
    for row in LONG_LINES {
        let (count, found) = passed(rt.alloc(), row.1)?;
        assert_eq!(rt; count, row.0, "{}", row.1);
        let told = match &found {
            Err(WordsFault::Refused(text)) => text.as_str().lines().next().unwrap_or(""),
            _ => "",
        };
        let job = outcome_of(rt.alloc(), &found)?;
        let told = if told.is_empty() { job.as_str() } else { told };
        assert_eq!(rt; told, row.2, "{}", row.1);
    }
    let system = Words {
        words: &["station", "check-map", " a b "],
    };
    let told = outcome_of(rt.alloc(), &job_from_env(&(system, rt.alloc())))?;
    assert_eq!(rt; told.as_str(), "check-map  a b ");
    Ok(())
}
