//! The program's jobs over files, readers and writers: how they end, and the line of a failure.
use sqlite_disk::Unknown;
use station_cli::{Job, listen, read_job, run};
use std::alloc::Global;
use std::io::{Read, Write};
use std::net::{Ipv4Addr, SocketAddrV4, TcpStream};
use std::test::Fail;
use std::{fs, io};
use test_fixtures::samples::{MAP, SITE};
use test_fixtures::streams::ORDER;
use text_core::Text;

/// Lines of words, the statuses that their jobs end with over an empty stream, and the lines on
/// standard error.
const ENDS: &[(&str, u8, &str)] = &[
    ("station check-map ends_map.toml", 0, ""),
    (
        "station check-map none.toml",
        1,
        "station: cannot read none.toml\n",
    ),
    ("station check-map ends.toml", 1, "station: map fault 2\n"),
    ("station check-site ends.toml", 0, ""),
    ("station check-site ends.toml --from ends.toml", 0, ""),
    (
        "station check-site none.toml --from ends.toml",
        1,
        "station: cannot read none.toml\n",
    ),
    (
        "station check-site ends.toml --from none.toml",
        1,
        "station: cannot read none.toml\n",
    ),
    (
        "station check-site ends.toml --from ends_map.toml",
        1,
        "station: site fault 2\n",
    ),
    (
        "station check-site ends.toml --from ends.toml.old",
        1,
        "station: site fault 2\n",
    ),
    ("station replay --site ends.toml", 0, ""),
    (
        "station replay --site none.toml",
        1,
        "station: cannot read none.toml\n",
    ),
    ("station replay --site ends.toml --db ends.db", 0, ""),
    (
        "station replay --site none.toml --db ends.db",
        1,
        "station: cannot read none.toml\n",
    ),
    (
        "station replay --site ends_map.toml --db ends.db",
        1,
        "station: site fault 2\n",
    ),
    (
        "station replay --site ends.toml --db none.db --existing",
        1,
        "station: store fault 2\n",
    ),
];

/// Lines of words for `serve` without its port, the statuses that their jobs end with for a client that says
/// nothing, and the lines on standard error.
const ENDS_OF_PORTS: &[(&str, u8, &str)] = &[
    (
        "station serve --site ends.toml --db ends_of_port.db --connections 1",
        0,
        "",
    ),
    (
        "station serve --site none.toml --db ends_of_port.db --connections 1",
        1,
        "station: cannot read none.toml\n",
    ),
    (
        "station serve --site ends_map.toml --db ends_of_port.db --connections 1",
        1,
        "station: site fault 2\n",
    ),
    (
        "station serve --site ends.toml --db none.db --existing --connections 1",
        1,
        "station: store fault 2\n",
    ),
];

/// How many bytes the line has that says what the sample map is.
const LINE_LENGTH: usize = 20;

/// The line for a writer that fails.
const WRITE_FAILED: &str = "station: write failed\n";

/// A reader that fails, and a writer that takes nothing.
const BROKEN: Short = Short {
    room: 0,
    flushes: true,
};

/// The job of one kind for the file with a name.
pub fn job(alloc: Global, kind: &str, name: &str) -> Result<Job, Fail> {
    let name = Text::copy_of(alloc, name)?;
    if kind == "replay" {
        return Ok(Job::Replay {
            site: name,
            store: None,
        });
    }
    if kind == "check-site" {
        return Ok(Job::CheckSite {
            site: name,
            old: None,
        });
    }
    Ok(Job::CheckMap { map: name })
}

/// Does a job over an input and two outputs: its status. It alone names the program's run, whose clauses
/// each call has the prover read again.
pub fn status_of<R: Read + Drop, W: Write + Drop, E: Write>(
    rt: &HostRuntime,
    alloc: Global,
    job: &Job,
    input: R,
    output: W,
    err: &mut E,
) -> u8 {
    run(rt, alloc, job, input, output, err, Unknown).status
}

/// Does a job over an input: what was written on standard output and then on standard error, where the
/// status is 1 exactly where something is on standard error.
pub fn written_by(
    rt: &HostRuntime,
    alloc: Global,
    job: &Job,
    input: &[u8],
) -> Result<String, Fail> {
    let mut out = Vec::new(alloc);
    let mut err = Vec::new(alloc);
    let status = status_of(rt, alloc, job, input, &mut out, &mut err);
    if (status == 1) == err.is_empty() {
        return Err(Fail::from("another status"));
    }
    out.extend_from_slice(err.as_slice())?;
    Ok(String::from_utf8(out).map_err(|_| "no text")?)
}

/// A writer that takes so many bytes and then fails, and may fail to flush. As a reader it fails.
#[derive(Drop)]
pub struct Short {
    pub room: usize,
    pub flushes: bool,
}

impl Read for Short {
    fn read(&mut self, _room: &mut [u8]) -> io::Result<usize> {
        Err(io::Error::from(io::ErrorKind::BrokenPipe))
    }
}

impl Write for Short {
    fn write(&mut self, bytes: &[u8]) -> io::Result<usize> {
        if self.room == 0 {
            return Err(io::Error::from(io::ErrorKind::StorageFull));
        }
        let taken = self.room.min(bytes.len());
        self.room -= taken;
        Ok(taken)
    }

    fn flush(&mut self) -> io::Result<()> {
        if !self.flushes {
            return Err(io::Error::from(io::ErrorKind::StorageFull));
        }
        Ok(())
    }
}

/// A reader whose each call is interrupted.
#[derive(Drop)]
struct Interrupting;

impl Read for Interrupting {
    fn read(&mut self, _room: &mut [u8]) -> io::Result<usize> {
        Err(io::Error::from(io::ErrorKind::Interrupted))
    }
}

/// A writer that takes a byte at a time.
#[derive(Drop)]
struct Slow {
    taken: Vec<u8>,
}

impl Write for Slow {
    fn write(&mut self, bytes: &[u8]) -> io::Result<usize> {
        match bytes.first() {
            Some(byte) => {
                self.taken.push(*byte)?;
                Ok(1)
            }
            None => Ok(0),
        }
    }

    fn flush(&mut self) -> io::Result<()> {
        Ok(())
    }
}

/// A writer that takes all, and at its flush comes to a port as so many clients that say nothing. The flush
/// may fail then.
#[derive(Drop)]
struct Silent<'r> {
    rt: &'r HostRuntime,
    port: u16,
    clients: u32,
    flushes: bool,
}

impl Write for Silent<'_> {
    fn write(&mut self, bytes: &[u8]) -> io::Result<usize> {
        Ok(bytes.len())
    }

    fn flush(&mut self) -> io::Result<()> {
        for _client in 0..self.clients {
            let address = SocketAddrV4::new(Ipv4Addr::new(127, 0, 0, 1), self.port);
            let _stream = TcpStream::connect(self.rt, address)?;
        }
        if !self.flushes {
            return Err(io::Error::from(io::ErrorKind::StorageFull));
        }
        Ok(())
    }
}

/// A port of this machine that nothing listens on.
fn free_port(rt: &HostRuntime) -> Result<u16, Fail> {
    let listener = listen(rt, 0).map_err(|_| "no port")?;
    Ok(listener.local_addr()?.port())
}

/// Does the job of a line of words, `serve` over a port, to an output that may fail to flush: its status, and
/// the line on standard error.
fn end_of_line(
    rt: &HostRuntime,
    alloc: Global,
    line: &str,
    port: u16,
    flushes: bool,
) -> Result<String, Fail> {
    let port_word = format!(in alloc; "--port={port}")?;
    let mut words: Vec<&str> = line.split_whitespace().collect(alloc)?;
    if line.contains(" serve ") {
        words.push(port_word.as_str())?;
    }
    let job = read_job(alloc, words.as_slice()).map_err(|_| "no job")?;
    let clients = match &job {
        Job::Serve { connections, .. } => *connections,
        _ => 0,
    };
    let output = Silent {
        rt,
        port,
        clients,
        flushes,
    };
    let mut err = Vec::new(alloc);
    let status = status_of(rt, alloc, &job, b"".as_slice(), output, &mut err);
    let err = String::from_utf8(err).map_err(|_| "no text")?;
    Ok(format!(in alloc; "{status} {err}")?)
}

/// Does a job to a writer that may fail: the line on standard error.
fn line_of_failure(
    rt: &HostRuntime,
    alloc: Global,
    job: &Job,
    input: impl Read + Drop,
    output: Short,
) -> Result<String, Fail> {
    let mut err = Vec::new(alloc);
    let status = status_of(rt, alloc, job, input, output, &mut err);
    if (status == 1) == err.is_empty() {
        return Err(Fail::from("another status"));
    }
    Ok(String::from_utf8(err).map_err(|_| "no text")?)
}

/// Checks the sample map's file to a writer that takes so many bytes, and may fail to flush: the line
/// on standard error.
fn line_of_check(
    rt: &HostRuntime,
    alloc: Global,
    room: usize,
    flushes: bool,
) -> Result<String, Fail> {
    let job = job(alloc, "check-map", "map.toml")?;
    line_of_failure(rt, alloc, &job, b"".as_slice(), Short { room, flushes })
}

/// Replays an input for the sample site's file to a writer that takes nothing: the line on standard
/// error.
fn line_of_replay(
    rt: &HostRuntime,
    alloc: Global,
    input: impl Read + Drop,
) -> Result<String, Fail> {
    let job = job(alloc, "replay", "site.toml")?;
    line_of_failure(rt, alloc, &job, input, BROKEN)
}

/// Does the jobs of these lines, for the sample site and map: what the first that doesn't end as its row
/// says came to, or nothing.
fn difference_of_ends(rt: &HostRuntime, rows: &[(&str, u8, &str)]) -> Result<String, Fail> {
    fs::write(rt, "ends.toml", SITE)?;
    fs::write(rt, "ends_map.toml", MAP)?;
    fs::write(rt, "ends.toml.old", MAP)?;
    let port = free_port(rt)?;
    for (line, status, err) in rows {
        let told = end_of_line(rt, rt.alloc(), line, port, true)?;
        let wanted = format!(in rt.alloc(); "{status} {err}")?;
        if told.as_str() != wanted.as_str() {
            return Ok(format!(in rt.alloc(); "{line}: {wanted} -> {told}")?);
        }
    }
    Ok(String::new(rt.alloc()))
}

#[test]
fn jobs_over_streams_end_with_their_status(rt: HostRuntime) -> Result<(), Fail> {
    let found = difference_of_ends(&rt, ENDS)?;
    assert_eq!(rt; found.as_str(), "");
    Ok(())
}

#[test]
fn jobs_over_ports_end_with_their_status(rt: HostRuntime) -> Result<(), Fail> {
    let found = difference_of_ends(&rt, ENDS_OF_PORTS)?;
    assert_eq!(rt; found.as_str(), "");
    Ok(())
}

#[test]
fn a_port_whose_line_is_not_written_is_not_served(rt: HostRuntime) -> Result<(), Fail> {
    fs::write(&rt, "ends.toml", SITE)?;
    let line = "station serve --site ends.toml --db ends_unwritten.db --connections 1";
    let told = end_of_line(&rt, rt.alloc(), line, free_port(&rt)?, false)?;
    assert_eq!(rt; told.as_str(), "1 station: write failed\n");
    Ok(())
}

/// What is taken a byte at a time of the line on standard error is the line.
#[test]
fn a_line_is_written_whole(rt: HostRuntime) -> Result<(), Fail> {
    let alloc = rt.alloc();
    let unread = job(alloc, "check-map", "none.toml")?;
    let mut err = Slow {
        taken: Vec::new(alloc),
    };
    let status = status_of(&rt, alloc, &unread, b"".as_slice(), BROKEN, &mut err);
    assert_eq!(rt; status, 1);
    let line = b"station: cannot read none.toml\n";
    assert_eq!(rt; err.taken.as_slice(), line.as_slice());
    Ok(())
}

#[test]
fn failed_reads_and_writes_are_told(rt: HostRuntime) -> Result<(), Fail> {
    fs::write(&rt, "map.toml", MAP)?;
    fs::write(&rt, "site.toml", SITE)?;
    for room in 0..LINE_LENGTH + 1 {
        let told = line_of_check(&rt, rt.alloc(), room, true)?;
        let wanted = if room < LINE_LENGTH { WRITE_FAILED } else { "" };
        assert_eq!(rt; told.as_str(), wanted, "{room}");
        let told = line_of_check(&rt, rt.alloc(), room, false)?;
        assert_eq!(rt; told.as_str(), WRITE_FAILED, "{room}");
    }
    let told = line_of_replay(&rt, rt.alloc(), BROKEN)?;
    assert_eq!(rt; told.as_str(), "station: read failed\n");
    let told = line_of_replay(&rt, rt.alloc(), ORDER.as_bytes())?;
    assert_eq!(rt; told.as_str(), WRITE_FAILED);
    Ok(())
}

#[test]
fn the_limit_of_calls_is_told(rt: HostRuntime) -> Result<(), Fail> {
    fs::write(&rt, "site.toml", SITE)?;
    let told = line_of_replay(&rt, rt.alloc(), Interrupting)?;
    assert_eq!(rt; told.as_str(), "station: turn limit\n");
    Ok(())
}
