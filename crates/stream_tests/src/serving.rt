//! The job of a port: what the program serves over a file, twice, and where it fails.
use crate::clients::{Scene, Script, Taking, served_clients};
use crate::jobs::status_of;
use crate::refused::found_at;
use station_cli::{Job, listen, read_job};
use std::alloc::Global;
use std::cell::RefCell;
use std::io::{ErrorKind, Write};
use std::net::{Ipv4Addr, Shutdown, SocketAddrV4, TcpStream};
use std::os::unix::fs::PermissionsExt;
use std::test::Fail;
use std::{fs, io};
use test_fixtures::samples::SITE;
use test_fixtures::streams::{ORDER, ORDERED};

/// A request that shows the order, and the reply where there is none.
pub const SHOWN: &str = "GET /v1/order?name=o1 HTTP/1.1\r\nAuthorization: Bearer abc\r\n\r\n";

pub const UNKNOWN: &str =
    "HTTP/1.1 404 Not Found\r\nContent-Type: application/json\r\nContent-Length: 33\r\n\r\n{\"error\":\"unknown_order\",\"no\":14}";

/// A client that asks once and closes its side.
const ONE: Script = (0, &[(0, SHOWN, 1), (0, "", 1)], Taking::After(0));

/// A client that asks once and says nothing more.
const SILENT: Script = (0, &[(0, SHOWN, 1)], Taking::After(0));

/// Ports that not everybody may listen on, and that may be taken: the least that is asked for by name, and the
/// greatest.
const FIXED_PORTS: &[u16] = &[80, 65_535];

/// How many clients come, one after another.
const MANY: usize = 70_000;

/// How long a remark behind a site's text is, that makes it one of 1,048,576 bytes, as many as it may have.
const LONG_REMARK: usize = 1_048_576 - SITE.len() - 3;

/// A site without a manager.
const SITE_ALONE: &str =
    "[[customer]]\nname = \"acme\"\nissuer = [\"acme-ca\"]\n[[customer.seat]]\nname = \"a1\"\ntoken = \"ba7816bf8f01cfea414140de5dae2223b00361a396177a9cb410ff61f20015ad\"\n";

/// Words of stores over which a port isn't served, the status and the line, and the name at which nothing may be
/// made then, where there is one.
const UNSERVED: &[(&str, &str, &str)] = &[
    ("--db no/such/file", "1 station: store fault 3\n", ""),
    (
        "--db served_none.db --existing",
        "1 station: store fault 2\n",
        "served_none.db",
    ),
    (
        "--db served_empty.db --existing",
        "1 station: store fault 2\n",
        "served_empty.db",
    ),
    ("--db taken.db", "1 station: listen failed\n", ""),
];

/// A writer that holds what is written, and at its flush connects to a port so often, sends there what each
/// connection is to send, and closes its side of it. At another address of this machine the port must refuse it.
#[derive(Drop)]
struct Callers<'r, 'q, 's, 'v, 'w> {
    rt: &'r HostRuntime,
    port: u16,
    requests: &'q [&'s str],
    streams: &'v RefCell<Vec<TcpStream>>,
    written: &'w RefCell<Vec<u8>>,
}

impl Write for Callers<'_, '_, '_, '_, '_> {
    fn write(&mut self, bytes: &[u8]) -> io::Result<usize> {
        match self.written.try_borrow_mut() {
            Ok(mut written) => written.extend_from_slice(bytes)?,
            Err(_) => return Err(io::Error::from(ErrorKind::Other)),
        }
        Ok(bytes.len())
    }

    fn flush(&mut self) -> io::Result<()> {
        let Ok(mut streams) = self.streams.try_borrow_mut() else {
            return Err(io::Error::from(ErrorKind::Other));
        };
        let other = SocketAddrV4::new(Ipv4Addr::new(127, 0, 0, 2), self.port);
        if TcpStream::connect(self.rt, other).is_ok() {
            return Err(io::Error::from(ErrorKind::AddrInUse));
        }
        for request in self.requests {
            let address = SocketAddrV4::new(Ipv4Addr::new(127, 0, 0, 1), self.port);
            let mut stream = TcpStream::connect(self.rt, address)?;
            stream.write_all(request.as_bytes())?;
            stream.shutdown(Shutdown::Write)?;
            if streams.push(stream).is_err() {
                return Err(io::Error::from(ErrorKind::OutOfMemory));
            }
        }
        Ok(())
    }
}

/// The job of words behind the program's name.
fn job_of(alloc: Global, words: &str) -> Result<Job, Fail> {
    let line = format!(in alloc; "station {words}")?;
    let words: Vec<&str> = line.split_whitespace().collect(alloc)?;
    read_job(alloc, words.as_slice()).map_err(|_| Fail::from("no job"))
}

/// A status, the lines on both outputs, and what connections got behind each other.
fn joined(
    alloc: Global,
    status: u8,
    written: Vec<u8>,
    err: Vec<u8>,
    streams: Vec<TcpStream>,
) -> Result<String, Fail> {
    let mut text = format!(in alloc; "{status} ")?;
    text.push_str(String::from_utf8(written).map_err(|_| "no text")?.as_str())?;
    text.push_str(String::from_utf8(err).map_err(|_| "no text")?.as_str())?;
    for stream in streams {
        text.push_str(io::read_to_string(alloc, stream)?.as_str())?;
    }
    Ok(text)
}

/// How the program ends, what it writes and what each connection gets, in a run of its port over a site and a
/// store with these words: the status, the lines on both outputs, and the replies behind each other.
fn served(
    rt: &HostRuntime,
    alloc: Global,
    port: u16,
    store: &str,
    requests: &[&str],
) -> Result<String, Fail> {
    let count = requests.len();
    let words = format!(in alloc; "serve --port {port} --connections {count} {store}")?;
    let job = job_of(alloc, words.as_str())?;
    let streams = RefCell::new(Vec::new(alloc));
    let written = RefCell::new(Vec::new(alloc));
    let callers = Callers {
        rt,
        port,
        requests,
        streams: &streams,
        written: &written,
    };
    let mut err = Vec::new(alloc);
    let status = status_of(rt, alloc, &job, b"".as_slice(), callers, &mut err);
    joined(
        alloc,
        status,
        written.into_inner(),
        err,
        streams.into_inner(),
    )
}

/// How a replay with these words ends and what it writes: the status, and what is on both outputs.
fn replayed(rt: &HostRuntime, alloc: Global, words: &str, stream: &str) -> Result<String, Fail> {
    let job = job_of(alloc, words)?;
    let mut out = Vec::new(alloc);
    let mut err = Vec::new(alloc);
    let status = status_of(rt, alloc, &job, stream.as_bytes(), &mut out, &mut err);
    joined(alloc, status, out, err, Vec::new(alloc))
}

/// How the program ends and what it answers to a stream: the status, the lines on both outputs but that of a
/// port, and the replies. The words are those of `replay`, or of `serve` without a port, which is served to one
/// connection.
pub fn done_by(rt: &HostRuntime, alloc: Global, words: &str, stream: &str) -> Result<String, Fail> {
    let Some(store) = words.strip_prefix("serve ") else {
        return replayed(rt, alloc, words, stream);
    };
    let port = free_port(rt)?;
    let told = served(rt, alloc, port, store, &[stream])?;
    let line = format!(in alloc; "listening on 127.0.0.1:{port}\n")?;
    Ok(told.as_str().replace(alloc, line.as_str(), "")?)
}

/// A port of this machine that nothing listens on.
fn free_port(rt: &HostRuntime) -> Result<u16, Fail> {
    let listener = listen(rt, 0).map_err(|_| "no port")?;
    Ok(listener.local_addr()?.port())
}

/// The status of success, the line of a port, and then what connections got.
fn with_line(alloc: Global, port: u16, replies: &[&str]) -> Result<String, Fail> {
    let mut text = format!(in alloc; "0 listening on 127.0.0.1:{port}\n")?;
    for reply in replies {
        text.push_str(reply)?;
    }
    Ok(text)
}

#[test]
fn the_port_is_of_this_machine_alone(rt: HostRuntime) -> Result<(), Fail> {
    let listener = listen(&rt, 0).map_err(|_| "no port")?;
    let ip = listener.local_addr()?.ip().to_string(rt.alloc())?;
    assert_eq!(rt; ip.as_str(), "127.0.0.1");
    for port in FIXED_PORTS {
        if let Ok(listener) = listen(&rt, *port) {
            let address = listener.local_addr()?;
            let ip = address.ip().to_string(rt.alloc())?;
            assert_eq!(rt; (ip.as_str(), address.port()), ("127.0.0.1", *port));
        }
    }
    Ok(())
}

#[test]
fn what_a_first_run_issued_the_second_knows(rt: HostRuntime) -> Result<(), Fail> {
    let alloc = rt.alloc();
    let remark = "x".repeat(alloc, LONG_REMARK)?;
    let site = format!(in alloc; "{SITE}# {remark}\n")?;
    fs::write(&rt, "served.toml", site.as_str())?;
    let port = free_port(&rt)?;
    let words = "--site served.toml --db served.db";
    let first = served(&rt, alloc, port, words, &[SHOWN, ORDER])?;
    let wanted = with_line(alloc, port, &[UNKNOWN, ORDERED])?;
    assert_eq!(rt; first.as_str(), wanted.as_str());
    let again = "--site served.toml --db served.db --existing";
    let second = served(&rt, alloc, port, again, &[SHOWN, ORDER])?;
    let wanted = with_line(alloc, port, &[ORDERED, ORDERED])?;
    assert_eq!(rt; second.as_str(), wanted.as_str());
    for name in ["served.db", "served.db-wal"] {
        let mode = fs::metadata(&rt, name)?.permissions().mode();
        assert_eq!(rt; mode & 0o777, 0o600, "{name}");
    }
    Ok(())
}

/// A program that ends has copied the log into the database file.
#[test]
fn the_file_alone_is_the_store_behind_a_run(rt: HostRuntime) -> Result<(), Fail> {
    let alloc = rt.alloc();
    fs::write(&rt, "alone.toml", SITE)?;
    let wanted = format!(in alloc; "0 {ORDERED}")?;
    let first = done_by(&rt, alloc, "serve --site alone.toml --db alone.db", ORDER)?;
    assert_eq!(rt; first.as_str(), wanted.as_str());
    fs::write(&rt, "copy.db", fs::read(&rt, "alone.db")?.as_slice())?;
    let words = "replay --site alone.toml --db copy.db --existing";
    let second = done_by(&rt, alloc, words, SHOWN)?;
    assert_eq!(rt; second.as_str(), wanted.as_str());
    Ok(())
}

/// Serves a port over a store that can't be: how the program ends and what it writes, and behind an arrow
/// what is at the name then, where nothing may be made there and that isn't what was there before.
fn told_unserved(
    rt: &HostRuntime,
    alloc: Global,
    port: u16,
    row: &(&str, &str, &str),
) -> Result<String, Fail> {
    let store = format!(in alloc; "--site unserved.toml {}", row.0)?;
    let before = found_at(rt, row.2)?;
    let told = served(rt, alloc, port, store.as_str(), &[SHOWN])?;
    let after = found_at(rt, row.2)?;
    if after.as_str() == before.as_str() {
        return Ok(told);
    }
    Ok(format!(in alloc; "{told} -> {after}")?)
}

#[test]
fn failures_of_a_port_are_told_behind_those_of_the_store(rt: HostRuntime) -> Result<(), Fail> {
    fs::write(&rt, "unserved.toml", SITE)?;
    fs::write(&rt, "served_empty.db", "")?;
    let taken = listen(&rt, 0).map_err(|_| "no port")?;
    let port = taken.local_addr()?.port();
    for row in UNSERVED {
        let told = told_unserved(&rt, rt.alloc(), port, row)?;
        assert_eq!(rt; told.as_str(), row.1, "{}", row.0);
    }
    Ok(())
}

/// Serves so many simulated clients that ask once, for a site without a manager, where as many come: how many
/// of them took their reply and gave way to the next in their time, which is 50 ms each, or the line of the
/// failure. All but the last say nothing more.
fn replies_to_many(alloc: Global, count: u32, come: usize) -> Result<String, Fail> {
    let mut scripts = Vec::new(alloc);
    for _client in 1..come {
        scripts.push(SILENT)?;
    }
    scripts.push(ONE)?;
    let scene = Scene {
        site: SITE_ALONE,
        begun: 0,
        failing: &[],
        scripts: scripts.as_slice(),
        count,
    };
    let (accepted, outcomes) = served_clients(alloc, &scene)?;
    match accepted {
        Ok(accepted) => {
            let mut replies = 0u32;
            for (place, outcome) in outcomes.iter().enumerate() {
                let behind = place.saturating_add(1).min(come.saturating_sub(1));
                let wanted = format!(in alloc; "404:33 until {}", behind.saturating_mul(50))?;
                if outcome.told(alloc)?.as_str() == wanted.as_str() {
                    replies = replies.saturating_add(1);
                }
            }
            Ok(format!(in alloc; "{accepted} accepted, {replies} replied to")?)
        }
        Err(failure) => Ok(failure.to_string(alloc)?),
    }
}

#[test]
fn each_connection_is_served(rt: HostRuntime) -> Result<(), Fail> {
    for (count, come, wanted) in [
        (70_000, MANY, "70000 accepted, 70000 replied to"),
        (3, 2, "station: accept failed"),
    ] {
        let told = replies_to_many(rt.alloc(), count, come)?;
        assert_eq!(rt; told.as_str(), wanted, "{count} of {come}");
    }
    Ok(())
}
