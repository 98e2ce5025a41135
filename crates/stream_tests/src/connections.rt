//! Connections to a port of this machine.
use crate::serving::{SHOWN, UNKNOWN};
use office_core::MemKeep;
use site_core::read_site;
use station_cli::{Bounds, Duplex, Failure, listen, serve_connections};
use std::alloc::Global;
use std::io;
use std::io::Write;
use std::net::{OpenListener, SocketAddr, TcpStream};
use std::test::Fail;
use std::time::{Clock, Duration};
use test_fixtures::samples::SITE;
use test_fixtures::streams::{BAD_HEAD, LONG_HEAD, ORDER};
use yield_counts::Counted;

/// The reply to the order on a connection that ends with it.
const ORDERED_LAST: &str =
    "HTTP/1.1 200 OK\r\nContent-Type: application/json\r\nContent-Length: 132\r\nConnection: close\r\n\r\n{\"first\":998,\"issuer\":\"acme-ca\",\"mac\":null,\"macs\":0,\"name\":\"o1\",\"next\":\"A998\",\"not_before\":null,\"prefix\":\"A\",\"quantity\":2,\"width\":3}";

/// A connection to an address, to which these bytes are written.
fn written_to(rt: &HostRuntime, address: SocketAddr, bytes: &[u8]) -> Result<TcpStream, Fail> {
    let mut stream = TcpStream::connect(rt, address)?;
    stream.write_all(bytes)?;
    Ok(stream)
}

/// The bounds of the program, but that a new connection which says nothing gives way at once.
fn bounds() -> Bounds {
    Bounds {
        slice: Duration::from_millis(2),
        first_byte: Duration::from_millis(10),
        ..Bounds::of_program()
    }
}

/// Serves so many connections for the site of a text, over memory without rows: how many were given, or the
/// failure. It alone names the server, since each call of it costs the prover a minute.
pub fn served_over_memory<R: Clock, S, L>(
    clock: &R,
    alloc: Global,
    site: &str,
    listener: &L,
    bounds: Bounds,
    count: u32,
) -> Result<Result<u32, Failure<'static>>, Fail>
where
    S: Duplex,
    L: OpenListener<Stream = S>,
{
    let site = read_site(alloc, site)?;
    let mut keep = Counted::over(alloc, MemKeep::new(alloc));
    let done = serve_connections(clock, alloc, &mut keep, &site, listener, bounds, count);
    Ok(done.map(|given| given.number()))
}

/// Makes two connections, the first with some bytes and the second with an order that ends its
/// connection, has both served, and reads what each gets.
fn replies_in_turn(
    rt: &HostRuntime,
    alloc: Global,
    bytes: &[u8],
) -> Result<(String, String), Fail> {
    let last = ORDER.replace(
        alloc,
        "Content-Length",
        "Connection: close\r\nContent-Length",
    )?;
    let listener = listen(rt, 0).map_err(|_| "no port")?;
    let address = listener.local_addr()?;
    let first = written_to(rt, address, bytes)?;
    let second = written_to(rt, address, last.as_bytes())?;
    served_over_memory(rt, alloc, SITE, &listener, bounds(), 2)?.map_err(|_| "no connection")?;
    let first = io::read_to_string(alloc, first)?;
    Ok((first, io::read_to_string(alloc, second)?))
}

#[test]
fn connections_are_served_in_turn(rt: HostRuntime) -> Result<(), Fail> {
    let head = "a".repeat(rt.alloc(), LONG_HEAD)?;
    // A head that doesn't end, a client that says nothing, and one that keeps its connection.
    for (bytes, got) in [(head.as_str(), BAD_HEAD), ("", ""), (SHOWN, UNKNOWN)] {
        let (first, second) = replies_in_turn(&rt, rt.alloc(), bytes.as_bytes())?;
        assert_eq!(rt; first.as_str(), got, "{bytes}");
        assert_eq!(rt; second.as_str(), ORDERED_LAST, "{bytes}");
    }
    Ok(())
}
