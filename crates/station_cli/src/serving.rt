//! Connections of a port of this machine, served one after another over the store in a file.
ghost use Rattle.std.specs.Prelude.{◌≡◌, ◌≢◌, ◌⊎◌, ◌++◌, ◌∷◌, [], IfOk, IfErr, IsErrAnd, OnOk};
ghost use Rattle.std.specs.Io.KnownBytes.{Appends, Keeps};
ghost use Rattle.std.specs.Net.Addr.{ipv4_octets};
ghost use Rattle.std.specs.Net.Socket.{v4_ip, v4_port};
ghost use Rattle.sqlite.specs.WalFiles.{image_at};
ghost use Rattle.station_api.specs.Prelude.{ServesOver};
ghost use Rattle.station_cli.specs.Prelude.{AreOfProgram, AreUntouched, IsUnread, IsOfPort, Leaves, LeadsOn, listening_line, IsOfStore, site_in, text_of_site};

use crate::arrivals::{Arrivals, ConnectionCount};
use crate::duplex::Duplex;
use crate::ends::{ClientReader, ClientWriter, Line};
use crate::failure::Failure;
use crate::patience::Bounds;
use crate::site_file::site_of_file;
use crate::stored::{Done, LeftFiles, Limited, StoreFile, open_limited, store_failure};
use office_core::Keep;
use office_store::{SqlKeep, close};
use site_core::{Site, SiteText};
use sqlite::{FileFrom, FileStore};
use sqlite_disk::Start;
use station_api::{Served, serve_stream};
use std::alloc::Global;
use std::io;
use std::io::Write;
use std::net::{Ipv4Addr, OpenListener, OpenStream, SocketAddrV4, TcpListener};
use std::time::Clock;
use yield_counts::{Count, Counted};
use yield_report::site_report;

/// Where connections come in, and how many are served.
#[derive(Clone, Copy)]
pub struct Door {
    /// The port of this machine that is listened on.
    pub port: u16,
    /// How many connections are served.
    pub connections: u32,
}

/// Serves as many connections as the door says over the store in a file, for the site that a file
/// describes, by what reading the file with this name gave. Once the port is listened on, its line is
/// written. The store is closed at the end. Answers how many connections were given to be served, and
/// what is left of the store's files.
///
/// # Errors
///
/// In this order: the site's file wasn't read or describes no site, the store isn't opened, the
/// port can't be listened on, its line can't be written, or waiting for a connection fails. What
/// becomes of a connection is no error.
pub fn serve_site<'a, S: Start, W: Write>(
    rt: &HostRuntime,
    alloc: Global,
    name: &'a str,
    file: io::Result<Vec<u8>>,
    store: StoreFile<'_, S>,
    door: Door,
    output: &mut W,
) -> Done<'a, ConnectionCount, S, FileFrom<S>>
    ensures unread { IfErr file (λ error. IsErrAnd result.result (IsUnread name.entry error)) }

    // A file that describes no site is the failure, whatever the store and the port.
    ensures no_site { IfOk file (λ bytes. IfErr (site_in name.entry bytes.items) (λ failure.
        (result.result ≡ Err failure) ⊎ (result.result ≡ Err Failure.NoMemory))) }

    // Once the site is read, what fails is memory, the store or the port.
    ensures failed { IfOk file (λ bytes. IfOk (site_in name.entry bytes.items) (λ _.
        IfErr result.result (λ failure. (failure ≡ Failure.NoMemory) ⊎ IsOfStore failure
        ⊎ IsOfPort failure))) }
    ensures counted { IfOk result.result (λ count. count.number ≡ door.connections) }

    // Without a site no store is opened.
    ensures unread_site { IfErr file (λ _. AreUntouched result.files) }
    ensures unopened { IfOk file (λ bytes.
        IfErr (site_in name.entry bytes.items) (λ _. AreUntouched result.files)) }

    // The store was refused, or it was as its opening says, and what the connections asked for leads
    // from its tables to those that the files hold that come back.
    ensures books { IfOk file (λ bytes. IfOk (site_in name.entry bytes.items) (λ site.
        Leaves (text_of_site bytes.items site) (image_at S.Start) store.entry.name.now
        store.entry.absent (LeadsOn ⟦<SqlKeep<FileStore<FileFrom<S>>> as Keep>⟧ site)
        result.result result.files)) }
    ensures printed { OnOk result.result (Appends (W.contents output.old) (W.contents output.new)
        (listening_line door.port ++ 10 ∷ [])) }

    // Nothing is written before the port is listened on.
    ensures prints_nothing { IfErr result.result (λ failure. failure ≢ Failure.WriteFailed
        → failure ≢ Failure.AcceptFailed
        → Keeps (W.contents output.old) (W.contents output.new)) }
{
    let site = match site_of_file(alloc, name, file) {
        Ok(site) => site,
        Err(failure) => {
            return Done {
                result: Err(failure),
                files: LeftFiles::Untouched(store.start),
            };
        }
    };
    serve_store(rt, alloc, &site, store, door, output)
}

/// Serves the connections of the door's port over the store in a file, which is closed at the end.
fn serve_store<'a, S: Start, W: Write>(
    rt: &HostRuntime,
    alloc: Global,
    site: &SiteText,
    store: StoreFile<'_, S>,
    door: Door,
    output: &mut W,
) -> Done<'a, ConnectionCount, S, FileFrom<S>>
    ensures failed { IfErr result.result (λ failure. (failure ≡ Failure.NoMemory)
        ⊎ IsOfStore failure ⊎ IsOfPort failure) }
    ensures counted { IfOk result.result (λ count. count.number ≡ door.connections) }
    ensures books { Leaves site.now (image_at S.Start) store.entry.name.now store.entry.absent
        (LeadsOn ⟦<SqlKeep<FileStore<FileFrom<S>>> as Keep>⟧ site.now.site)
        result.result result.files }
    ensures printed { OnOk result.result (Appends (W.contents output.old) (W.contents output.new)
        (listening_line door.port ++ 10 ∷ [])) }
    ensures prints_nothing { IfErr result.result (λ failure. failure ≢ Failure.WriteFailed
        → failure ≢ Failure.AcceptFailed
        → Keeps (W.contents output.old) (W.contents output.new)) }
{
    let keep = match open_limited(rt, alloc, store, site) {
        Ok(keep) => keep,
        Err(refused) => {
            return Done {
                result: Err(store_failure(refused.fault)),
                files: LeftFiles::Refused(refused),
            };
        }
    };
    let bounds = Bounds::of_program();
    let (served, keep) = serve_counted(rt, alloc, keep, site.site(), door, bounds, output);
    Done {
        result: served,
        files: LeftFiles::Ended(close(keep)),
    }
}

/// Serves the connections of the door's port over a store that counts meanwhile, and gives the store
/// back.
fn serve_counted<K: Keep + Limited, W: Write>(
    rt: &HostRuntime,
    alloc: Global,
    keep: K,
    site: &Site,
    door: Door,
    bounds: Bounds,
    output: &mut W,
) -> (Result<ConnectionCount, Failure<'static>>, K)
    requires limit { K.is_limited keep }
    requires bounds { AreOfProgram bounds }
    ensures was_honest { K.is_honest result.1 → K.is_honest keep }
    ensures reaches { LeadsOn K.Keep site.now keep result.1 }
    ensures counted { IfOk result.0 (λ count. count.number ≡ door.connections) }
    ensures failed { IfErr result.0 IsOfPort }
    ensures printed { OnOk result.0 (Appends (W.contents output.old) (W.contents output.new)
        (listening_line door.port ++ 10 ∷ [])) }
    ensures prints_nothing { IfErr result.0 (λ failure. failure ≢ Failure.WriteFailed
        → failure ≢ Failure.AcceptFailed
        → Keeps (W.contents output.old) (W.contents output.new)) }
{
    let mut counted = Counted::over(alloc, keep);
    let served = serve_port(rt, alloc, &mut counted, site, door, bounds, output);
    (served, counted.into_keep())
}

/// Counts what is in a store, whose statements have the limit of steps, listens on the port of the door,
/// tells so, and serves its connections, at the bounds of the program. Answers how many were given to be
/// served.
fn serve_port<K: Count + Limited, W: Write>(
    rt: &HostRuntime,
    alloc: Global,
    keep: &mut K,
    site: &Site,
    door: Door,
    bounds: Bounds,
    output: &mut W,
) -> Result<ConnectionCount, Failure<'static>>
    requires limit { K.is_limited keep.old }
    requires bounds { AreOfProgram bounds }
    ensures was_honest { K.is_honest keep.new → K.is_honest keep.old }
    ensures reaches { LeadsOn K.Keep site.now keep.old keep.new }
    ensures counted { IfOk result (λ count. count.number ≡ door.connections) }
    ensures failed { IfErr result IsOfPort }
    ensures printed { OnOk result (Appends (W.contents output.old) (W.contents output.new)
        (listening_line door.port ++ 10 ∷ [])) }
    ensures prints_nothing { IfErr result (λ failure. failure ≢ Failure.WriteFailed
        → failure ≢ Failure.AcceptFailed
        → Keeps (W.contents output.old) (W.contents output.new)) }
{
    site.fact_rules();
    // The first report walks over all devices and given numbers: it is made before anybody waits.
    let _counted = site_report(alloc, keep, site);
    let listener = listen(rt, door.port)?;
    if write_listening_line(door.port, output).is_err() {
        return Err(Failure::WriteFailed);
    }
    serve_connections(rt, alloc, keep, site, &listener, bounds, door.connections)
}

/// Listens on a port of this machine, which no other machine can reach.
///
/// # Errors
///
/// `ListenFailed` where the port can't be had.
pub fn listen(rt: &HostRuntime, port: u16) -> Result<TcpListener, Failure<'static>>
    ensures { IfErr result (λ failure. failure ≡ Failure.ListenFailed) }
{
    match TcpListener::bind(rt, own_address(port)) {
        Ok(listener) => Ok(listener),
        Err(_) => Err(Failure::ListenFailed),
    }
}

/// The address of a port that this machine alone can reach.
fn own_address(port: u16) -> SocketAddrV4
    ensures ip { ipv4_octets (v4_ip result) ≡ 127 ∷ 0 ∷ 0 ∷ 1 ∷ [] }
    ensures port { v4_port result ≡ port }
{
    SocketAddrV4::new(Ipv4Addr::new(127, 0, 0, 1), port)
}

/// Writes the line of a port that is listened on, and flushes.
fn write_listening_line<W: Write>(port: u16, output: &mut W) -> io::Result<()>
    ensures { OnOk result (Appends (W.contents output.old) (W.contents output.new)
        (listening_line port ++ 10 ∷ [])) }
{
    writeln!(output, "listening on 127.0.0.1:{port}")?;
    output.flush()
}

/// Serves so many of the connections that come to a listener, one after another, over a keeper. What
/// becomes of one ends that one alone. A client is waited for no longer than the bounds say, and where
/// another connection waits a client that has had a reply gives way to it. The listener may be one of
/// std's or of a test. Answers how many connections were given to be served.
///
/// # Errors
///
/// `AcceptFailed` where waiting for a connection fails. The connections before it were served.
pub fn serve_connections<K: Count, R: Clock, S, L>(
    clock: &R,
    alloc: Global,
    keep: &mut K,
    site: &Site,
    listener: &L,
    bounds: Bounds,
    count: u32,
) -> Result<ConnectionCount, Failure<'static>>
where
    S: Duplex,
    L: OpenListener<Stream = S>,
    ensures was_honest { K.is_honest keep.new → K.is_honest keep.old }

    // Whatever the connections said, the tables change by answers to requests alone, a crash leaves
    // what a stop may leave, and from sound tables the books are kept over all connections.
    ensures reaches { LeadsOn K.Keep site.now keep.old keep.new }

    // No connection ends the others: so many were given to be served, unless waiting for one fails.
    ensures counted { IfOk result (λ given. given.number ≡ count) }
    ensures failed { IfErr result (λ failure. failure ≡ Failure.AcceptFailed) }
{
    site.fact_rules();
    let mut arrivals = Arrivals::of(listener);
    for _turn in 0..count {
        let stream = arrivals.next(clock)?;
        let _ = serve_client(clock, alloc, keep, site, &arrivals, bounds, stream);
    }
    Ok(arrivals.end())
}

/// What became of a connection: how its stream ended, and its two directions as they were then.
#[derive(Drop)]
struct Parted<C: Duplex> {
    served: Served,
    incoming: C::Incoming,
    outgoing: C::Outgoing,
}

/// Serves the client of a connection over a keeper, or answers why the connection can't be set up.
fn serve_client<K: Count, R: Clock, C: Duplex, L>(
    clock: &R,
    alloc: Global,
    keep: &mut K,
    site: &Site,
    arrivals: &Arrivals<'_, L, C>,
    bounds: Bounds,
    stream: C,
) -> io::Result<Parted<C>>
where
    L: OpenListener<Stream = C>,
    ensures was_honest { K.is_honest keep.new → K.is_honest keep.old }
    ensures reaches { LeadsOn K.Keep site.now keep.old keep.new }

    // Where the connection tells its bytes, what was sent begins with the requests that lead to the
    // tables that stand, and what its client got is their replies.
    ensures told { IfOk result (λ parted. ServesOver K.Keep site.now
        (C.sends stream) (C.Incoming.remaining parted.incoming)
        (C.got stream) (C.Outgoing.contents parted.outgoing) parted.served keep.old keep.new) }
    ensures unserved { IfErr result (λ _. keep.new ≡ keep.old) }
{
    site.fact_rules();
    set_up(&stream, bounds)?;
    let line = Line::begin(clock, arrivals, bounds)?;
    let (incoming, outgoing) = stream.split()?;
    let mut reader = ClientReader::new(&line, incoming);
    let mut writer = ClientWriter::new(&line, outgoing);
    let served = serve_stream(alloc, keep, site, &mut reader, &mut writer);
    Ok(Parted {
        served,
        incoming: reader.into_stream(),
        outgoing: writer.into_stream(),
    })
}

/// Has a connection send each reply at once, and wait for its client so long at a time.
fn set_up<S: OpenStream>(stream: &S, bounds: Bounds) -> io::Result<()> {
    stream.set_nodelay(true)?;
    stream.set_read_timeout(Some(bounds.slice))?;
    stream.set_write_timeout(Some(bounds.slice))
}
