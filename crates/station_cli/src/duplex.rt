//! Connections whose two directions are served apart.
ghost use Rattle.std.specs.Prelude.{◌≡◌, ℕ, IfOk, List, None, Option};

use std::io;
use std::io::{Read, Write};
use std::net::{OpenStream, TcpStream};

/// A connection of which two directions can be had: what its client sends, and what it is sent. It may
/// tell the bytes of both, as one of a test does.
pub trait Duplex: OpenStream + Drop {
    /// The direction from the client.
    type Incoming: Read + OpenStream + Drop;

    /// The direction to the client.
    type Outgoing: Write + Drop;

    /// What its client sends, where the connection tells it.
    ghost sends: { Self → Option (List ℕ) };

    /// What its client got, where the connection tells it.
    ghost got: { Self → Option (List ℕ) };

    /// The two directions.
    ///
    /// # Errors
    ///
    /// That of the system, where it has no further handle.
    fn split(self) -> io::Result<(Self::Incoming, Self::Outgoing)>
        ensures incoming { IfOk result (λ both. Self.Incoming.remaining both.0 ≡ sends self) }
        ensures outgoing { IfOk result (λ both. Self.Outgoing.contents both.1 ≡ got self) };
}

// A socket tells no bytes: no contract can say what it gives or takes.
impl Duplex for TcpStream {
    type Incoming = TcpStream;

    type Outgoing = TcpStream;

    ghost sends = { λ _. None };

    ghost got = { λ _. None };

    fn split(self) -> io::Result<(TcpStream, TcpStream)> {
        let outgoing = self.try_clone()?;
        Ok((self, outgoing))
    }
}
