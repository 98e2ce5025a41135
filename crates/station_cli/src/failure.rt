//! Why a job fails, and the line that says so.
ghost use Rattle.std.specs.Prelude.{Some};
ghost use Rattle.station_cli.specs.Prelude.{line_of};

use std::fmt;

/// Why a job failed. It shows as the line that the program writes, without its line feed.
#[derive(Clone, Copy)]
pub enum Failure<'a> {
    /// The file with this name can't be opened or read, or isn't UTF-8.
    CannotRead(&'a str),
    /// The text of the site has the fault with this number, 1 to 6.
    SiteFault(u8),
    /// The store isn't opened, with the number of the fault, 1 to 3.
    StoreFault(u8),
    /// The text of the fuse map has the fault with this number, 1 to 8.
    MapFault(u8),
    /// The port can't be listened on.
    ListenFailed,
    /// Waiting for a connection failed.
    AcceptFailed,
    /// Reading the stream failed.
    ReadFailed,
    /// Writing the output failed.
    WriteFailed,
    /// The stream took more calls of its reader and writer than it may.
    TurnLimit,
    /// Memory ran out.
    NoMemory,
}

impl fmt::Display for Failure<'_> {
    ghost output = { λ failure. Some (line_of failure) };

    fn fmt<W: fmt::Write>(&self, f: &mut fmt::Formatter<W>) -> fmt::Result {
        match self {
            Failure::CannotRead(name) => write!(f, "station: cannot read {name}"),
            Failure::SiteFault(number) => write!(f, "station: site fault {number}"),
            Failure::StoreFault(number) => write!(f, "station: store fault {number}"),
            Failure::MapFault(number) => write!(f, "station: map fault {number}"),
            Failure::ListenFailed => f.write_str("station: listen failed"),
            Failure::AcceptFailed => f.write_str("station: accept failed"),
            Failure::ReadFailed => f.write_str("station: read failed"),
            Failure::WriteFailed => f.write_str("station: write failed"),
            Failure::TurnLimit => f.write_str("station: turn limit"),
            Failure::NoMemory => f.write_str("station: no memory"),
        }
    }
}
