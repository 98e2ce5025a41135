// Serves a stream of a site's callers.
ghost use Rattle.std.specs.Prelude.{◌≡◌};
ghost use Rattle.http_frames.specs.Prelude.{HasCallsLeft, StaysWithinCalls};
ghost use Rattle.station_api.specs.Prelude.{ServesOver};

use crate::handler::Handler;
use http_frames::Served;
use http_frames::transfer::{Drain, Source};
use office_core::site::Site;
use std::alloc::Global;
use yield_counts::Count;

/// Serves a stream until it ends, and answers how it did. It takes memory once for its buffer,
/// before the first read, and none from a commit until that reply is written.
///
/// Where the reader and the writer tell their bytes, the stream is cut into exchanges, of requests
/// and of refused heads. What was written is the bytes of their replies, all of them where the stream
/// ended, was closed or was cut. Whatever the store does, a request without a known token gets 401,
/// and one that is refused as it came gets its refusal or 503.
///
/// Where the store's disk is honest, each request is answered by a step of the office, by a report or
/// by 503 with the tables as they were. The tables are those after these steps. A crash leaves them,
/// or those after one step more, of a request that was answered 503 since a request of the office was
/// last answered otherwise.
///
/// From tables that are sound for the site, or for one that it grew from:
///
/// - The tables stay sound.
/// - Each customer's replies and rows are those of the customer's own machine, run on the customer's
///   own requests alone.
/// - Nothing that was burnt is forgotten, and what is given stays.
/// - No identity gives what another gave.
/// - A request that comes again acts once.
pub fn serve_stream<K: Count, R: Source, W: Drain>(
    alloc: Global,
    keep: &mut K,
    site: &Site,
    reader: &mut R,
    writer: &mut W,
) -> Served
    requires reader { HasCallsLeft (R.calls reader.old) 0 }
    requires writer { HasCallsLeft (W.calls writer.old) 0 }
    ensures was_honest { K.is_honest keep.new → K.is_honest keep.old }
    ensures run { ServesOver K.Keep site.now (R.left reader.old) (R.left reader.new)
        (W.written writer.old) (W.written writer.new) result keep.old keep.new }
    ensures within { StaysWithinCalls R.Source W.Drain reader.old reader.new writer.old writer.new
        result }
    ensures unserved { result ≡ Served.NoMemory → keep.new ≡ keep.old }
{
    site.fact_rules();
    let handler = Handler { alloc, site };
    http_frames::serve_stream(alloc, &handler, keep, reader, writer)
}
