ghost use Rattle.std.specs.Prelude.{◌≡◌, ◌≢◌, ℕ, ◌+◌, ◌<◌, ◌≤◌, ◌⊎◌, List, Option, map};
ghost use Rattle.http_replies.specs.Prelude.{Answer, answer_of};
ghost use Rattle.text_core.specs.Prelude.{Runs};
ghost use Rattle.http_frames.specs.Prelude.{Request, HasRequest, IsFrameAt, unread};
ghost use Rattle.http_frames.specs.Streams.{HttpExchange, refusal_answer, requests_with_answers, Tells, ending_of_sent};
ghost use Rattle.http_frames.specs.Calls.{HasCallsLeft, StaysWithinCalls, read_faults, write_faults};
ghost use Rattle.http_frames.specs.Cycles.{ServesBytes, IsOneExchange};
ghost use Rattle.http_frames.specs.Determined.{cut_of, requests_of, IsCutWhole, IsEitherWay};

use crate::buffer::{Buffer, CALL_LIMIT, read_request};
use crate::fields::FrameRefusal;
use crate::frame::{Frame, Framed};
use crate::send::{Sent, write_reply};
use crate::transfer::{Drain, Source};
use http_replies::{Body, Flags, HEAD_ROOM, Reply, Status};
use std::alloc::Global;

/// How a stream came to its end.
#[derive(Clone, Copy, Debug, PartialEq, Eq)]
pub enum Served {
    /// The bytes ended between two requests.
    Ended,
    /// The last reply ended the stream.
    Closed,
    /// The bytes ended inside a request, which has no reply.
    Cut,
    /// The reader failed.
    ReadFault,
    /// The writer failed, or took none of some bytes.
    WriteFault,
    /// The stream has made all the calls of its reader and writer that it may make.
    TurnLimit,
    /// There was no memory for a buffer, and nothing was read.
    NoMemory,
}

/// Answers requests over a state that it is lent.
///
/// The state is no part of the service: a stream is lent it, and lends it to each answer, so that no
/// value holds a `&mut`. The theorem of `serve_stream` is over any relation `steps` of states.
pub trait Service<S> {
    /// From one state, a request may be answered so, and lead to another state.
    ghost steps: { Self → S → Request → Answer → S → Type 0 };

    /// Answers the request that stands in the buffer.
    fn answer(&self, state: &mut S, frame: Frame, buffer: &Buffer) -> Reply
        requires { (request : Request) × IsFrameAt buffer.now.window buffer.now.spans frame
            request }
        ensures { (request : Request) → IsFrameAt buffer.now.window buffer.now.spans frame request
            → steps self.now state.old request (answer_of result) state.new };
}

/// The reply to what cannot be cut into requests.
fn refusal_reply(refusal: FrameRefusal) -> Reply
    ensures { answer_of result ≡ refusal_answer refusal }
{
    match refusal {
        FrameRefusal::BadHead => Reply {
            status: Status::BadRequest,
            body: Body::Constant("{\"error\":\"bad_head\",\"no\":1}"),
        },
        FrameRefusal::BadLength => Reply {
            status: Status::BadRequest,
            body: Body::Constant("{\"error\":\"bad_length\",\"no\":2}"),
        },
        FrameRefusal::TooLarge => Reply {
            status: Status::TooLarge,
            body: Body::Constant("{\"error\":\"too_large\",\"no\":3}"),
        },
        FrameRefusal::Chunked => Reply {
            status: Status::NotImplemented,
            body: Body::Constant("{\"error\":\"chunked\",\"no\":4}"),
        },
    }
}

/// What becomes of the stream once this became of a reply, which ends the stream where `is_last` says so.
fn outcome(sent: Sent, is_last: bool) -> Option<Served>
    ensures { result ≡ ending_of_sent sent is_last }
{
    match sent {
        Sent::All if is_last => Some(Served::Closed),
        Sent::All => None,
        Sent::Fault => Some(Served::WriteFault),
        Sent::TurnLimit => Some(Served::TurnLimit),
    }
}

/// Serves one request, or answers how the stream ended. The room is for the head of its reply.
fn serve_one<S, V: Service<S>, R: Source, W: Drain>(
    service: &V,
    state: &mut S,
    reader: &mut R,
    writer: &mut W,
    buffer: &mut Buffer,
    room: &mut [u8; HEAD_ROOM],
) -> Option<Served>
    requires reader { HasCallsLeft (R.calls reader.old) buffer.old.calls }
    requires writer { HasCallsLeft (W.calls writer.old) buffer.old.calls }
    ensures served_one { (exchanges : List HttpExchange) × IsOneExchange result exchanges
        × ServesBytes (unread buffer.old) (R.left reader.old) (unread buffer.new) (R.left reader.new)
        (W.written writer.old) (W.written writer.new) result exchanges
        × Runs (V.steps service.now) state.old (requests_with_answers exchanges) state.new }
    ensures calls { R.calls reader.new + W.calls writer.new + buffer.old.calls
        ≡ R.calls reader.old + W.calls writer.old + buffer.new.calls }
    ensures reader_calls { R.calls reader.old ≤ R.calls reader.new }
    ensures writer_calls { W.calls writer.old ≤ W.calls writer.new }
    ensures more { result ≡ None → buffer.old.calls < buffer.new.calls }
    ensures within { buffer.new.calls ≤ CALL_LIMIT }
    ensures limit { result ≡ Some Served.TurnLimit → buffer.new.calls ≡ CALL_LIMIT }
    ensures no_memory { result ≢ Some Served.NoMemory }
    ensures read_faults { R.failures reader.new ≡ R.failures reader.old + read_faults result }
    ensures write_faults { W.failures writer.new ≡ W.failures writer.old + write_faults result }
{
    match read_request(reader, buffer) {
        Framed::Nothing => Some(Served::Ended),
        Framed::Cut => Some(Served::Cut),
        Framed::ReadFault => Some(Served::ReadFault),
        Framed::TurnLimit => Some(Served::TurnLimit),
        Framed::Refused(refusal, is_head) => {
            let reply = refusal_reply(refusal);
            let flags = Flags {
                is_head,
                is_last: true,
            };
            outcome(write_reply(writer, buffer, room, &reply, flags), true)
        }
        Framed::Request(frame) => {
            let reply = service.answer(state, frame, buffer);
            let flags = Flags {
                is_head: frame.is_head,
                is_last: frame.is_last,
            };
            outcome(
                write_reply(writer, buffer, room, &reply, flags),
                frame.is_last,
            )
        }
    }
}

/// At most one whole request stands at the front of a stream, so that the requests of a stream are determined by its bytes.
pub fn requests_are_unique()
    ensures { (rest : List ℕ) (request other : Request) (after later : List ℕ)
        → HasRequest rest request after
        → HasRequest rest other later → (request ≡ other) × (after ≡ later) }
{}

/// Where the bytes alone end a stream, they decide its requests and what follows them, however they
/// were read, and also its refusals and how it ends. The one exception to the latter is a rest that
/// is part of a head and never becomes one with few enough fields: it may be refused, or be cut off
/// where the stream ends.
pub fn streams_are_determined()
    ensures { (stream : List ℕ) (served other : Served) (exchanges others : List HttpExchange)
        (rest later : List ℕ)
        → IsCutWhole stream served exchanges rest → IsCutWhole stream other others later
        → (requests_of exchanges ≡ requests_of others) × (rest ≡ later)
        × (((served ≡ other) × (map cut_of exchanges ≡ map cut_of others)) ⊎ IsEitherWay rest) }
{}

/// Serves a stream until it ends, and answers how it did. It takes memory once, for its buffer, and
/// makes the room for the heads of the replies beside it, both before the first read.
///
/// Whatever the reader and the writer tell of their bytes, the state goes by steps of the service,
/// one for each request among the exchanges in turn, with the answer that the exchange has
/// (`Runs`). Where both tell them, the stream begins with these exchanges, and what is written is
/// their replies, up to where the stream ended (`Tells`).
pub fn serve_stream<S, V: Service<S>, R: Source, W: Drain>(
    alloc: Global,
    service: &V,
    state: &mut S,
    reader: &mut R,
    writer: &mut W,
) -> Served
    requires reader { HasCallsLeft (R.calls reader.old) 0 }
    requires writer { HasCallsLeft (W.calls writer.old) 0 }
    ensures run { (exchanges : List HttpExchange)
        × Tells (R.left reader.old) (R.left reader.new)
        (W.written writer.old) (W.written writer.new) result exchanges
        × Runs (V.steps service.now) state.old (requests_with_answers exchanges) state.new }
    ensures within { StaysWithinCalls R.Source W.Drain reader.old reader.new writer.old writer.new
        result }
    ensures unserved { result ≡ Served.NoMemory → state.new ≡ state.old }
{
    let mut buffer = match Buffer::new(alloc) {
        Ok(buffer) => buffer,
        Err(_) => return Served::NoMemory,
    };
    let mut room = [0; HEAD_ROOM];
    loop {
        if let Some(served) = serve_one(service, state, reader, writer, &mut buffer, &mut room) {
            return served;
        }
    }
}
