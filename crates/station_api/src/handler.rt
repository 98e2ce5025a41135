// What answers the requests of a stream: the token, the command and the office.
ghost use Rattle.std.specs.Prelude.{◌≡◌, ◌⊎◌, IfOk, OnErr, Ok};
ghost use Rattle.http_replies.specs.Prelude.{answer_of};
ghost use Rattle.http_frames.specs.Prelude.{Request as HttpRequest, IsFrameAt};
ghost use Rattle.site_core.specs.Prelude.{IsCaller};
ghost use Rattle.office_commands.specs.Prelude.{refusal, unkept};
ghost use Rattle.office_laws.specs.Prelude.{report_reply};
ghost use Rattle.station_api.specs.Prelude.{ParsedOrUnkept, AnswersKnownCaller, HandlerSteps, SaysRefusal, exchange_asked};
ghost use Rattle.station_requests.specs.Prelude.{IsFor, parse_request, kind_of_caller};

use http_frames::Service;
use http_frames::buffer::Buffer;
use http_frames::frame::Frame;
use http_replies::{Body, Reply, Status};
use office_core::site::{Caller, Site};
use office_core::{Refusal, Unkept, answer, refused, unavailable, unknown_token};
use station_requests::{Parsed, parse_command};
use std::alloc::Global;
use yield_counts::Count;
use yield_report::{order_report, site_report};

/// Answers the requests of the site's callers over a keeper that it is lent.
#[derive(Clone, Copy)]
pub struct Handler<'a> {
    pub alloc: Global,
    pub site: &'a Site,
}

/// The reply to a refused request, or 503 where there is no memory for it.
fn refusal_reply(alloc: Global, reason: Refusal) -> Reply
    ensures { (answer_of result ≡ refusal reason) ⊎ (answer_of result ≡ refusal unkept) }
{
    match refused(alloc, reason) {
        Ok(reply) => reply,
        Err(error) => unavailable(Unkept::from(error)),
    }
}

/// The reply with a report, or 503 where there is none.
fn report_reply(report: Result<Vec<u8>, Unkept>) -> Reply
    ensures report { IfOk report (λ text. answer_of result ≡ report_reply text.items) }
    ensures none { OnErr report (answer_of result ≡ refusal unkept) }
{
    match report {
        Ok(text) => Reply {
            status: Status::Success,
            body: Body::Report(text),
        },
        Err(cause) => unavailable(cause),
    }
}

/// Answers what a caller asks for.
fn answer_parsed<K: Count>(
    handler: &Handler<'_>,
    keep: &mut K,
    caller: Caller,
    parsed: &Parsed,
) -> Reply
    requires caller { IsCaller handler.now.site.now caller }
    requires asked { IsFor (kind_of_caller caller) parsed.now }
    ensures { HandlerSteps K.Keep (SaysRefusal (Ok parsed.now))
        (exchange_asked handler.now.site.now caller (Ok parsed.now))
        (ParsedOrUnkept handler.now.site.now caller (Ok parsed.now))
        keep.old (answer_of result) keep.new }
{
    match (caller, parsed) {
        (Caller::Seat(seat), Parsed::Office(request)) => {
            answer(handler.alloc, keep, handler.site, seat, request)
        }
        (Caller::Seat(seat), Parsed::Report) => {
            let customer = handler.site.customer(seat).name();
            report_reply(order_report(handler.alloc, keep, &customer))
        }
        (Caller::Manager, Parsed::SiteReport) => {
            report_reply(site_report(handler.alloc, keep, handler.site))
        }
        (Caller::Seat(_), Parsed::SiteReport)
        | (Caller::Manager, Parsed::Office(_) | Parsed::Report) => unreachable!(),
    }
}

/// Answers a request of a known caller.
fn answer_caller<K: Count>(
    handler: &Handler<'_>,
    keep: &mut K,
    caller: Caller,
    frame: Frame,
    buffer: &Buffer,
) -> Reply
    requires caller { IsCaller handler.now.site.now caller }
    requires framed { (request : HttpRequest)
        × IsFrameAt buffer.now.window buffer.now.spans frame request }
    ensures { (request : HttpRequest) → IsFrameAt buffer.now.window buffer.now.spans frame request
        → HandlerSteps K.Keep (SaysRefusal (parse_request (kind_of_caller caller) request))
        (exchange_asked handler.now.site.now caller (parse_request (kind_of_caller caller) request))
        (AnswersKnownCaller handler.now.site.now caller request)
        keep.old (answer_of result) keep.new }
{
    match parse_command(handler.alloc, caller, frame, buffer) {
        Ok(parsed) => answer_parsed(handler, keep, caller, &parsed),
        Err(reason) => refusal_reply(handler.alloc, reason),
    }
}

impl<K: Count> Service<K> for Handler<'_> {
    ghost use Rattle.station_api.specs.HttpAnswers.{AnswersHttp, HandlerSteps, Says};
    ghost use Rattle.station_api.specs.SectionExchanges.{exchange_in};

    ghost steps = { λ handler old request reply new.
        HandlerSteps K.Keep (Says handler.site.now request)
        (λ said. exchange_in handler.site.now (request, said))
        (λ t. AnswersHttp handler.site.now t request) old reply new };

    fn answer(&self, keep: &mut K, frame: Frame, buffer: &Buffer) -> Reply {
        let Some(token) = frame.token(buffer) else {
            return unknown_token();
        };
        match self.site.who(token) {
            Some(caller) => answer_caller(self, keep, caller, frame, buffer),
            None => unknown_token(),
        }
    }
}
