// A station: what its file has, what it waits for, and what it does at each event.
ghost use Rattle.std.specs.Prelude.{◌≡◌, IfOk};
ghost use Rattle.seat_core.specs.Prelude.{Step, IsNew, number_after, step_of, untried_request};
ghost use Rattle.seat_core.specs.Prelude.{start_step, request_step, reply_step, refusal_step};
ghost use Rattle.seat_core.specs.Prelude.{silence_step, patience_step, look_step, number_step};
ghost use Rattle.seat_core.specs.Prelude.{completion, probe_reply, request_refusal, probe_refusal};
ghost use Rattle.seat_core.specs.Prelude.{aside_step, stop_step, probe_step, resumption};

use crate::act::{Act, Acts, Trouble};
use crate::aside::KeptAside;
use crate::event::Event;
use crate::request::{Answered, Outcome, Sent, Stop};
use std::alloc::{AllocError, Global};

/// The greatest number that a request has. No seat comes to it: asked with it, the server says which
/// number it expects.
pub const GREATEST_NUMBER: u64 = 9007199254740991;

/// The refusal of a number that isn't the next one.
pub const WRONG_NUMBER: u8 = 11;

/// The refusal of a number that was accepted with another request.
pub const OTHER_BODY: u8 = 12;

/// The refusal that says that nothing was done, for now.
pub const UNKEPT: u8 = 50;

/// Where a seat's requests stand.
#[derive(Clone, Copy)]
pub enum Place {
    /// The number of its next request isn't known.
    Unknown,
    /// Nothing is under way. The next request has this number.
    Free(u64),
    /// This request is under way.
    UnderWay(Sent),
}

/// What a station's file has. All else is lost where the station is stopped.
#[derive(Drop)]
pub struct SeatFile {
    /// Where its requests stand.
    pub place: Place,
    /// The requests of the same number that are kept aside.
    pub aside: KeptAside,
    /// The last request that was done, with its reply.
    pub last: Option<Answered>,
    /// Why it stopped, if it did.
    pub stop: Option<Stop>,
}

/// What a station waits for.
#[derive(Clone, Copy)]
pub enum Waiting {
    /// For nothing.
    Nothing,
    /// For the reply to the request under way, which was sent once.
    Once,
    /// For the same, of one that may have been sent before.
    Again,
    /// For the reply to a request that was kept aside. So many weren't tried yet, this one among
    /// them; and whether the request under way may have been sent before its refusal as 12.
    Kept(usize, bool),
    /// For the number that is expected.
    Number,
}

/// A station of one seat.
#[derive(Drop)]
pub struct Station {
    /// What is in its file, once the last `Act::Write` is done.
    pub file: SeatFile,
    /// What it waits for: nothing where it was stopped and hasn't started.
    pub waiting: Waiting,
}

impl Station {
    /// A station without a file, before it starts. An error is want of memory.
    pub fn new(alloc: Global) -> Result<Station, AllocError>
        ensures { IfOk result IsNew }
    {
        let aside = KeptAside::new(alloc)?;
        let file = SeatFile {
            place: Place::Unknown,
            aside,
            last: None,
            stop: None,
        };
        Ok(Station {
            file,
            waiting: Waiting::Nothing,
        })
    }

    /// What the station does at an event, in order. It is to do one after another; where it is
    /// stopped between two of them, it starts again with what it had written.
    pub fn step(&mut self, event: Event) -> Acts
        ensures left { self.new ≡ (step_of self.old event).left }
        ensures acts { result ≡ (step_of self.old event).acts }
    {
        match event {
            Event::Start => self.start(),
            Event::Want(request) => self.want(request),
            Event::Accept(reply) => self.accept(reply),
            Event::Refuse(code, expected) => self.refuse(code, expected),
            Event::Miss => self.miss(),
            Event::GiveUp => self.give_up(),
            Event::Look => self.look(),
        }
    }

    fn start(&mut self) -> Acts
        ensures left { self.new ≡ (start_step self.old).left }
        ensures acts { result ≡ (start_step self.old).acts }
    {
        self.waiting = Waiting::Nothing;
        if let Some(stop) = self.file.stop {
            return Acts::of(&[Act::Show(Trouble::Stopped(stop))]);
        }
        match self.file.place {
            Place::Unknown => {
                self.waiting = Waiting::Number;
                Acts::of(&[Act::AskNumber])
            }
            Place::Free(_) => Acts::of(&[]),
            Place::UnderWay(sent) => {
                self.waiting = Waiting::Again;
                Acts::of(&[Act::LogRequest(sent), Act::Send(sent)])
            }
        }
    }

    fn want(&mut self, request: u64) -> Acts
        ensures left { self.new ≡ (request_step self.old request).left }
        ensures acts { result ≡ (request_step self.old request).acts }
    {
        if let Some(stop) = self.file.stop {
            return Acts::of(&[Act::Show(Trouble::Stopped(stop))]);
        }
        match (self.file.place, self.waiting) {
            (Place::Free(number), Waiting::Nothing) => {
                let sent = Sent { number, request };
                self.file.place = Place::UnderWay(sent);
                self.waiting = Waiting::Once;
                Acts::of(&[Act::Write, Act::LogRequest(sent), Act::Send(sent)])
            }
            _ => Acts::of(&[Act::Show(Trouble::Busy)]),
        }
    }

    fn accept(&mut self, reply: u64) -> Acts
        ensures left { self.new ≡ (reply_step self.old reply).left }
        ensures acts { result ≡ (reply_step self.old reply).acts }
    {
        match (self.waiting, self.file.place) {
            (Waiting::Once, Place::UnderWay(sent)) => self.finish(sent, reply),
            (Waiting::Again, Place::UnderWay(sent)) => self.finish(sent, reply),
            (Waiting::Kept(untried, _), Place::UnderWay(sent)) => self.find(sent, untried, reply),
            (Waiting::Number, _) => self.miss(),
            _ => Acts::of(&[]),
        }
    }

    /// The request under way was done.
    fn finish(&mut self, sent: Sent, reply: u64) -> Acts
        ensures left { self.new ≡ (completion self.old sent reply).left }
        ensures acts { result ≡ (completion self.old sent reply).acts }
    {
        let request = sent.request;
        let outcome = Outcome::Done(reply);
        self.file.place = Place::Free(number_after(sent.number));
        self.file.aside.forget_all();
        self.file.last = Some(Answered { request, reply });
        self.waiting = Waiting::Nothing;
        Acts::of(&[
            Act::LogOutcome(sent.number, outcome),
            Act::Write,
            Act::Tell(request, outcome),
        ])
    }

    /// A late copy of a request that was kept aside had been accepted. What is under way wasn't
    /// done, and gets the next number.
    fn find(&mut self, sent: Sent, untried: usize, reply: u64) -> Acts
        ensures left { self.new
            ≡ (probe_reply self.old sent reply (untried_request self.old.file.aside untried)).left }
        ensures acts { result
            ≡ (probe_reply self.old sent reply (untried_request self.old.file.aside untried)).acts }
    {
        let Some(request) = self.untried_request(untried) else {
            return Acts::of(&[]);
        };
        let late = Sent {
            number: sent.number,
            request,
        };
        let next = Sent {
            number: number_after(sent.number),
            request: sent.request,
        };
        self.file.place = Place::UnderWay(next);
        self.file.aside.forget_all();
        self.file.last = Some(Answered { request, reply });
        self.waiting = Waiting::Once;
        Acts::of(&[
            Act::LogOutcome(sent.number, Outcome::NotDone(OTHER_BODY)),
            Act::LogRequest(late),
            Act::LogOutcome(sent.number, Outcome::Done(reply)),
            Act::Write,
            Act::Show(Trouble::LateCopy(request)),
            Act::LogRequest(next),
            Act::Send(next),
        ])
    }

    /// The oldest of the kept requests that weren't tried yet, if so many weren't.
    fn untried_request(&self, untried: usize) -> Option<u64>
        ensures { result ≡ untried_request self.now.file.aside untried }
    {
        let aside = self.file.aside.as_slice();
        aside.get(aside.len().saturating_sub(untried)).copied()
    }

    fn refuse(&mut self, code: u8, expected: u64) -> Acts
        ensures left { self.new ≡ (refusal_step self.old code expected).left }
        ensures acts { result ≡ (refusal_step self.old code expected).acts }
    {
        if code == UNKEPT {
            return self.miss();
        }
        let refusal = Stop { code, expected };
        match (self.waiting, self.file.place) {
            (Waiting::Once, Place::UnderWay(sent)) => self.refuse_request(sent, false, refusal),
            (Waiting::Again, Place::UnderWay(sent)) => self.refuse_request(sent, true, refusal),
            (Waiting::Kept(untried, again), Place::UnderWay(sent)) => {
                self.refuse_probe(sent, untried, again, refusal)
            }
            (Waiting::Number, _) => self.refuse_number(code, expected),
            _ => Acts::of(&[]),
        }
    }

    /// The request under way was refused, which may have been sent before.
    fn refuse_request(&mut self, sent: Sent, again: bool, refusal: Stop) -> Acts
        ensures left { self.new ≡ (request_refusal self.old sent again refusal).left }
        ensures acts { result ≡ (request_refusal self.old sent again refusal).acts }
    {
        match refusal.code {
            WRONG_NUMBER => self.stop_at(sent, again, WRONG_NUMBER, refusal),
            OTHER_BODY => {
                let untried = self.file.aside.as_slice().len();
                self.probe(sent, again, untried)
            }
            0..WRONG_NUMBER if again => Acts::of(&[Act::Show(Trouble::Unsure(refusal.code))]),
            _ => self.set_aside(sent, refusal.code),
        }
    }

    /// A request that was kept aside was refused, as the request under way was before as 12.
    fn refuse_probe(&mut self, sent: Sent, untried: usize, again: bool, refusal: Stop) -> Acts
        ensures left { self.new ≡ (probe_refusal self.old sent untried again refusal).left }
        ensures acts { result ≡ (probe_refusal self.old sent untried again refusal).acts }
    {
        match refusal.code {
            0..WRONG_NUMBER => Acts::of(&[Act::Show(Trouble::Unsure(refusal.code))]),
            OTHER_BODY => self.probe(sent, again, untried.saturating_sub(1)),
            _ => self.stop_at(sent, again, OTHER_BODY, refusal),
        }
    }

    /// The request under way was refused as 12: sends the next of those that were kept aside, of
    /// which so many weren't tried yet, or stops where there is none.
    fn probe(&mut self, sent: Sent, again: bool, untried: usize) -> Acts
        ensures left { self.new ≡ (probe_step self.old sent again untried).left }
        ensures acts { result ≡ (probe_step self.old sent again untried).acts }
    {
        let Some(request) = self.untried_request(untried) else {
            let refusal = Stop {
                code: OTHER_BODY,
                expected: 0,
            };
            return self.stop_at(sent, again, OTHER_BODY, refusal);
        };
        self.waiting = Waiting::Kept(untried, again);
        let number = sent.number;
        Acts::of(&[Act::Send(Sent { number, request })])
    }

    /// The request under way was refused: it is kept aside, and its number is the next one's.
    fn set_aside(&mut self, sent: Sent, code: u8) -> Acts
        ensures left { self.new ≡ (aside_step self.old sent code).left }
        ensures acts { result ≡ (aside_step self.old sent code).acts }
    {
        let Sent { number, request } = sent;
        let refusal = Outcome::NotDone(code);
        self.file.place = Place::Free(number);
        self.file.aside.keep(request);
        self.waiting = Waiting::Nothing;
        Acts::of(&[
            Act::LogOutcome(number, refusal),
            Act::Write,
            Act::Tell(request, refusal),
        ])
    }

    /// Stops: the request under way was refused by this number. It stays under way where it may have
    /// been sent before, as it may be done then, and is kept aside else.
    fn stop_at(&mut self, sent: Sent, again: bool, code: u8, stop: Stop) -> Acts
        ensures left { self.new ≡ (stop_step self.old sent again code stop).left }
        ensures acts { result ≡ (stop_step self.old sent again code stop).acts }
    {
        self.file.stop = Some(stop);
        self.waiting = Waiting::Nothing;
        if again {
            return Acts::of(&[Act::Write, Act::Show(Trouble::Stopped(stop))]);
        }
        self.file.place = Place::Free(sent.number);
        self.file.aside.keep(sent.request);
        Acts::of(&[
            Act::LogOutcome(sent.number, Outcome::NotDone(code)),
            Act::Write,
            Act::Show(Trouble::Stopped(stop)),
        ])
    }

    /// The request that asks for the number was refused.
    fn refuse_number(&mut self, code: u8, expected: u64) -> Acts
        ensures left { self.new ≡ (number_step self.old code expected).left }
        ensures acts { result ≡ (number_step self.old code expected).acts }
    {
        if code != WRONG_NUMBER {
            return Acts::of(&[Act::Show(Trouble::Unsure(code))]);
        }
        match self.file.place {
            Place::Unknown => {
                self.file.place = Place::Free(expected);
                self.file.stop = None;
                self.waiting = Waiting::Nothing;
                Acts::of(&[Act::Write])
            }
            Place::Free(number) => self.resume(number, expected),
            Place::UnderWay(sent) => {
                self.file.aside.keep(sent.request);
                self.resume(sent.number, expected)
            }
        }
    }

    /// Goes on with the number that the server expects. What is kept aside had the number before.
    fn resume(&mut self, number: u64, expected: u64) -> Acts
        ensures left { self.new ≡ (resumption self.old number expected).left }
        ensures acts { result ≡ (resumption self.old number expected).acts }
    {
        self.file.place = Place::Free(expected);
        self.file.stop = None;
        self.waiting = Waiting::Nothing;
        if number != expected {
            self.file.aside.forget_all();
        }
        Acts::of(&[Act::LogNumber(expected), Act::Write])
    }

    fn miss(&mut self) -> Acts
        ensures left { self.new ≡ (silence_step self.old).left }
        ensures acts { result ≡ (silence_step self.old).acts }
    {
        match (self.waiting, self.file.place) {
            (Waiting::Once, Place::UnderWay(sent)) => {
                self.waiting = Waiting::Again;
                Acts::of(&[Act::Pause, Act::Send(sent)])
            }
            (Waiting::Again, Place::UnderWay(sent)) => Acts::of(&[Act::Pause, Act::Send(sent)]),
            (Waiting::Kept(untried, _), Place::UnderWay(sent)) => {
                match self.untried_request(untried) {
                    Some(request) => {
                        let number = sent.number;
                        Acts::of(&[Act::Pause, Act::Send(Sent { number, request })])
                    }
                    None => Acts::of(&[]),
                }
            }
            (Waiting::Number, _) => Acts::of(&[Act::Pause, Act::AskNumber]),
            _ => Acts::of(&[]),
        }
    }

    fn give_up(&mut self) -> Acts
        ensures left { self.new ≡ (patience_step self.old).left }
        ensures acts { result ≡ (patience_step self.old).acts }
    {
        match self.waiting {
            Waiting::Nothing => Acts::of(&[]),
            _ => Acts::of(&[Act::Show(Trouble::Waits)]),
        }
    }

    fn look(&mut self) -> Acts
        ensures left { self.new ≡ (look_step self.old).left }
        ensures acts { result ≡ (look_step self.old).acts }
    {
        self.waiting = Waiting::Number;
        Acts::of(&[Act::AskNumber])
    }
}

/// The number after this one. There is none after the one behind the greatest.
fn number_after(number: u64) -> u64
    ensures { result ≡ number_after number }
{
    if number <= GREATEST_NUMBER {
        number + 1
    } else {
        GREATEST_NUMBER + 1
    }
}
