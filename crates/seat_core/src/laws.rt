// Laws over the definitions alone.
ghost use Rattle.std.specs.Prelude.{◌≡◌, ℕ, Bool};
ghost use Rattle.seat_core.specs.declared.request.Sent.{Sent};
ghost use Rattle.seat_core.specs.declared.station.SeatFile.{SeatFile};
ghost use Rattle.seat_core.specs.declared.station.Waiting.TheVariants.{Once, Again, Kept, Number};
ghost use Rattle.seat_core.specs.declared.event.Event.{Event};
ghost use Rattle.seat_core.specs.declared.event.Event.TheVariants.{Refuse};
ghost use Rattle.seat_core.specs.declared.station.Station.{Station};
ghost use Rattle.seat_core.specs.Prelude.{IsKept, IsSafe, IsSure, step_of, with_request};

/// Whatever befalls a station: where its file changes it writes it, and before it sends anything. It
/// sends only what that file has under way, or aside with the same number. So a station that is
/// stopped between two acts and starts again has what it may have sent, and sends the same bytes.
pub fn what_is_sent_is_written()
    ensures { (s : Station) (event : Event) → IsSafe s (step_of s event) }
{}

/// A refusal, whichever it is, takes no number, and the request under way is still that then, or the
/// newest of those aside, as a copy of it may still come (`once`, `again`). So it is where a request
/// was refused that was kept aside (`probe`), and where a person looked and the expected number is
/// the request's own (`look`). Of a request that may have been sent before the log has no refusal of
/// 1 to 10 (`again`), which doesn't say whether it was done.
pub fn a_refusal_takes_no_number()
    ensures once { (f : SeatFile) (sent : Sent) (code expected : ℕ)
        → IsKept sent (step_of (with_request f sent Once) (Refuse code expected)) }
    ensures again { (f : SeatFile) (sent : Sent) (code expected : ℕ)
        → IsSure sent (step_of (with_request f sent Again) (Refuse code expected)) }
    ensures probe { (f : SeatFile) (sent : Sent) (untried : ℕ) (again : Bool) (code expected : ℕ)
        → IsKept sent (step_of (with_request f sent (Kept untried again)) (Refuse code expected)) }
    ensures look { (f : SeatFile) (sent : Sent) (code : ℕ)
        → IsKept sent (step_of (with_request f sent Number) (Refuse code sent.number)) }
{}
