// The laws of a station and the office.
ghost use Rattle.std.specs.Prelude.{◌≡◌, ℕ, List, Some, true};
ghost use Rattle.office_tables.specs.declared.rows.Device.{Device};
ghost use Rattle.http_replies.specs.Prelude.{Answer as Response};
ghost use Rattle.fusemap_core.specs.Prelude.{Map};
ghost use Rattle.office_rules.specs.Prelude.{map_named};
ghost use Rattle.office_laws.specs.Prelude.{SeatRun};
ghost use Rattle.seat_core.specs.declared.request.Answered.{Answered};
ghost use Rattle.seat_laws.specs.Prelude.{Answer, Concludes, IsAmong, IsLogged, WereRefused};
ghost use Rattle.seat_runs.specs.Prelude.{IsDoneThen, IsPlanRecorded, IsRecorded, IsRowOf, IsMomentOf, Moment, MomentOf};
ghost use Rattle.seat_runs.specs.Prelude.{ReadsRefusals, ReadsReplies, answered_in};
ghost use Rattle.seat_runs.specs.Prelude.{StationRun, StaysExpected, StaysUntilEnd, asks_for, device_of, is_plan, row_after, world_after};

/// Over a run of the office, a station's log is what the office did at its seat, but for at most
/// one request, which the station has under way or aside (`log`). The seat's row in the customer's
/// tables is of the newest of these (`row`). What the station told as done was done at one moment
/// of the run, with the reply that it told (`told`). The log has a request before it is sent
/// (`logged`). Each refusal in the log is an answer that the request had (`refused`).
pub fn a_station_concludes_what_the_office_did()
    ensures log { (s : StationRun) → Concludes s.first (world_after s) }
    ensures row { (s : StationRun)
        → IsRowOf s.names s.first (row_after s) (world_after s).books }
    ensures told { (s : StationRun) (told : Answered) → IsAmong told (world_after s).told
        → (m : MomentOf s) × IsMomentOf s told m }
    ensures logged { (s : StationRun) → IsLogged (world_after s) }
    ensures refused { (s : StationRun)
        → WereRefused (answered_in s.names s.turns) (world_after s).log }
{}

/// Over a run of the office, from sound tables: behind a plan that was done, what its reply says is
/// to be burnt is pending in the row of the chip's device (`reply`). The row stays as it is until a
/// seat of the customer reads the chip back or scraps it (`stays`). And all that a row says is
/// burnt or to be burnt is so by the chip's row from then on, until the device is quarantined or
/// scrapped (`expected`).
pub fn what_a_plan_tells_is_recorded()
    ensures reply { (r : SeatRun) (m : Moment r.exchanges r.old r.new) (chip : List ℕ)
        → asks_for (is_plan chip) m.exchange.0.wanted ≡ true → IsDoneThen m
        → IsRecorded m.exchange.0.section.name chip m.exchange.1 m.new }
    ensures stays { (r : SeatRun) (customer chip : List ℕ) (d : Device)
        → device_of customer chip r.old ≡ Some d
        → StaysUntilEnd customer chip d r.exchanges r.old r.new }
    ensures expected { (r : SeatRun) (customer chip : List ℕ) (d : Device) (m : Map)
        → device_of customer chip r.old ≡ Some d → map_named customer d.map r.old ≡ Some m
        → StaysExpected customer chip m d r.new }
{}

/// No bit without a record: a plan that a station told as done is pending in the row of the chip's
/// device from before that reply on, until the chip is read back or scrapped, whoever asks for
/// that. From then on each bit and each key of it is burnt or to be burnt by that row, until the
/// device is quarantined or scrapped.
pub fn a_told_plan_is_recorded()
    ensures { (s : StationRun) (told : Answered) (chip : List ℕ)
        → IsAmong told (world_after s).told
        → ((number : ℕ) → is_plan chip (s.names.request_of told.request number).command ≡ true)
        → IsPlanRecorded s told chip }
{}

/// A station can read each answer of the office: for every way in which it names replies there is a
/// reading that tells each refusal by its number, and the number that it says is expected, as these
/// laws suppose it of a station.
pub fn each_answer_can_be_read()
    ensures { (name_of : List ℕ → ℕ)
        → (read : Response → Answer) × ReadsReplies name_of read × ReadsRefusals read }
{}
