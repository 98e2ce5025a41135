// The laws of a station and its server.
ghost use Rattle.std.specs.Prelude.{ℕ, List};
ghost use Rattle.seat_laws.specs.Prelude.{Concludes, IsAlone, IsDoneOnce, IsLogged, IsRun, IsUnaided, KeepsAll, Move};
ghost use Rattle.seat_laws.specs.Prelude.{WereRefused, answers_in};
ghost use Rattle.seat_laws.specs.Prelude.{after_moves, beginning};

/// A station that begins with a seat of which nothing is under way; nobody else has its token, and
/// no person has it go on. Its log is the seat's accepted requests, but for at most one, which it
/// has under way or aside. Each reply that it told is that of an execution of its own. It hasn't
/// stopped. The network loses, repeats, delays and reorders what the station sends; the station is
/// stopped between any two of its acts; and never more requests are to be kept aside than it keeps.
pub fn a_station_concludes_what_was_done()
    ensures { (first : ℕ) (moves : List Move) → IsRun first beginning moves → IsAlone moves
        → IsUnaided moves → KeepsAll beginning moves
        → Concludes first (after_moves moves beginning) }
{}

/// The same where somebody else has the token, where persons have the station go on, and however
/// many are to be kept aside: what the station sent of a request was done at most as often as the
/// request was wanted.
pub fn a_wanted_request_is_done_once()
    ensures { (first : ℕ) (moves : List Move) → IsRun first beginning moves
        → IsDoneOnce (after_moves moves beginning) }
{}

/// Whatever the network and the server do, a request that the station sent has its line in the log,
/// before it is sent. No person has the station go on.
pub fn what_is_sent_is_logged()
    ensures { (moves : List Move) → IsUnaided moves → IsLogged (after_moves moves beginning) }
{}

/// Each refusal in the log is an answer that the request had, the one with the newest line before
/// it. Others may have the token, and persons may have the station go on. By the server's rule
/// nothing was done by that answer; a copy of the request may still be done later.
pub fn a_logged_refusal_was_answered()
    ensures { (first : ℕ) (moves : List Move) → IsRun first beginning moves
        → WereRefused (answers_in moves) (after_moves moves beginning).log }
{}
