// Laws over the definitions alone.
ghost use Rattle.std.specs.Prelude.{◌≡◌, ℕ, List, [], Some};
ghost use Rattle.seat_core.specs.Prelude.{aside_with};
ghost use Rattle.seat_ask.specs.Prelude.{AreNew, IsWritable, StateValue, state_data, state_in};

/// What is written of a station's file is read as the same: of any that has at most 16 requests aside,
/// each once. So it is of each that the machine comes to, which keeps a request aside once.
pub fn what_is_written_is_read()
    ensures whole { (s : StateValue) → IsWritable s → state_in (state_data s) ≡ Some s }
    ensures once { (request : ℕ) (aside : List ℕ) → AreNew [] aside
        → AreNew [] (aside_with request aside) }
{}
