// What a station's file says, in memory.
ghost use Rattle.std.specs.Prelude.{◌≡◌, ◌==◌, find, option_map};

use seat_core::SeatFile;
use text_core::Text;

/// A request that a station has a name for.
#[derive(Drop)]
pub struct Asked {
    /// Its name. Two requests have one name only where they are the same.
    pub name: u64,
    /// Its path.
    pub path: Text,
    /// Its members without the number, as a JSON object.
    pub members: Text,
}

/// The requests that a station has names for.
#[derive(Drop)]
pub struct Names {
    /// Those that are under way or aside, and maybe others.
    pub requests: Vec<Asked>,
    /// The greatest name that a request got so far, 0 before the first.
    pub named: u64,
}

/// What a station's file says.
#[derive(Drop)]
pub struct SeatState {
    /// What the machine knows.
    pub file: SeatFile,
    /// The requests that it speaks of by their names.
    pub names: Names,
}

impl Names {
    /// The request with this name, if it is there.
    pub fn request(&self, name: u64) -> Option<&Asked>
        ensures { option_map (λ asked. asked.now) result
            ≡ find (λ asked. asked.name == name) self.now.requests.items }
    {
        self.requests.iter().find(|asked| asked.name == name)
    }
}
