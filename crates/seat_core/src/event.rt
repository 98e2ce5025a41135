// What befalls a station.

/// What befalls a station. A reply is one to what the station sent last.
#[derive(Clone, Copy)]
pub enum Event {
    /// It starts, for the first time or again, with what its file has; or a person has it go on.
    Start,
    /// It is asked to make the request of this name.
    Want(u64),
    /// A reply of the server's came, with status 200, whole and of what was asked. It has this name.
    Accept(u64),
    /// A refusal of the server's came: its number, and the number that it says is expected, 0 where
    /// it says none.
    Refuse(u8, u64),
    /// No reply came, or a cut one, a 503, or a page that isn't the server's.
    Miss,
    /// No reply came, and its patience ends.
    GiveUp,
    /// A person has looked why it stopped, and has it go on with the number that is expected.
    Look,
}
