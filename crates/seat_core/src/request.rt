// Requests, as a station names and sends them, and what becomes of them.

/// A request as it is sent. With one number and one request the bytes are the same.
#[derive(Clone, Copy)]
pub struct Sent {
    /// The number `nr`, from 1 on.
    pub number: u64,
    /// The name under which the station keeps the path and the members, without the number. Two
    /// requests have one name only where these are the same.
    pub request: u64,
}

/// A request that was done, with its reply.
#[derive(Clone, Copy)]
pub struct Answered {
    /// The request's name.
    pub request: u64,
    /// The name under which the station keeps the members of the reply.
    pub reply: u64,
}

/// What became of a request.
#[derive(Clone, Copy)]
pub enum Outcome {
    /// It was done, and the reply has this name.
    Done(u64),
    /// It was refused by this number (the API's table of refusals), and not done.
    NotDone(u8),
}

/// A refusal that a station can't go on behind.
#[derive(Clone, Copy)]
pub struct Stop {
    /// The refusal's number: mostly 11 or 12.
    pub code: u8,
    /// The number that the server expects, 0 where the refusal doesn't say it.
    pub expected: u64,
}
