//! The making of a store's file over a folder in memory.
use crate::imagined::{Act, CALM, Call, Content, Imagined, Lies, Outcome, THEIRS, Trial};
use std::alloc::Global;
use std::test::Fail;
use store_file::{Name, make};

/// A file of no bytes, and one of the page.
const EMPTY: Lies = Lies::File(Content::Empty);

const PAGE: Lies = Lies::File(Content::Page);

/// A store that is there.
const STORE: Lies = Lies::File(Content::Bytes(4096));

/// The calls by which a store is made over a file of no bytes where nothing disturbs. The lock of that file comes behind
/// the second look at its name; where there is no such file that call isn't made.
const CALLS: [Call; 13] = [
    Call::Look(Name::Store),
    Call::Look(Name::Log),
    Call::Make,
    Call::Lock,
    Call::Compare,
    Call::Restrict,
    Call::Cut,
    Call::Write,
    Call::Sync,
    Call::Look(Name::Store),
    Call::Guard,
    Call::Rename,
    Call::SyncFolder,
];

/// What a making comes to that makes the store.
const MADE: Outcome = Outcome {
    is_ok: true,
    store: PAGE,
    unfinished: Lies::Nothing,
    is_private: true,
    is_kept: true,
    is_safe: true,
    is_theirs: true,
};

/// What a making comes to that leaves these.
fn left(is_ok: bool, store: Lies, unfinished: Lies) -> Outcome {
    Outcome {
        is_ok,
        store,
        unfinished,
        is_private: false,
        is_kept: true,
        is_safe: true,
        is_theirs: true,
    }
}

/// What lies in a folder, and what a making comes to. What a crash left of a making is written anew, and what it
/// can't have left stays, and so does whatever has the store's name.
fn folders() -> [(&'static str, Trial, Outcome); 21] {
    let (none, other) = (Lies::Nothing, Lies::Other);
    let half = Content::Bytes(512);
    let long = Lies::File(Content::Bytes(1025));
    let some = |store, unfinished, log| Trial {
        store,
        unfinished,
        log,
        ..CALM
    };
    let twin = Lies::Twin(Content::Empty);
    let had = Lies::Locked(Content::Empty);
    let leads = |behind| Trial {
        store: other,
        behind,
        ..CALM
    };
    [
        ("nothing", CALM, MADE),
        ("a file of no bytes", some(EMPTY, none, none), MADE),
        ("a store", some(STORE, none, none), left(true, STORE, none)),
        (
            "a store, and a file",
            some(STORE, long, none),
            left(true, STORE, long),
        ),
        ("two names", some(twin, none, none), left(false, twin, none)),
        (
            "another has it",
            some(had, none, none),
            left(false, had, none),
        ),
        ("a link to nothing", leads(None), left(false, other, none)),
        (
            "a link to no bytes",
            leads(Some(0)),
            left(false, other, none),
        ),
        (
            "a link to a store",
            leads(Some(4096)),
            left(true, other, none),
        ),
        (
            "a log alone",
            some(none, none, Lies::File(Content::Bytes(41))),
            left(false, none, none),
        ),
        (
            "a log beside no bytes",
            some(EMPTY, none, STORE),
            left(false, EMPTY, none),
        ),
        (
            "a log that is a link",
            some(none, none, other),
            left(false, none, none),
        ),
        ("an empty log", some(none, none, EMPTY), MADE),
        ("begun", some(none, EMPTY, none), MADE),
        ("half", some(EMPTY, Lies::File(half), none), MADE),
        ("whole", some(none, PAGE, none), MADE),
        (
            "a byte more",
            some(none, long, none),
            left(false, none, long),
        ),
        (
            "a link at the other name",
            some(none, other, none),
            left(false, none, other),
        ),
        (
            "two other names",
            some(none, Lies::Twin(half), none),
            left(false, none, Lies::Twin(half)),
        ),
        (
            "locked",
            some(none, Lies::Locked(half), none),
            left(false, none, Lies::Locked(half)),
        ),
        (
            "locked, no bytes",
            some(EMPTY, Lies::Locked(half), none),
            left(false, EMPTY, Lies::Locked(half)),
        ),
    ]
}

/// What a making in this folder comes to, and the calls that it makes.
fn made_in(rt: &HostRuntime, trial: Trial) -> Result<(Outcome, Vec<Call>), Fail> {
    let mut folder = Imagined::new(rt.alloc(), trial);
    let is_ok = make(&mut folder).is_ok();
    let outcome = folder.outcome(is_ok);
    Ok((outcome, folder.into_calls()))
}

#[test]
fn a_store_is_made_where_nothing_is_taken_away(rt: HostRuntime) -> Result<(), Fail> {
    for (what, trial, wanted) in folders() {
        let (outcome, _) = made_in(&rt, trial)?;
        assert_eq!(rt; outcome, wanted, "{what}");
    }
    Ok(())
}

/// The calls by which a store is made over this where nothing disturbs.
fn calls_over(alloc: Global, store: Lies) -> Result<Vec<Call>, Fail> {
    let mut calls = Vec::new(alloc);
    for call in CALLS {
        if call != Call::Guard || store != Lies::Nothing {
            calls.push(call)?;
        }
    }
    Ok(calls)
}

/// A sync comes before the renaming, and that of the folder behind it; and a store that is there is looked at alone.
#[test]
fn the_calls_come_in_their_order(rt: HostRuntime) -> Result<(), Fail> {
    for store in [Lies::Nothing, EMPTY] {
        let (_, calls) = made_in(&rt, Trial { store, ..CALM })?;
        let wanted = calls_over(rt.alloc(), store)?;
        assert_eq!(rt; calls.as_slice(), wanted.as_slice());
    }
    let (_, calls) = made_in(
        &rt,
        Trial {
            store: STORE,
            ..CALM
        },
    )?;
    assert_eq!(rt; calls.as_slice(), [Call::Look(Name::Store)].as_slice());
    Ok(())
}

/// What lies at the other name where this call is refused, at this place, or it and all behind it. The file that was made
/// stays where its lock wasn't had, or it couldn't be removed.
fn unfinished_by(call: Call, place: usize, is_dead: bool) -> Lies {
    match call {
        _ if place < 3 => Lies::Nothing,
        Call::Lock | Call::Compare => EMPTY,
        Call::SyncFolder => Lies::Nothing,
        _ if !is_dead => Lies::Nothing,
        Call::Restrict | Call::Cut | Call::Write => EMPTY,
        _ => PAGE,
    }
}

/// What a making comes to over this where the call of this place is refused, or it and all behind it.
fn refused_at(store: Lies, call: Call, place: usize, is_dead: bool) -> Outcome {
    if call == Call::SyncFolder {
        return Outcome {
            is_ok: false,
            is_kept: false,
            ..MADE
        };
    }
    left(false, store, unfinished_by(call, place, is_dead))
}

#[test]
fn a_refused_call_leaves_nothing_or_the_whole_store(rt: HostRuntime) -> Result<(), Fail> {
    for (store, is_dead) in [
        (Lies::Nothing, false),
        (Lies::Nothing, true),
        (EMPTY, false),
        (EMPTY, true),
    ] {
        let calls = calls_over(rt.alloc(), store)?;
        for (place, call) in calls.as_slice().iter().enumerate() {
            let trial = Trial {
                store,
                refused: Some(place),
                is_dead,
                ..CALM
            };
            let (outcome, _) = made_in(&rt, trial)?;
            let wanted = refused_at(store, *call, place, is_dead);
            assert_eq!(rt;
                outcome,
                wanted,
                "{call:?} over {store:?}, and all behind it: {is_dead}"
            );
        }
    }
    Ok(())
}

/// Where a second process acts, what it does, in which folder, and what the making comes to.
fn meanwhile() -> [(usize, Act, Trial, Outcome); 14] {
    let none = Lies::Nothing;
    let theirs = Lies::File(THEIRS);
    let locked = Lies::Locked(THEIRS);
    let empty = Trial {
        store: EMPTY,
        ..CALM
    };
    let begun = Trial {
        unfinished: EMPTY,
        ..CALM
    };
    [
        (0, Act::Makes, CALM, left(true, theirs, none)),
        (1, Act::Makes, empty, left(false, theirs, none)),
        (2, Act::Makes, CALM, left(false, theirs, none)),
        (3, Act::Makes, CALM, left(false, theirs, none)),
        (3, Act::Makes, begun, left(false, theirs, none)),
        (4, Act::Makes, CALM, MADE),
        (10, Act::Makes, empty, MADE),
        (2, Act::Begins, CALM, left(false, none, locked)),
        (9, Act::Puts, CALM, left(false, theirs, none)),
        (9, Act::Puts, empty, left(false, theirs, none)),
        (10, Act::Puts, empty, left(false, theirs, none)),
        (10, Act::Fills, empty, left(false, theirs, none)),
        (4, Act::Links, begun, left(false, none, Lies::Other)),
        (5, Act::Links, begun, left(false, none, Lies::Other)),
    ]
}

#[test]
fn another_process_keeps_what_it_made(rt: HostRuntime) -> Result<(), Fail> {
    for (at, act, trial, wanted) in meanwhile() {
        let trial = Trial {
            act: Some((at, act)),
            ..trial
        };
        let (outcome, _) = made_in(&rt, trial)?;
        let wanted = Outcome {
            is_private: outcome.is_private,
            ..wanted
        };
        assert_eq!(rt; outcome, wanted, "{act:?} before call {at}");
    }
    Ok(())
}
