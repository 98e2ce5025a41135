//! What few steps leave of a store.
ghost use Rattle.std.specs.Prelude.{◌≤◌};

use crate::conversations::plans;
use std::alloc::Global;
use std::test::Fail;
use test_fixtures::conversations::plans::A_BIT_AND_ITS_LOCK;
use test_fixtures::conversations::{exchanges, is_unanswered};
use test_fixtures::samples::SITE;
use test_support::conversation::{difference_over, first_difference};
use test_support::keepers::{Fresh, SqlMemory};
use yield_counts::Counted;

/// A keeper whose statements may be limited. The functions below take any, so that nothing proves in
/// each how the parts of a database are dropped.
trait Limited: Fresh {
    /// The keeper, whose statements may take so many steps from now on.
    fn with_steps(self, alloc: Global, steps: u64) -> Self
        requires { 1 ≤ steps };
}

impl Limited for Counted<SqlMemory> {
    fn with_steps(self, alloc: Global, steps: u64) -> Counted<SqlMemory> {
        let mut keep = self.into_keep();
        keep.set_steps(steps);
        Counted::over(alloc, keep)
    }
}

/// Holds a conversation over a store that may first take one step a statement, and is adopted anew
/// after each request: the first request that gets neither its reply nor 503, or whose repeat doesn't
/// get its reply once the store may take a million steps, and what it got.
fn first_difference_in_few_steps<K: Limited>(
    alloc: Global,
    conversation: &str,
) -> Result<String, Fail> {
    let mut keep = K::fresh(alloc)?;
    for exchange in exchanges(alloc, conversation)? {
        keep = keep.with_steps(alloc, 1);
        let found = difference_over(alloc, &mut keep, exchange)?;
        if !found.is_empty() && !is_unanswered(found.as_str()) {
            return Ok(found);
        }
        keep = keep.with_steps(alloc, 1_000_000);
        let found = difference_over(alloc, &mut keep, exchange)?;
        if !found.is_empty() {
            return Ok(found);
        }
        keep = keep.reopened(alloc, SITE)?;
    }
    Ok(String::new(alloc))
}

/// A ledger of six entries, whose walk takes more than a step.
const INTERRUPTED: &str = r#"
a1 GET /v1/ledger?chip=00000000000a
503 {"error":"unkept","no":50}
"#;

/// What is got for a ledger where a statement may take one step: what differs first.
fn first_difference_in_one_step<K: Limited>(alloc: Global) -> Result<String, Fail> {
    let mut keep = K::fresh(alloc)?;
    let found = first_difference(alloc, &mut keep, A_BIT_AND_ITS_LOCK)?;
    if !found.is_empty() {
        return Ok(found);
    }
    keep = keep.with_steps(alloc, 1);
    first_difference(alloc, &mut keep, INTERRUPTED)
}

/// Holds the conversations about plans in few steps, and asks for a ledger in one: what differs first.
fn first_difference_of_steps<K: Limited>(alloc: Global) -> Result<String, Fail> {
    for row in plans() {
        let found = first_difference_in_few_steps::<K>(alloc, row.1)?;
        if !found.is_empty() {
            return Ok(format!(in alloc; "{}: {found}", row.0)?);
        }
    }
    first_difference_in_one_step::<K>(alloc)
}

/// What a limit of steps interrupts is answered 503 and changes nothing. The store is adopted anew
/// after each request.
#[test]
fn few_steps_change_nothing_or_serve(rt: HostRuntime) -> Result<(), Fail> {
    let found = first_difference_of_steps::<Counted<SqlMemory>>(rt.alloc())?;
    assert_eq!(rt; found.as_str(), "");
    Ok(())
}
