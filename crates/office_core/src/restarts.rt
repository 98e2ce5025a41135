// What holds of a store that was stopped.
ghost use Rattle.std.specs.Prelude.{◌++◌, List};
ghost use Rattle.std.specs.List.{AllByRecursion};
ghost use Rattle.site_core.specs.Prelude.{PoolsDisjoint, Ownership, OwnershipGrows};
ghost use Rattle.office_tables.specs.Prelude.{Tables};
ghost use Rattle.office_laws.specs.Prelude.{IsSound, Exchange, calls_of, IsSeat, Promises, IsLeft, StaysInDoubt};
ghost use Rattle.office_core.specs.Prelude.{Answered, IsLife};

use office_tables::Keep;

/// A store that was stopped goes on as if it hadn't been, though the site may have grown in between.
/// What a crash left of it are its tables, or those after one step more, of a request that was answered
/// 503 since the last one that wasn't. Where a store is opened over what was left, all that was answered
/// before the stop, that step, and what is answered after it are one run.
///
/// From sound tables all that is promised of a run is promised of this one. What was answered is
/// there, and nothing is given twice. A request that comes again acts once and gets the reply of
/// its one execution, and so does the one with that step.
pub fn stopped_stores_go_on<K: Keep, L: Keep>()
    ensures { (site grown : Ownership) (opened stopped : K) (again later : L)
        (xs ys : List Exchange) (t t2 left t3 : Tables)
        → OwnershipGrows site grown → PoolsDisjoint site → PoolsDisjoint grown
        → AllByRecursion (IsSeat site) (calls_of xs) → AllByRecursion (IsSeat grown) (calls_of ys)
        → IsLife K.Keep opened stopped xs t t2 left
        → Answered L.Keep again later ys left t3
        → (more : List Exchange) × IsLeft (StaysInDoubt xs) t2 more left
        × ((first : Ownership) → OwnershipGrows first site → IsSound first t
        → Promises grown (xs ++ (more ++ ys)) t t3) }
{}
