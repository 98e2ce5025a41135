// What holds of plans and read-backs.
ghost use Rattle.fuse_plan.specs.Prelude.{MatchLaw, FirstBatchLaw, FirstRestLaw, LocksShow, PlanLaw, RestLaw, RestsInMap, SecondBatchLaw, SecondRestLaw};

/// A read-back matches exactly where it is what the chip shows when all of the batch is burnt and
/// nothing else, for a batch that stays readable.
#[tactic(auto, using(crate::proofs::Law::match_law))]
pub fn match_law()
    ensures { MatchLaw }
{}

/// What a plan is to burn isn't burnt yet, its second batch lies in the lock fields and its first
/// outside them, and its first batch stays readable.
pub fn plan_law()
    ensures { PlanLaw }
{}

/// What a read-back of the first batch leaves is pending on the chip as it is then, unless the read-back
/// says that something is wrong.
pub fn first_rest_law()
    ensures { FirstRestLaw }
{}

/// What a read-back of the second batch leaves is pending on the chip as it is then, whatever the
/// read-back says.
pub fn second_rest_law()
    ensures { SecondRestLaw }
{}

/// No read lock hides a position of the lock fields.
#[tactic(auto, using(crate::proofs::Shown::locks_show))]
pub fn locks_show()
    ensures { LocksShow }
{}

/// Where a read-back says nothing wrong, the rest that it tells is what falls short of the batch.
pub fn rest_law()
    ensures { RestLaw }
{}

/// What a read-back leaves to be burnt lies in the map where the plan does.
pub fn rests_in_map()
    ensures { RestsInMap }
{}

/// A read-back of a batch that is pending matches exactly where it is what the chip shows when all
/// of that batch is burnt and nothing else.
#[tactic(auto, using(crate::proofs::Pending::first_batch_law, crate::proofs::Pending::second_batch_law))]
pub fn batch_laws()
    ensures first { FirstBatchLaw }
    ensures second { SecondBatchLaw }
{}
