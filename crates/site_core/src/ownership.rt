// Laws of sites and their owners, over the definitions alone.
ghost use Rattle.std.specs.Prelude.{◌≡◌, Some};
ghost use Rattle.site_core.specs.Prelude.{IsSeatCaller, seat_name_at, section_at, IsGrowth, PoolsDisjoint, IsSection, OwnershipGrows, ownership_of, SiteValue};
ghost use Rattle.site_core.specs.Prelude.{IsSite};
ghost use Rattle.site_core.specs.declared.site.SeatCaller.{SeatCaller};

/// The issuers, seats and pools of each customer are that customer's alone.
pub fn sections_are_the_customers_own()
    ensures section { (site : SiteValue) (caller : SeatCaller) → IsSite site
        → IsSeatCaller site caller
        → IsSection (ownership_of site) (section_at site caller) }
    ensures seat { (site : SiteValue) (caller : SeatCaller) → IsSite site → IsSeatCaller site caller
        → (ownership_of site).seat (seat_name_at site caller) ≡ Some (section_at site caller).name }
    ensures apart { (site : SiteValue) → IsSite site → PoolsDisjoint (ownership_of site) }
{}

/// Where a site grew, each issuer, seat and block of addresses of a customer is still that
/// customer's.
pub fn owners_grow_with_a_site()
    ensures { (old new : SiteValue) → IsSite new → IsGrowth old new
        → OwnershipGrows (ownership_of old) (ownership_of new) }
{}

/// A site is a growth of itself, and a growth of a growth is one of the first.
pub fn growth_is_a_preorder()
    ensures itself { (site : SiteValue) → IsGrowth site site }
    ensures again { (one other next : SiteValue)
        → IsGrowth one other → IsGrowth other next → IsGrowth one next }
{}
