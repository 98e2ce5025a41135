// Laws of whole runs, over the definitions alone.
ghost use Rattle.std.specs.Prelude.{◌≡◌, List, Some, true, ℕ};
ghost use Rattle.std.specs.List.{AllByRecursion};
ghost use Rattle.http_replies.specs.Prelude.{is_unavailable};
ghost use Rattle.site_core.specs.Prelude.{IsGrowth, Ownership, OwnershipGrows, ownership_of, SiteValue, IsSite};
ghost use Rattle.office_tables.specs.Prelude.{Tables, given_at};
ghost use Rattle.office_tables.specs.declared.rows.Given.{Given};
ghost use Rattle.office_tables.specs.declared.rows.OfCustomer.{OfCustomer};
ghost use Rattle.office_laws.specs.Prelude.{addresses_of, AreNotImported, AreSeats, Call, calls_of, Exchange, Grows, IsCut, IsIsolated, IsRun, IsSound};
ghost use Rattle.office_laws.specs.Prelude.{ActsOnce, AreSessions, EndAlike, IsInDoubt, IsLeft, IsStoppedRun, IssuesOnce, Leaves, Promises, refused, SeatRun};
ghost use Rattle.office_laws.specs.Prelude.{Session, StartAlike};
ghost use Rattle.office_commands.specs.Prelude.{unkept};

/// What a run from sound tables does, though the site may grow on the way:
///
/// - `sound`: the tables stay sound.
/// - `isolated`: each customer's replies and rows are those of the customer's own machine, run on
///   the customer's own calls alone.
/// - `grows`: nothing that was burnt is forgotten, an order stays but for its cursor, what is given
///   and each entry of a ledger stays, and no order gets more devices than it is for.
pub fn runs_are_the_customers_own()
    ensures sound { (r : SeatRun) → IsSound r.last r.new }
    ensures isolated { (r : SeatRun) (customer : List ℕ)
        → IsIsolated customer r.exchanges r.old r.new }
    ensures grows { (r : SeatRun) → Grows r.old r.new }
{}

/// Two runs may be under whatever sites, and with whatever other calls between. Before both a
/// customer has the same rows, and in both the customer's calls that weren't answered 503 are the
/// same, by the same sections and seats (`StartAlike`). Then the customer gets the same replies to
/// them in both, and has the same rows after (`EndAlike`).
pub fn other_calls_make_no_difference()
    ensures { (customer : List ℕ) (r other : SeatRun)
        → StartAlike customer r other → EndAlike customer r other }
{}

/// Over a run from sound tables, a customer's rows are those that the customer's own machine has
/// after each accepted command once, and one that comes again gets the reply of the first.
pub fn repeats_act_once()
    ensures { (r : SeatRun) (customer : List ℕ) → ActsOnce customer r.exchanges r.old r.new }
{}

/// Over a run from sound tables, each accepted identity that is no repeat gives a record. Its
/// serial number was given to nobody before, and its addresses are no other record's. No two of
/// these identities give the same (`given`). None gives what an import recorded, nor what one has
/// recorded at any moment of the run (`imported`). The addresses of a record are the same at each
/// moment, from when it was given on (`addresses`).
pub fn identities_give_once()
    ensures given { (r : SeatRun) → IssuesOnce r.exchanges r.old r.new }
    ensures imported { (r : SeatRun) (front back : List Exchange) (middle : Tables)
        → IsCut r front middle back → (given : IssuesOnce r.exchanges r.old r.new)
        → AreNotImported middle given.gifts }
    ensures addresses { (r : SeatRun) (front back : List Exchange) (middle : Tables)
        (g : OfCustomer Given) → IsCut r front middle back
        → given_at g.row.issuer g.row.serial middle ≡ Some g
        → addresses_of r.new g ≡ addresses_of middle g }
{}

/// Any calls have a run from sound tables, where they are calls of seats of a site, which may grow
/// between them. In this run each call is answered, and none with 503, but what was refused with it
/// as it came.
pub fn runs_exist()
    ensures { (first last : Ownership) (cs : List Call) (t : Tables)
        → IsSound first t → AreSeats first cs last
        → (xs : List Exchange) × (t2 : Tables) × (calls_of xs ≡ cs) × IsRun xs t t2
        × AllByRecursion (λ x. is_unavailable x.1.status ≡ true → x.0.wanted ≡ refused unkept) xs }
{}

/// All that is promised of a run from sound tables.
pub fn runs_keep_the_promises()
    ensures { (r : SeatRun) → Promises r.last r.exchanges r.old r.new }
{}

/// A run with stops is one run. At each stop stand the tables of the run so far, or those after one
/// step more, of a request that the stop cut off or that was answered 503 since the stop before.
/// The one run is that of all exchanges, with each such step at its place, as if it had been
/// answered (`run`). So all that is promised of a run is promised of it (`promises`). What a crash
/// may leave after the exchanges of a session is what a stop may leave there (`crash`).
pub fn stopped_runs_are_runs()
    ensures run { (ss : List Session) (all : List Exchange) (t t2 : Tables)
        → IsStoppedRun ss all t t2 → IsRun all t t2 }
    ensures promises { (first last : Ownership) (ss : List Session) (all : List Exchange)
        (t t2 : Tables) → IsSound first t → AreSessions first ss last → IsStoppedRun ss all t t2
        → Promises last all t t2 }
    ensures crash { (s : Session) (t left : Tables)
        → Leaves s.exchanges t left → (more : List Exchange) × IsLeft (IsInDoubt s) t more left }
{}

/// A site may grow: tables that are sound for a site are sound for each that grew from it. A site is a
/// growth of itself, and a growth of a growth is one of the first. What a customer's own machine does
/// takes the customer's section alone, so that a customer whose section stays as it was has the same
/// replies and rows, whatever the site gained (`other_calls_make_no_difference`).
pub fn sites_may_grow()
    ensures sound { (old new : SiteValue) (t : Tables)
        → IsSite new → IsGrowth old new → IsSound (ownership_of old) t → IsSound (ownership_of new) t }
    ensures owners { (old new : Ownership) (t : Tables)
        → OwnershipGrows old new → IsSound old t → IsSound new t }
    ensures itself { (site : Ownership) → OwnershipGrows site site }
    ensures again { (first site last : Ownership)
        → OwnershipGrows first site → OwnershipGrows site last → OwnershipGrows first last }
{}
