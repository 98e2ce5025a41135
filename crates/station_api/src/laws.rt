// Laws of requests as they came, over definitions alone.
ghost use Rattle.std.specs.Prelude.{◌≡◌, [], false, List};
ghost use Rattle.http_frames.specs.Prelude.{Request as HttpRequest};
ghost use Rattle.http_replies.specs.Prelude.{Answer, is_unavailable};
ghost use Rattle.site_core.specs.Prelude.{Ownership, ownership_of, Section, SiteValue, IsSite};
ghost use Rattle.office_laws.specs.Prelude.{IsRun, IsSound, Promises};
ghost use Rattle.office_core.specs.Prelude.{AreGrown, BeginGrown, last_owners};
ghost use Rattle.office_tables.specs.Prelude.{KeepsText, Tables};
ghost use Rattle.station_api.specs.Prelude.{StreamKeepsPromises, AnswersHttp, SiteRun, HasSection, SiteRunsStartAlike, SiteRunsEndAlike};
ghost use Rattle.station_api.specs.Prelude.{AreLives, exchanges_of_lives, IsLifeOf, Life, ServedStore, sites_of_lives};

use office_core::Keep;

/// Requests that are answered in turn, from tables that are sound for the site or for one that it
/// grew from, keep the books: all that is promised of a run holds of their exchanges with the site's
/// seats. Each customer's own exchanges are those whose requests carry the token of one of the
/// customer's seats, but for those answered 503. The replies in them and the customer's rows are
/// those of the customer's own machine, run on them alone.
pub fn requests_keep_the_books()
    ensures { (r : SiteRun) → StreamKeepsPromises r.site r.old r.exchanges r.new }
{}

/// What others ask for makes no difference to a customer. Take two sites with the same section of
/// the customer, tables with the same rows of the customer's, and the same own calls that weren't
/// answered 503. Under both the customer gets the same replies and has the same rows after, whatever
/// else was asked for.
pub fn other_requests_make_no_difference()
    ensures { (section : Section) (r other : SiteRun)
        → HasSection r.site section → HasSection other.site section
        → SiteRunsStartAlike section r other → SiteRunsEndAlike section r other }
{}

/// From sound tables there is an answer to each request that isn't 503.
pub fn requests_have_answers()
    ensures { (site : SiteValue) (t : Tables) (r : HttpRequest)
        → IsSite site → IsSound (ownership_of site) t
        → (reply : Answer) × (t2 : Tables) × AnswersHttp site t r reply t2
        × (is_unavailable reply.status ≡ false) }
{}

/// A store that is served over has a life, however the program ends. Stopped in the middle of a
/// request, killed or crashed, it leaves what a crash may leave of it then. These are the tables at
/// the end, or those after one step more, of a request that was answered 503 since the last one that
/// wasn't. Where the store is open when the program ends, as it is when it ends properly, its tables
/// are left, and no step is in doubt. What is left tells the text of the site that the store told when
/// it was opened.
pub fn served_stores_have_lives<K: Keep>()
    ensures stopped { (s : ServedStore K.Keep) (left : Tables)
        → K.is_honest s.ended → K.may_leave s.ended left
        → (life : Life) × IsLifeOf s left life }
    ensures ended_properly { (s : ServedStore K.Keep) → K.is_open s.ended
        → (life : Life) × IsLifeOf s (K.tables s.ended) life × (life.more ≡ []) }
    ensures text { (s : ServedStore K.Keep) → KeepsText K.is_honest K.tells_text s.opened s.ended }
{}

/// The lives of a store, one after another under sites that grow, are one run: that of each life's
/// exchanges with seats in turn, with each step that an end left at its place, as if it had been
/// answered. So where the tables of the first were sound, for a site from which its own grew, all that
/// is promised of a run is promised of all starts of the program together.
pub fn lives_are_one_run()
    ensures run { (lives : List Life) (t t2 : Tables)
        → AreLives t lives t2 → IsRun (exchanges_of_lives lives) t t2 }
    ensures promises { (first : Ownership) (lives : List Life) (t t2 : Tables)
        → BeginGrown first (sites_of_lives lives) → AreGrown (sites_of_lives lives)
        → IsSound first t → AreLives t lives t2
        → Promises (last_owners first (sites_of_lives lives)) (exchanges_of_lives lives) t t2 }
{}
