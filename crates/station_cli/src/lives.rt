// What a store in a file comes to in one start of the program.
ghost use Rattle.std.specs.Prelude.{◌≡◌};
ghost use Rattle.http_frames.specs.Prelude.{requests_with_answers};
ghost use Rattle.http_frames.specs.declared.serving.Served.{Served};
ghost use Rattle.sqlite.specs.WalFiles.{image_at};
ghost use Rattle.site_core.specs.Prelude.{IsGrowth, IsSite, IsSiteText, TextOfSite};
ghost use Rattle.office_tables.specs.Prelude.{Tables};
ghost use Rattle.office_store.specs.Prelude.{HasTablesOf, IsFoundSo, MayBeFound, TakesGrowth};
ghost use Rattle.office_store.specs.declared.opening.Absent.{Absent};
ghost use Rattle.station_api.specs.Prelude.{Life, ServesOver};
ghost use Rattle.station_cli.specs.Prelude.{IsServedOver, LeadsOn, Traffic};

use office_core::Keep;
use office_store::{SqlKeep, opened_stores_tell_their_text};
use sqlite::{FileFrom, FileStore};
use sqlite_disk::Start;
use station_api::served_stores_have_lives;

/// A store in a file that `serve_site` opened for a site, and served connections over (`books`), has a
/// life. The life begins with the tables that the file held, and has the exchanges that led on from
/// them. It leaves any tables that whoever opens the files that came back may find.
pub fn served_files_have_lives<S: Start>()
    ensures { (site : TextOfSite) (absent : Absent) (files : _) (tables : Tables)
        (served : IsServedOver site (image_at S.Start) absent
        (LeadsOn ⟦<SqlKeep<FileStore<FileFrom<S>>> as Keep>⟧ site.site) files)
        → IsSite site.site → MayBeFound files tables
        → ∥ ((life : Life) × (life.site ≡ site.site) × HasTablesOf (image_at S.Start) life.begun
        × (life.exchanges ≡ served.leads.0) × (life.left ≡ tables)) ∥₁ }
{
    served_stores_have_lives::<SqlKeep<FileStore<FileFrom<S>>>>();
}

/// The site of a start grew from that of the start before it. The files that came back of one start, as
/// `serve_site` says of it (`books`), are opened for another site. Where the opening takes the site that
/// they tell for one that the other grew from (`grown` of an opening), the other site is a growth of the
/// first start's. So the sites of the program's starts over one store are each a growth of the one
/// before, as `lives_are_one_run` asks.
pub fn later_starts_are_of_growths<S: Start>()
    ensures { (site next : TextOfSite) (absent : Absent) (files : _)
        → IsServedOver site (image_at S.Start) absent
        (LeadsOn ⟦<SqlKeep<FileStore<FileFrom<S>>> as Keep>⟧ site.site) files
        → IsSiteText site.text site.site → IsFoundSo files (TakesGrowth next.site)
        → ∥ IsGrowth site.site next.site ∥₁ }
{
    opened_stores_tell_their_text::<FileStore<FileFrom<S>>>();
}

/// A stream that `replay_stored` served over a store in a file (`books`) is a start of the program, as
/// those of `serve_site` are, with the stream's exchanges. So the two laws above hold of it too.
pub fn replays_are_starts<S: Start>()
    ensures { (site : TextOfSite) (absent : Absent) (files : _) (traffic : Traffic) (ended : Served)
        (served : IsServedOver site (image_at S.Start) absent
        (ServesOver ⟦<SqlKeep<FileStore<FileFrom<S>>> as Keep>⟧ site.site traffic.input_old
        traffic.input_new traffic.output_old traffic.output_new ended) files)
        → (start : IsServedOver site (image_at S.Start) absent
        (LeadsOn ⟦<SqlKeep<FileStore<FileFrom<S>>> as Keep>⟧ site.site) files)
        × (start.leads.0 ≡ requests_with_answers served.leads.0) }
{}
