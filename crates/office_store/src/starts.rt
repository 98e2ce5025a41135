// What the text of a site that a store holds is from one start to the next.
ghost use Rattle.std.specs.Prelude.{◌≡◌};
ghost use Rattle.site_core.specs.Prelude.{IsGrowth, IsSiteText, TextOfSite};
ghost use Rattle.sqlite.specs.Files.{HoldsDatabase};
ghost use Rattle.sqlite.specs.Held.{Held, state};
ghost use Rattle.sqlite.specs.Recovery.{Image};
ghost use Rattle.sqlite.specs.Tree.{Trees};
ghost use Rattle.store_inspection.specs.Prelude.{HoldsSite, HoldsSiteText, IsOurs};
ghost use Rattle.office_store.specs.Prelude.{tells_text_at};
ghost use Rattle.office_store.specs.Prelude.{TakesGrowth};

use sqlite::Alter;

/// A store that was opened tells of the text of its site. Of it `open` and `adopt` say that a crash leaves
/// nothing but what it shows, and that this holds the text and is of the site. So whatever a crash leaves
/// tells of the text.
pub fn opened_stores_tell_their_text<S: Alter>()
    ensures { (conn : Held S) (site : TextOfSite)
        → ((db : Trees) → (state S.Store conn).may_leave db → db ≡ (state S.Store conn).now.trees)
        → HoldsSiteText site.text (state S.Store conn).now.trees
        → IsOurs site.digest (state S.Store conn).now.trees
        → tells_text_at S.Store conn site.text }
{}

/// The site of a start grew from that of the start before it. Files are left with a database that
/// tells of the text of the one (`told` of `into_store`). Where an opening of these files takes the
/// other for a growth of what they tell of (`grown` of an opening), the other is a growth of the
/// one.
pub fn later_sites_are_growths()
    ensures { (left : Image) (db : Trees) (before after : TextOfSite)
        → IsSiteText before.text before.site
        → HoldsDatabase left db → HoldsSite before.text db
        → ((found : Trees) → HoldsDatabase left found → TakesGrowth after.site found)
        → IsGrowth before.site after.site }
{}
