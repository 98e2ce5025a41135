// Laws of the office, over its definitions alone.
ghost use Rattle.std.specs.Prelude.{◌≡◌, ◌↔◌, true, false, List, ℕ, Some, bytes_eq};
ghost use Rattle.http_replies.specs.Prelude.{Answer};
ghost use Rattle.site_core.specs.Prelude.{PoolsDisjoint, Ownership, Section};
ghost use Rattle.office_tables.specs.Prelude.{Tables, device_at, given_at, no_rows};
ghost use Rattle.office_tables.specs.declared.rows.Device.{Device};
ghost use Rattle.office_tables.specs.declared.rows.Given.{Given};
ghost use Rattle.office_tables.specs.declared.rows.OfCustomer.{OfCustomer};
ghost use Rattle.fusemap_core.specs.Prelude.{Map};
ghost use Rattle.fuse_image.specs.Prelude.{redacted};
ghost use Rattle.fuse_plan.specs.declared.verdict.Verdict.TheVariants.{Match};
ghost use Rattle.office_commands.specs.Prelude.{IsAsked, acceptance, idevid_in, identity_body};
ghost use Rattle.office_commands.specs.declared.new_device.NewDevice.{NewDevice};
ghost use Rattle.office_commands.specs.declared.command.Request.{Request};
ghost use Rattle.office_commands.specs.declared.command.Show.TheVariants.{Identity};
ghost use Rattle.office_rules.specs.Prelude.{Step, map_named, office_sight, reads_back, registers, show_reply, verdict_of_read_back, words_fit_map};
ghost use Rattle.office_laws.specs.Prelude.{exchange_of_step, Grows, IssuesFresh, IsSound, MatchesWhereSeen, SeatStep, seen_with_batch, ShowAlike, solo};
ghost use Rattle.office_laws.specs.Prelude.{StepsAlike, view};

/// What a step of a customer's seat does, from sound tables:
///
/// - `own`: it acts on the customer's view as the customer's own machine does, which knows of
///   nobody else. As the own machine is a function of the view, equal views give equal replies.
/// - `other`: it leaves each other customer's view.
/// - `sound`: the tables stay sound.
/// - `grows`: nothing that was known to be burnt is forgotten, an order stays but for its cursor,
///   and what is given stays.
/// - `fresh`: an identity gives what was nobody's.
pub fn steps_are_the_customers_own()
    ensures own { (x : SeatStep) → solo x.section x.seat (view x.section.name x.old) x.request
        ≡ Some (x.reply, view x.section.name x.new) }
    ensures other { (x : SeatStep) (customer : List ℕ) → bytes_eq customer x.section.name ≡ false
        → view customer x.new ≡ view customer x.old }
    ensures sound { (x : SeatStep)
        → PoolsDisjoint x.owners → IsAsked x.request → IsSound x.owners x.new }
    ensures grows { (x : SeatStep)
        → PoolsDisjoint x.owners → IsAsked x.request → Grows x.old x.new }
    ensures fresh { (x : SeatStep)
        → PoolsDisjoint x.owners → IssuesFresh (exchange_of_step x) x.old x.new }
{}

/// A read-back of a device of sound tables, whose words fit its fuse map, matches by what the chip
/// shows. It does exactly where that is what the chip would show with the whole batch burnt that is
/// burnt next, and nothing else (`verdict`). The reply to a read-back that is no repeat and is
/// answered 200 tells a match exactly there (`reply`). No premise says that the batch is readable:
/// what is pending on a device of sound tables is.
pub fn a_batch_matches_where_it_is_seen()
    ensures verdict { (owners : Ownership) (t : Tables) (customer chip : List ℕ)
        (d : OfCustomer Device) (m : Map) (words : List (List ℕ))
        → IsSound owners t → device_at customer chip t ≡ Some d
        → map_named customer d.row.map t ≡ Some m → words_fit_map m words ≡ true
        → (verdict_of_read_back (redacted m words) m d.row ≡ Match)
        ↔ (redacted m words ≡ seen_with_batch m d.row) }
    ensures reply { (x : SeatStep) → MatchesWhereSeen (exchange_of_step x) x.old }
{}

/// Over sound tables a seat is shown the record of each device of its customer's that has one, byte
/// for byte what the identity was answered. An identity is answered by the record that stands then
/// (`IssuesFresh`), and a record that stands stays (`Grows`).
pub fn identities_are_shown()
    ensures { (owners : Ownership) (t : Tables) (s : Section) (seat chip : List ℕ)
        (g : OfCustomer Given) → IsSound owners t
        → given_at g.row.issuer g.row.serial t ≡ Some g
        → s.name ≡ g.customer → g.row.chip ≡ Some chip
        → show_reply (office_sight s seat t) (Identity chip)
        ≡ acceptance (identity_body chip (idevid_in g.row)) }
{}

/// No rows are sound, so each store begins with sound tables.
pub fn no_rows_are_sound()
    ensures { (owners : Ownership) → IsSound owners no_rows }
{}

/// From sound tables every request has a step: no key of a row stands in its way, and each device has
/// its fuse map.
pub fn always_a_step()
    ensures { (owners : Ownership) (s : Section) (seat : List ℕ) (t : Tables) (r : Request)
        → IsSound owners t → (reply : Answer) × (t2 : Tables) × Step s seat t r reply t2 }
{}

/// What the tables keep of a read-back is a function of what it shows and of the request's digest.
/// Registrations that differ in their words alone have the same steps, where the words of both or
/// of none fit the device's map, and show the same under it (`registration`). So have read-backs of
/// a device that is there (`readback`). A key counts by its SHA-256 alone.
pub fn only_the_redaction_is_kept()
    ensures registration { (s : Section) (seat : List ℕ) (t : Tables) (m : Map) (number : ℕ)
        (digest : List ℕ) (d : NewDevice) (blocks : List (List ℕ))
        → map_named s.name d.map t ≡ Some m → ShowAlike m d.blocks blocks
        → StepsAlike s seat t (registers number digest d)
        (registers number digest (record d { blocks = blocks })) }
    ensures readback { (s : Section) (seat : List ℕ) (t : Tables) (d : OfCustomer Device) (m : Map)
        (number : ℕ) (digest chip : List ℕ) (blocks others : List (List ℕ))
        → device_at s.name chip t ≡ Some d → map_named s.name d.row.map t ≡ Some m
        → ShowAlike m blocks others
        → StepsAlike s seat t (reads_back number digest chip blocks)
        (reads_back number digest chip others) }
{}
