// A law of pages, over their definitions alone.
ghost use Rattle.std.specs.Prelude.{◌≡◌, ◌≤◌, ◌*◌, ◌++◌, length, List, None, Option, Some, ℕ};
ghost use Rattle.office_tables.specs.Prelude.{rows_of, AreAscendingByKey, IsAscending, Tables};
ghost use Rattle.office_tables.specs.declared.rows.Device.{Device};
ghost use Rattle.office_rules.specs.Prelude.{devices_behind, next_page, on_page, page_limit};
ghost use Rattle.office_laws.specs.Prelude.{by_text, on_pages};

/// A client asks for a page, and then for each page that a reply names as the next. While the
/// devices stay, it gets each of the customer's once, in the order of their chips, and no other
/// (`all`). What a page leaves is what stands behind its end (`next`), and a page that names no
/// next one leaves nothing (`last`). The devices are in this order in tables that are in the order
/// of their keys, as those of every keeper are (`ascending`).
pub fn pages_show_each_device_once()
    ensures ascending { (customer : List ℕ) (t : Tables) → AreAscendingByKey t
        → IsAscending (by_text (λ d. d.chip)) (rows_of customer t.devices) }
    ensures next { (devices : List Device) (after : Option (List ℕ)) (chip : List ℕ)
        → IsAscending (by_text (λ d. d.chip)) devices
        → next_page (devices_behind after devices) ≡ Some chip
        → devices_behind after devices
        ≡ on_page (devices_behind after devices) ++ devices_behind (Some chip) devices }
    ensures last { (devices : List Device) (after : Option (List ℕ))
        → next_page (devices_behind after devices) ≡ None
        → on_page (devices_behind after devices) ≡ devices_behind after devices }
    ensures all { (pages : ℕ) (devices : List Device)
        → IsAscending (by_text (λ d. d.chip)) devices → length devices ≤ pages * page_limit
        → on_pages pages None devices ≡ devices }
{}
