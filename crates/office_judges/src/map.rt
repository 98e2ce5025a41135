// The import of fuse maps.
ghost use Rattle.std.specs.Prelude.{◌≡◌, ℕ, List, [], ◌∷◌, None, Some, IfOk, length, min, string_bytes};
ghost use Rattle.sha2.specs.Sha256.{sha256};
ghost use Rattle.office_tables.specs.Prelude.{rows_of, link_at, map_at, map_with, ReadsOnly};
ghost use Rattle.office_rules.specs.Prelude.{map_fault, map_limit, map_writes};
ghost use Rattle.office_commands.specs.Prelude.{map_body};
ghost use Rattle.office_judges.specs.Prelude.{Counts, has_text, IsJudged, Judges};

use crate::Accepted;
use fusemap_core::{MapFault, read_map};
use office_commands::{Change, Refusal, map_body};
use office_tables::{Keep, Link, LinkRow, NewMap, OfCustomer, Sink, Unkept, Write};
use site_core::Customer;
use std::alloc::{AllocError, Global};
use text_core::{Digest, Name, Text};

/// How many maps a customer may have.
pub const MAP_LIMIT: u64 = 16;

/// How many links were met, up to the limit.
#[derive(Drop)]
struct LinkCount {
    count: u64,
}

impl Sink<LinkRow> for LinkCount {
    ghost takes = { Counts };

    fn take(&mut self, _row: &LinkRow) -> bool {
        self.count = self.count.saturating_add(1).min(MAP_LIMIT);
        true
    }
}

/// How many maps a customer has, up to the limit.
fn count_links<K: Keep>(keep: &mut K, customer: &Name) -> Result<u64, Unkept>
    ensures { ReadsOnly K.Keep keep.old keep.new result (λ t count.
        count ≡ min (length (rows_of customer.now t.links)) map_limit) }
{
    let mut links = LinkCount { count: 0 };
    keep.visit_links(customer, &mut links)?;
    Ok(links.count)
}

/// Whether the map of a link has the text.
fn has_text<K: Keep>(keep: &mut K, link: &LinkRow, text: &Text) -> Result<bool, Unkept>
    ensures { ReadsOnly K.Keep keep.old keep.new result (λ t same.
        same ≡ has_text text.now (map_at link.now.row.map t)) }
{
    match keep.map(link.row.map)? {
        Some(map) => Ok(text.as_str() == map.body.as_str()),
        None => Ok(false),
    }
}

/// What links a customer to a text: to the row that has it, or to a new one.
fn link_write<K: Keep>(
    alloc: Global,
    keep: &mut K,
    customer: &Customer,
    digest: Digest,
    text: &Text,
) -> Result<Write, Unkept>
    requires { digest ≡ sha256 text.now }
    ensures { ReadsOnly K.Keep keep.old keep.new result (λ t write.
        write ∷ [] ≡ map_writes customer.now text.now (map_with text.now t)) }
{
    let body = text.as_str();
    let customer = customer.name();
    Ok(match keep.map_with(body)? {
        Some(map) => Write::AddLink(OfCustomer {
            customer,
            row: Link { digest, map },
        }),
        None => Write::AddMap(OfCustomer {
            customer,
            row: NewMap {
                digest,
                body: Text::copy_of(alloc, body)?,
            },
        }),
    })
}

/// The import of a text whose digest the customer doesn't have.
fn judge_new<K: Keep>(
    alloc: Global,
    keep: &mut K,
    customer: &Customer,
    digest: Digest,
    text: &Text,
    body: String,
) -> Result<Accepted, Refusal>
    requires digest { digest ≡ sha256 text.now }
    requires sound { map_fault text.now ≡ None }
    requires new { K.is_open keep.old → link_at customer.now.name (sha256 text.now)
        (K.tables keep.old) ≡ None }
    requires body { string_bytes body ≡ map_body (sha256 text.now) }
    ensures { Judges K.Keep keep.old keep.new result (λ t judgement. (seat : List ℕ) →
        IsJudged customer.now seat t (Change.ImportMap text.now) judgement) }
{
    if count_links(keep, &customer.name())? >= MAP_LIMIT {
        return Err(Refusal::Limit);
    }
    let write = link_write(alloc, keep, customer, digest, text)?;
    let writes = vec![in alloc; write]?;
    Ok(Accepted { body, writes })
}

/// The number of the fault of a text, if it is no fuse map's.
#[tactic(auto, unfolding(office_rules::specs::Map::map_fault))]
fn map_fault(alloc: Global, text: &Text) -> Result<Option<u8>, Unkept>
    ensures { IfOk result (λ fault. fault ≡ map_fault text.now) }
{
    match read_map(alloc, text.as_str()) {
        Ok(_) => Ok(None),
        Err(MapFault::OutOfMemory) => Err(Unkept::from(AllocError)),
        Err(fault) => Ok(Some(fault.number())),
    }
}

/// What the import of a fuse map comes to: the lowest refusal that holds, or the writes that make
/// it. It reads only. `Refusal::Unkept` is want of memory or a failing store.
pub fn judge_map<K: Keep>(
    alloc: Global,
    keep: &mut K,
    customer: &Customer,
    text: &Text,
) -> Result<Accepted, Refusal>
    ensures { Judges K.Keep keep.old keep.new result (λ t judgement. (seat : List ℕ) →
        IsJudged customer.now seat t (Change.ImportMap text.now) judgement) }
{
    let digest = Digest::of(text.as_str().as_bytes());
    let link = keep.link(&customer.name(), &digest)?;
    if let Some(fault) = map_fault(alloc, text)? {
        return Err(Refusal::BadMap(fault));
    }
    let body = map_body(alloc, &digest)?;
    match link {
        Some(link) if has_text(keep, &link, text)? => {
            let writes = Vec::new(alloc);
            Ok(Accepted { body, writes })
        }
        Some(_) => Err(Refusal::MapDigestTaken),
        None => judge_new(alloc, keep, customer, digest, text, body),
    }
}
