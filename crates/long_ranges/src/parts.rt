//! A Range, part by part.
ghost use Rattle.std.specs.Prelude.{◌≡◌, ℕ, ◌<◌, ◌^◌, List, [], false, IfOk};
ghost use mathlib.Core.List.{IsPrefix};
ghost use Rattle.kv_model.specs.declared.ids.Ids.{Ids as IdsOf};
ghost use Rattle.kv_model.specs.Lists.{is_empty};
ghost use Rattle.event_book.specs.Events.{Entry};
ghost use Rattle.engine_lock.specs.Locked.{left};
ghost use Rattle.long_ranges.specs.Parts as parts;

use crate::begin::{Begun, begin};
use crate::gathered::{Gathered, Unparted};
use crate::part::read_part;
use crate::text::{begun_text, finished};
use engine_lock::{Client, EngineName};
use json_gateway::Ids;
use kv_model::call::RangeQuery;
use kv_model::version::KeyRange;
use std::alloc::{AllocError, Global};

/// A Range of more parts is read whole: more than any memory has.
const MOST_PARTS: u64 = 1_099_511_627_776;

/// The text of the answer to a Range, read in parts of 128 keys, each in a reading of its own, which is
/// left at once: so no writer waits for longer than such a part takes, however many keys there are.
/// All parts are read at the revision of the first, whatever is put and deleted meanwhile, and the answer
/// is the model's in the world that the client found first.
///
/// `Whole` comes where the Range is not one of those that are read in parts ([`may_be_parted`](crate::may_be_parted)), where it
/// is refused, or where a Compact above its revision came in between: it is to be read whole then, and what
/// the client has seen meanwhile it knows of. `Memory` comes where memory was wanting. The client has
/// left its reading.
///
/// The range is walked twice: for the count, which stands first in the text, and for the text.
pub fn read_in_parts<L: EngineName>(
    alloc: Global,
    client: &mut Client<L>,
    query: &RangeQuery,
    ids: &Ids,
) -> Result<Vec<u8>, Unparted>
    ensures reads { IfOk result (λ text.
        parts.ReadsInParts ids.now client.old query.now text.items client.new) }
    ensures begins { IsPrefix client.old.reader.known client.new.reader.known }
    ensures client { client.new ≡ left (record client.old { reader = client.new.reader }) }
    ensures book { client.new.reader.book ≡ client.old.reader.book }
{
    let begun = begin(alloc, client, query)?;
    let counted = read_all(alloc, client, query, begun, Gathered::Count(0))?;
    let text = begun_text(alloc, ids, begun, counted)?;
    let gathered = read_all(alloc, client, query, begun, text)?;
    finished(gathered)
}

/// Gathers all of a Range.
fn read_all<L: EngineName>(
    alloc: Global,
    client: &mut Client<L>,
    query: &RangeQuery,
    begun: Begun,
    gathered: Gathered,
) -> Result<Gathered, Unparted>
    requires some { 0 < begun.revision }
    requires fits { begun.revision < 2 ^ 63 }
    requires several { is_empty query.now.range.end ≡ false }
    ensures reads { (front : List Entry) → IsPrefix front client.old.reader.known
        → parts.HasBegun front query.now begun → (ids : IdsOf) → (now count : ℕ)
        → parts.IsGathered ids now count query.now [] gathered
        → IfOk result (parts.IsGathered ids now count query.now
        (parts.live_at front begun.revision query.now.range)) }
    ensures begins { IsPrefix client.old.reader.known client.new.reader.known }
    ensures client { client.new ≡ left (record client.old { reader = client.new.reader }) }
    ensures book { client.new.reader.book ≡ client.old.reader.book }
{
    client.leave();
    let Ok(all) = whole(&query.range) else {
        return Err(Unparted::Memory);
    };
    let mut left = Some(all);
    let mut gathered = gathered;
    for _ in 0..MOST_PARTS {
        let Some(rest) = left else {
            return Ok(gathered);
        };
        let read = read_part(alloc, client, query, begun.revision, rest, gathered)?;
        gathered = read.gathered;
        left = read.rest;
    }
    Err(Unparted::Whole)
}

/// All of a range.
fn whole(range: &KeyRange) -> Result<KeyRange, AllocError>
    ensures { IfOk result (λ r. r ≡ range.now) }
{
    Ok(KeyRange {
        key: range.key.clone()?,
        end: range.end.clone()?,
    })
}
