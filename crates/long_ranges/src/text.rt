//! The text of the answer to a Range that is read in parts.
ghost use Rattle.std.specs.Prelude.{◌≡◌, ℕ, List, [], length, IfOk};
ghost use Rattle.kv_model.specs.declared.ids.Ids.{Ids as IdsOf};
ghost use Rattle.kv_model.specs.declared.call.RangeQuery.{RangeQuery};
ghost use Rattle.kv_model.specs.History.{KeyValue};
ghost use Rattle.long_ranges.specs.Parts as parts;

use crate::begin::Begun;
use crate::gathered::{Gathered, Unparted};
use json_gateway::{Ids, RangeText};
use std::alloc::Global;

/// How many bytes of a text are asked for with each key-value at first.
const KEY_VALUE: u64 = 128;

/// The most bytes that are asked for so.
const MOST_ROOM: u64 = 4_194_304;

/// A text of which nothing is written but its beginning: it shows as many keys as were counted.
pub(crate) fn begun_text(
    alloc: Global,
    ids: &Ids,
    begun: Begun,
    counted: Gathered,
) -> Result<Gathered, Unparted>
    ensures { (q : RangeQuery) → (other : ℕ) → (seen : List KeyValue)
        → parts.IsGathered ids.now begun.now other q seen counted
        → IfOk result (parts.IsGathered ids.now begun.now (length seen) q []) }
{
    let Gathered::Count(count) = counted else {
        return Err(Unparted::Whole);
    };
    let room = count.saturating_mul(KEY_VALUE).min(MOST_ROOM) as usize;
    match RangeText::new(alloc, ids, begun.now, count, room) {
        Ok(text) => Ok(Gathered::Text(text)),
        Err(_) => Err(Unparted::Memory),
    }
}

/// The text of what was gathered.
pub(crate) fn finished(gathered: Gathered) -> Result<Vec<u8>, Unparted>
    ensures { (ids : IdsOf) → (now count : ℕ) → (q : RangeQuery) → (seen : List KeyValue)
        → parts.IsGathered ids now count q seen gathered
        → IfOk result (λ text. text.items ≡ parts.text_of ids now count q seen) }
{
    let Gathered::Text(text) = gathered else {
        return Err(Unparted::Whole);
    };
    match text.finish() {
        Ok(bytes) => Ok(bytes),
        Err(_) => Err(Unparted::Memory),
    }
}
