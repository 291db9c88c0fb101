//! What is gathered of the parts of a Range.
ghost use Rattle.std.specs.Prelude.{◌≡◌, ℕ, ◌++◌, List, length, map, IfOk};
ghost use Rattle.kv_model.specs.declared.ids.Ids.{Ids};
ghost use Rattle.kv_model.specs.declared.call.RangeQuery.{RangeQuery};
ghost use Rattle.kv_model.specs.History.{KeyValue};
ghost use Rattle.range_view.specs.Replies.{kv_view};
ghost use Rattle.long_ranges.specs.Parts.{IsGathered, Shows, is_count, shown};

use json_gateway::RangeText;
use range_view::RangeReply;

/// Why a Range is not answered in parts.
#[derive(Clone, Copy, Debug, PartialEq, Eq)]
pub enum Unparted {
    /// It is to be read whole: it is short, or not in the order of the keys, or a part of it is refused.
    Whole,
    /// Memory was wanting.
    Memory,
}

/// What is gathered of the parts of a Range.
#[derive(Drop)]
pub(crate) enum Gathered {
    /// How many live keys they have.
    Count(u64),
    /// The text of the answer.
    Text(RangeText),
}

impl Gathered {
    /// Whether a count alone is wanted.
    pub(crate) fn counts(&self) -> bool
        ensures { result ≡ is_count self.now }
    {
        matches!(self, Gathered::Count(_))
    }
}

/// Gathers what a part shows.
pub(crate) fn gather(gathered: Gathered, reply: &RangeReply<'_>) -> Result<Gathered, Unparted>
    ensures { (ids : Ids) → (now count : ℕ) → (q : RangeQuery) → (seen part : List KeyValue)
        → IsGathered ids now count q seen gathered → reply.now.count ≡ length part
        → Shows gathered (map kv_view reply.now.kvs.items ≡ shown q part)
        → IfOk result (IsGathered ids now count q (seen ++ part)) }
{
    match gathered {
        Gathered::Count(count) => match count.checked_add(reply.count) {
            Some(sum) => Ok(Gathered::Count(sum)),
            None => Err(Unparted::Whole),
        },
        Gathered::Text(text) => {
            let mut text = text;
            match text.add(&reply.kvs) {
                Ok(()) => Ok(Gathered::Text(text)),
                Err(_) => Err(Unparted::Memory),
            }
        }
    }
}
