//! The body of a Range's answer, whose key-values come in parts.
//!
//! Whoever reads many key-values need not have all of them at once: each part is written when it
//! was read, into the one buffer of the body. [`range_text`](crate::range_text) writes the same
//! bytes of a whole reply.
ghost use Rattle.std.specs.Prelude.{◌≡◌, ◌≤◌, ◌++◌, ℕ, List, [], ◌∷◌, map, true, false, codes};
ghost use Rattle.std.specs.Prelude.{IfOk, OnOk, if◌then◌else◌};
ghost use Rattle.json.specs.Token.{end_array};
ghost use Rattle.kv_model.specs.declared.ids.Ids.{Ids};
ghost use Rattle.kv_model.specs.History.{KeyValue};
ghost use Rattle.kv_model.specs.Told as told;
ghost use Rattle.kv_model.specs.Answers.{success_response};
ghost use Rattle.range_view.specs.Replies.{kv_view};
ghost use Rattle.gateway_text.specs.RangeParts.{IsRangeText, kvs_opening};
ghost use Rattle.gateway_text.specs.Rooms.{Holds, kv_len, most_of_kvs, total};

use crate::answers::{frame_of, room_for};
use crate::header::Header;
use crate::json_text::JsonText;
use kv_model::ids::Ids;
use range_view::reply::KvRef;
use std::alloc::{AllocError, Global};

/// The body of a Range's answer while it is written, its key-values in parts, of which no limit
/// cuts any.
///
/// After an error of a method it is of no use. A part costs time for the bytes of its text. It
/// allocates where the body outgrows its room, and as the buffer grows in which the base64 of a key
/// or a value is made, to the longest of them.
#[derive(Drop)]
pub struct RangeText {
    text: JsonText,
    /// Whether a key-value was written.
    has_kvs: bool,
}

impl RangeText {
    /// The beginning of an answer that shows so many keys, at this revision. So many bytes are
    /// asked for at first for its key-values ([`room_of`]), beside the few of the rest, and more as
    /// they are wanted. `AllocError` comes where there is no memory for them.
    pub fn new(
        alloc: Global,
        ids: &Ids,
        revision: u64,
        count: u64,
        room: usize,
    ) -> Result<RangeText, AllocError>
        ensures { IfOk result (λ t. IsRangeText ids.now revision count [] t) }
    {
        let room = room.saturating_add(frame_of(ids, revision, count));
        let mut text = JsonText::with_capacity(alloc, room)?;
        text.begin_object()?;
        text.number_member("count", count)?;
        text.member("header", &Header::Whole(*ids, revision))?;
        Ok(RangeText {
            text,
            has_kvs: false,
        })
    }

    /// Adds key-values behind those that were added before. `AllocError` comes where the body finds
    /// no memory to grow.
    pub fn add(&mut self, kvs: &[KvRef<'_>]) -> Result<(), AllocError>
        ensures { (ids : Ids) → (revision count : ℕ) → (seen : List KeyValue)
            → IsRangeText ids revision count seen self.old
            → OnOk result (IsRangeText ids revision count (seen ++ map kv_view kvs.now) self.new) }
    {
        if kvs.is_empty() {
            return Ok(());
        }
        self.begin_list()?;
        self.text.items(kvs)
    }

    /// The body, with all key-values that were added. `AllocError` comes where it finds no memory
    /// for its last bytes.
    pub fn finish(self) -> Result<Vec<u8>, AllocError>
        ensures { (ids : Ids) → (revision count : ℕ) → (seen : List KeyValue)
            → IsRangeText ids revision count seen self
            → IfOk result (λ v. v.items ≡ (success_response ids (record {
              reply = told.Reply.range (record {
                kvs = seen;
                count = count;
                more = false;
                revision = revision;
              });
              revision = revision;
            })).body) }
    {
        let RangeText { mut text, has_kvs } = self;
        end_list(&mut text, has_kvs)?;
        text.end_object()?;
        Ok(text.into_bytes())
    }

    /// Begins the list of key-values, unless it was begun.
    fn begin_list(&mut self) -> Result<(), AllocError>
        ensures begun { OnOk result (self.new.has_kvs ≡ true) }
        ensures text { OnOk result (self.new.text ≡ self.old.text
            ++ (if self.old.has_kvs then [] else kvs_opening)) }
    {
        if self.has_kvs {
            return Ok(());
        }
        self.text.name("kvs")?;
        self.text.begin_array()?;
        self.has_kvs = true;
        Ok(())
    }
}

/// Ends the list of key-values, if it was begun.
fn end_list(text: &mut JsonText, has_kvs: bool) -> Result<(), AllocError>
    ensures { OnOk result (text.new
        ≡ text.old ++ (if has_kvs then end_array ∷ [] else [])) }
{
    if !has_kvs {
        return Ok(());
    }
    text.end_array()
}

/// Room for the text of key-values, by which the room for an answer is guessed. Time for their
/// number alone.
pub fn room_of(kvs: &[KvRef<'_>]) -> usize
    ensures most { result ≤ most_of_kvs kvs.now }
    ensures least { Holds result (total (map kv_len kvs.now)) }
{
    room_for(0, kvs)
}
