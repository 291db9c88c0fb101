//! JSON text while it is written, and the values that know how to write themselves.
ghost use Rattle.std.specs.Prelude.{◌≡◌, ℕ, List, [], ◌∷◌, ◌++◌, map, Some};
ghost use Rattle.std.specs.Prelude.{IfOk, OnOk, option_map, string_bytes};
ghost use Rattle.std.specs.List.{flat_map};
ghost use Rattle.json.specs.Token.{key, begin_object, end_object, begin_array, end_array};
ghost use Rattle.json.specs.Print.{print};
ghost use Rattle.serde_json.specs.Data.{Num, Data, number};
ghost use Rattle.kv_model.specs.Answers.{text_of, nat_field, int_field, bytes_text};
ghost use Rattle.kv_model.specs.Answers.{bytes_field, truth_field, list_field};
ghost use Rattle.gateway_text.specs.Tokens.{data_tokens, field_tokens};

use base64::engine::general_purpose::STANDARD;
use json::Writer;
use std::alloc::{AllocError, Global};
use std::marker::Model;

/// A value that stands in an answer.
pub(crate) trait WriteJson {
    ghost value: { Self → Data };

    /// Appends the value. After an error the text is of no use.
    fn write_json(&self, out: &mut JsonText) -> Result<(), AllocError>
        ensures { OnOk result (out.new ≡ out.old ++ data_tokens (value self.now)) };
}

/// JSON text while it is written: its tokens so far. After an error of a method the text is of no
/// use.
///
/// A member at its default is left out, as the gateway leaves it out. No method but those that
/// write bytes allocates for itself: each appends to one buffer, and a member costs its bytes.
#[derive(Drop)]
pub(crate) struct JsonText {
    writer: Writer,
    /// The base64 of the bytes that are written, kept for its room.
    symbols: String,
}

impl Model for JsonText {
    ghost use Rattle.std.specs.Prelude.{◌≡◌, List, []};
    ghost use Rattle.json.specs.Token.{Token, tokens_code};

    ghost Value = { List Token };

    ghost coded = { tokens_code };

    ghost view = { λ t. t.writer.tokens };

    ghost invariant = { λ t. t.writer.before ≡ [] };
}

impl JsonText {
    /// An empty text with room for so many bytes.
    pub(crate) fn with_capacity(alloc: Global, room: usize) -> Result<JsonText, AllocError>
        ensures { IfOk result (λ t. t ≡ []) }
    {
        let bytes = Vec::with_capacity(alloc, room)?;
        Ok(JsonText {
            writer: Writer::new(bytes),
            symbols: String::new(alloc),
        })
    }

    /// The bytes of the text. Takes no memory.
    pub(crate) fn into_bytes(self) -> Vec<u8>
        ensures { result.items ≡ print self }
    {
        let JsonText { writer, .. } = self;
        writer.into_inner()
    }

    pub(crate) fn begin_object(&mut self) -> Result<(), AllocError>
        ensures { OnOk result (self.new ≡ self.old ++ begin_object ∷ []) }
    {
        self.writer.begin_object()
    }

    pub(crate) fn end_object(&mut self) -> Result<(), AllocError>
        ensures { OnOk result (self.new ≡ self.old ++ end_object ∷ []) }
    {
        self.writer.end_object()
    }

    pub(crate) fn begin_array(&mut self) -> Result<(), AllocError>
        ensures { OnOk result (self.new ≡ self.old ++ begin_array ∷ []) }
    {
        self.writer.begin_array()
    }

    pub(crate) fn end_array(&mut self) -> Result<(), AllocError>
        ensures { OnOk result (self.new ≡ self.old ++ end_array ∷ []) }
    {
        self.writer.end_array()
    }

    /// The name of a member.
    pub(crate) fn name(&mut self, name: &str) -> Result<(), AllocError>
        ensures { OnOk result (self.new ≡ self.old ++ key name.now ∷ []) }
    {
        self.writer.key(name)
    }

    /// A member that is a string, escaped where it has to be.
    pub(crate) fn string_member(&mut self, name: &str, text: &str) -> Result<(), AllocError>
        ensures { OnOk result (self.new ≡ self.old ++ field_tokens name.now
            (Some (text_of text.now))) }
    {
        self.name(name)?;
        self.writer.string(text)
    }

    /// A member that is a JSON number.
    pub(crate) fn code_member(&mut self, name: &str, code: u16) -> Result<(), AllocError>
        ensures { OnOk result (self.new ≡ self.old ++ field_tokens name.now
            (Some (number (Num.unsigned code)))) }
    {
        self.name(name)?;
        self.writer.u64(u64::from(code))
    }

    /// Bytes as a string of padded base64 (RFC 4648). Grows a buffer that is kept to the longest of
    /// them.
    pub(crate) fn bytes(&mut self, bytes: &[u8]) -> Result<(), AllocError>
        ensures { OnOk result (self.new ≡ self.old ++ data_tokens (bytes_text bytes.now)) }
    {
        encode(bytes, &mut self.symbols)?;
        self.writer.string(self.symbols.as_str())
    }

    /// A member that is a number, as a string of its digits; none at 0.
    pub(crate) fn number_member(&mut self, name: &str, n: u64) -> Result<(), AllocError>
        ensures { OnOk result (self.new ≡ self.old ++ field_tokens name.now (nat_field n)) }
    {
        if n == 0 {
            return Ok(());
        }
        self.name(name)?;
        self.writer.quoted_u64(n)
    }

    /// A member that is a signed number, as a string of its digits; none at 0.
    pub(crate) fn signed_member(&mut self, name: &str, integer: i64) -> Result<(), AllocError>
        ensures { OnOk result (self.new ≡ self.old ++ field_tokens name.now (int_field integer)) }
    {
        if integer == 0 {
            return Ok(());
        }
        self.name(name)?;
        self.writer.quoted_i64(integer)
    }

    /// A member of bytes; none where there are none.
    pub(crate) fn bytes_member(&mut self, name: &str, bytes: &[u8]) -> Result<(), AllocError>
        ensures { OnOk result (self.new ≡ self.old ++ field_tokens name.now
            (bytes_field bytes.now)) }
    {
        if bytes.is_empty() {
            return Ok(());
        }
        self.name(name)?;
        self.bytes(bytes)
    }

    /// A member that is true; none where it is false.
    pub(crate) fn truth_member(&mut self, name: &str, truth: bool) -> Result<(), AllocError>
        ensures { OnOk result (self.new ≡ self.old ++ field_tokens name.now (truth_field truth)) }
    {
        if !truth {
            return Ok(());
        }
        self.name(name)?;
        self.writer.boolean(true)
    }

    /// A member that is always there.
    pub(crate) fn member<T: WriteJson>(&mut self, name: &str, value: &T) -> Result<(), AllocError>
        ensures { OnOk result (self.new ≡ self.old ++ field_tokens name.now
            (Some (T.value value.now))) }
    {
        self.name(name)?;
        value.write_json(self)
    }

    /// A member that may be missing.
    pub(crate) fn optional_member<T: WriteJson + Drop>(
        &mut self,
        name: &str,
        value: Option<T>,
    ) -> Result<(), AllocError>
        ensures { OnOk result (self.new ≡ self.old ++ field_tokens name.now
            (option_map T.value value)) }
    {
        match value {
            Some(value) => self.member(name, &value),
            None => Ok(()),
        }
    }

    /// A member that is a list; none where the list is empty.
    pub(crate) fn list_member<T: WriteJson>(
        &mut self,
        name: &str,
        items: &[T],
    ) -> Result<(), AllocError>
        ensures { OnOk result (self.new
            ≡ self.old ++ field_tokens name.now (list_field (map T.value items.now))) }
    {
        if items.is_empty() {
            return Ok(());
        }
        self.name(name)?;
        self.begin_array()?;
        self.items(items)?;
        self.end_array()
    }

    /// Values, one after another, within a list.
    pub(crate) fn items<T: WriteJson>(&mut self, items: &[T]) -> Result<(), AllocError>
        ensures { OnOk result (self.new ≡ self.old ++ flat_map
            (λ x. data_tokens (T.value x)) items.now) }
    {
        for item in items {
            item.write_json(self)?;
        }
        Ok(())
    }
}

/// Bytes in a list, as padded base64 (RFC 4648).
impl<'a> WriteJson for &'a [u8] {
    ghost use Rattle.kv_model.specs.Answers.{bytes_text};

    ghost value = { λ bytes. bytes_text bytes.now };

    fn write_json(&self, out: &mut JsonText) -> Result<(), AllocError> {
        out.bytes(self)
    }
}

/// Puts the padded base64 of the bytes in the place of what the symbols were.
fn encode(bytes: &[u8], symbols: &mut String) -> Result<(), AllocError>
    ensures { OnOk result (text_of (string_bytes symbols.new) ≡ bytes_text bytes.now) }
{
    symbols.clear();
    STANDARD.encode_string(bytes, symbols)
}
