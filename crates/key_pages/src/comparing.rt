//! The order of keys, compared by words.
ghost use Rattle.std.specs.Prelude.{◌≡◌, ◌≤◌, length, take, drop};
ghost use Rattle.std.specs.Int.{w64, from_be_bytes};
ghost use Rattle.std.specs.Ordering.{ordering_then};
ghost use Rattle.kv_model.specs.Keys.{key_cmp};

use std::cmp::Ordering;

/// How many bytes a word has.
const WORD: usize = 8;

/// How a key stands to another, in the order of lists of bytes. Takes no memory.
///
/// Eight bytes at a time are compared as one number, of which the first byte counts most, and then
/// one by one what is left.
pub fn order(left: &[u8], right: &[u8]) -> Ordering
    ensures { result ≡ key_cmp left.now right.now }
{
    let mut left = left;
    let mut right = right;
    'words: while left.len() >= WORD && right.len() >= WORD {
        let words = order_words(left, right);
        if !words.is_eq() {
            return words;
        }
        left = behind_word(left);
        right = behind_word(right);
    }
    order_bytes(left, right)
}

/// How the first eight bytes stand to others.
fn order_words(left: &[u8], right: &[u8]) -> Ordering
    requires left { 8 ≤ length left.now }
    requires right { 8 ≤ length right.now }
    ensures { key_cmp left.now right.now
        ≡ ordering_then result (key_cmp (drop 8 left.now) (drop 8 right.now)) }
{
    word(left).cmp(&word(right))
}

/// The first eight bytes as a number.
fn word(bytes: &[u8]) -> u64
    requires { 8 ≤ length bytes.now }
    ensures { result ≡ from_be_bytes w64 (take 8 bytes.now) }
{
    match bytes.split_first_chunk::<WORD>() {
        Some((first, _)) => u64::from_be_bytes(*first),
        None => 0,
    }
}

/// What stands behind the first eight bytes.
fn behind_word(bytes: &[u8]) -> &[u8]
    requires { 8 ≤ length bytes.now }
    ensures { result.now ≡ drop 8 bytes.now }
{
    &bytes[WORD..]
}

/// How bytes stand to others, one by one.
fn order_bytes<'x>(left: &'x [u8], right: &'x [u8]) -> Ordering
    ensures { result ≡ key_cmp left.now right.now }
{
    Ord::cmp(&left, &right)
}
