//! The length of a body (RFC 9112, section 6).
ghost use Rattle.std.specs.Prelude.{◌≡◌, ◌≤◌, length, None, Some, if◌then◌else◌};
ghost use Rattle.std.specs.Char.{is_ascii_digit};
ghost use Rattle.std.specs.List.{list_all};
ghost use Rattle.std.specs.Str.Parse.{digits_value};
ghost use Rattle.http_head.specs.Heads as heads;
ghost use Rattle.http_head.specs.Looks.{length_view, marks_view};

use crate::marks::Marks;

/// The most bytes of a body.
pub const MOST_BODY: usize = 1_572_864;

/// Why header lines give a body no length.
#[derive(Clone, Copy, Debug, PartialEq, Eq)]
pub enum NoLength {
    /// There is a Transfer-Encoding, more than one Content-Length, or one that is not 1 to 18
    /// decimal digits.
    Bad,
    /// It is above `MOST_BODY`.
    Over,
}

/// The length of the body that header lines give: 0 without a Content-Length (RFC 9112, section
/// 6.3).
pub(crate) fn body_length(marks: &Marks<'_>) -> Result<usize, NoLength>
    ensures { length_view result ≡ heads.body_length (marks_view marks.now) }
{
    if marks.encoded || marks.lengths > 1 {
        Err(NoLength::Bad)
    } else if marks.lengths == 0 {
        Ok(0)
    } else {
        length_given(marks.length)
    }
}

/// The length that a Content-Length gives.
fn length_given(text: &[u8]) -> Result<usize, NoLength>
    ensures { length_view result ≡ heads.length_given text.now }
{
    if text.is_empty() || text.len() > 18 {
        return Err(NoLength::Bad);
    }
    match number_of(text) {
        Some(number) => within_limit(number),
        None => Err(NoLength::Bad),
    }
}

fn within_limit(number: u64) -> Result<usize, NoLength>
    ensures { length_view result ≡ heads.within_limit number }
{
    if number <= MOST_BODY as u64 {
        Ok(number as usize)
    } else {
        Err(NoLength::Over)
    }
}

/// The number that decimal digits write; `None` where a byte is no digit.
fn number_of(digits: &[u8]) -> Option<u64>
    requires { length digits.now ≤ 18 }
    ensures { result ≡ (if list_all is_ascii_digit digits.now then Some (digits_value 10 digits.now) else None) }
{
    let mut number: u64 = 0;
    for digit in digits {
        if !digit.is_ascii_digit() {
            return None;
        }
        number = number * 10 + u64::from(*digit - b'0');
    }
    Some(number)
}
