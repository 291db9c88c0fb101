//! Numbers without zeros before them.
ghost use Rattle.std.specs.Prelude.{◌≡◌, ◌≤◌, ◌^◌, IfSome};
ghost use Rattle.certificate_text.specs.Reading as reading;

/// The number that decimal digits write, if there are no zeros before them and it is at most
/// `most`.
#[tactic(auto, unfolding(crate::specs::Reading::number_of))]
pub(crate) fn number_of(most: u64, text: &[u8]) -> Option<u64>
    ensures value { result ≡ reading.number_of most text.now }
    ensures bound { IfSome result (λ n. n ≤ most) }
{
    if has_zeros_before(text) {
        return None;
    }
    match str::from_utf8(text) {
        Ok(text) => number_up_to(most, text),
        Err(_) => None,
    }
}

fn has_zeros_before(text: &[u8]) -> bool
    ensures { result ≡ reading.has_zeros_before text.now }
{
    text.len() > 1 && text[0] == b'0'
}

fn number_up_to(most: u64, text: &str) -> Option<u64>
    ensures value { result ≡ reading.number_up_to most text.now }
    ensures bound { IfSome result (λ n. n ≤ most) }
{
    if text.starts_with('+') {
        return None;
    }
    match text.parse() {
        Ok(number) if number <= most => Some(number),
        _ => None,
    }
}

/// The number of 64 signed bits that a text writes: decimal digits, behind a sign where it is below
/// zero, without zeros before them.
#[tactic(auto, unfolding(crate::specs::Reading::lease_of))]
pub(crate) fn lease_of(text: &[u8]) -> Option<i64>
    ensures { result ≡ reading.lease_of text.now }
{
    let Some((first, digits)) = text.split_first() else {
        return None;
    };
    if *first == b'-' {
        below_zero(number_of(1 << 63, digits)?)
    } else {
        let number = number_of(i64::MAX as u64, text)?;
        Some(number as i64)
    }
}

fn below_zero(number: u64) -> Option<i64>
    requires { number ≤ 2 ^ 63 }
    ensures { result ≡ reading.below_zero number }
{
    if number == 0 {
        return None;
    }
    Some(-((number - 1) as i64) - 1)
}
