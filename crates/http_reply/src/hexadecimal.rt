//! Numbers in hexadecimal.
ghost use Rattle.std.specs.Prelude.{◌≡◌, ◌<◌, false};
ghost use Rattle.std.specs.Fmt.{digit_glyph, digits};

/// The digits of a number in lower case, without leading zeros, laid out in a buffer.
pub(crate) fn hexadecimal(number: u64, buffer: &mut [u8; 16]) -> &[u8]
    ensures { result.now ≡ digits 16 false number }
{
    let mut at = 15;
    let mut rest = number;
    while rest >= 16 {
        buffer[at] = glyph(rest % 16);
        rest /= 16;
        at -= 1;
    }
    buffer[at] = glyph(rest);
    &buffer[at..]
}

/// The digit of a number below 16.
fn glyph(number: u64) -> u8
    requires { number < 16 }
    ensures { result ≡ digit_glyph false number }
{
    if number < 10 {
        b'0' + number as u8
    } else {
        b'a' + (number as u8 - 10)
    }
}
