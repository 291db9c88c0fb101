//! What header lines say of a request's body and of its connection.
ghost use Rattle.std.specs.Prelude.{◌≡◌, ◌<◌, ◌^◌, length, map, All};
ghost use Rattle.httparse.specs.Spans.{IsHeaderWithin, header_bytes};
ghost use Rattle.http_head.specs.Heads as heads;
ghost use Rattle.http_head.specs.Looks.{marks_view};

use httparse::spans::HeaderSpan;

/// What the header lines up to some place say (RFC 9112, sections 6 and 9.6).
#[derive(Clone, Copy)]
pub(crate) struct Marks<'b> {
    /// There is a Transfer-Encoding.
    pub(crate) encoded: bool,
    /// How many lines say Content-Length.
    pub(crate) lengths: usize,
    /// The value of the last of these lines; empty where there is none.
    pub(crate) length: &'b [u8],
    /// A line says `Connection: close`.
    pub(crate) close: bool,
}

/// What header lines of `bytes` say: one look at each line.
pub(crate) fn marks_of<'b>(bytes: &'b [u8], lines: &[HeaderSpan]) -> Marks<'b>
    requires { All (IsHeaderWithin (length bytes.now)) lines.now }
    ensures { marks_view result ≡ heads.marked (map (header_bytes bytes.now) lines.now) }
{
    let mut marks = Marks {
        encoded: false,
        lengths: 0,
        length: b"",
        close: false,
    };
    for line in lines {
        marks = noted(marks, line.name.of(bytes), line.value.of(bytes));
    }
    marks
}

/// What one header line more says.
fn noted<'b>(marks: Marks<'b>, name: &[u8], value: &'b [u8]) -> Marks<'b>
    requires { marks.lengths < 2 ^ 63 }
    ensures { marks_view result ≡ heads.noted (marks_view marks.entry) (name.now, value.now) }
{
    let mut marks = marks;
    if is_named(name, b"content-length") {
        marks.lengths += 1;
        marks.length = value;
    } else if is_named(name, b"transfer-encoding") {
        marks.encoded = true;
    } else if is_named(name, b"connection") && is_named(value, b"close") {
        marks.close = true;
    }
    marks
}

/// Whether two words are the same, but for the case of ASCII letters.
fn is_named(word: &[u8], name: &[u8]) -> bool
    ensures { result ≡ heads.same_name word.now name.now }
{
    word.eq_ignore_ascii_case(name)
}
