//! A request's target.
ghost use Rattle.std.specs.Prelude.{◌≡◌};
ghost use Rattle.http_head.specs.Requests as requests;

/// The path of a request target: its bytes up to a `?` (RFC 9112, section 3.2.1). The cost is one
/// look at each byte up to there.
pub fn path_of(target: &[u8]) -> &[u8]
    ensures { result.now ≡ requests.path_of target.now }
{
    for (index, byte) in target.iter().enumerate() {
        if *byte == b'?' {
            return &target[..index];
        }
    }
    target
}
