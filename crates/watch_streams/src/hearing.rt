//! Who knows what the clients of streams do.
ghost use Rattle.std.specs.Prelude.{◌≡◌, ℕ, true};
ghost use Rattle.watch_streams.specs.declared.hearing.Heard.TheVariants as heard;

/// What a client has sent behind the request for its watch.
#[derive(Clone, Copy, Debug, PartialEq, Eq)]
pub enum Heard {
    /// No more than was thrown away.
    Nothing,
    /// There may be more.
    More,
    /// It has ended its sending side, or the connection is broken.
    Left,
}

/// Knows whether the clients of streams have left, and whether the server ends: beside their turns
/// streams end for this alone.
pub trait Hearing<W> {
    /// What it is that the client of the stream of a watch of this number has left.
    ghost Left: { Self → ℕ → Type 0 };
    /// What it is that the server ends.
    ghost Ends: { Self → Type 0 };

    /// What the client behind a writer has sent, of the stream of the watch of this number. That is
    /// thrown away.
    fn heard(&self, number: u64, client: &W) -> Heard
        ensures { result ≡ heard.Left → Left self.now number };

    /// Whether the server ends.
    fn ends(&self) -> bool
        ensures { result ≡ true → Ends self.now };
}
