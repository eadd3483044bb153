//! Where a text stands.
ghost use Rattle.std.specs.Prelude.{◌≡◌};
ghost use Rattle.text_law.specs.Cuts.{between};

/// The place of a text among the bytes of a file.
#[derive(Clone, Copy, Debug, PartialEq, Eq)]
pub struct Span {
    /// How many bytes stand before the text.
    pub begin: usize,
    /// How many bytes stand before what is behind the text.
    pub end: usize,
}

impl Span {
    /// The text itself. Of bytes that end before it, what is there.
    pub fn text(self, bytes: &[u8]) -> &[u8]
        ensures { result.now ≡ between bytes.now self.begin self.end }
    {
        let (front, _) = bytes.split_at(self.end.min(bytes.len()));
        let (_, text) = front.split_at(self.begin.min(front.len()));
        text
    }
}
