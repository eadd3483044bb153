//! A place in the input.
ghost use Rattle.std.specs.Prelude.{◌≡◌, ◌<◌};
ghost use Rattle.dk_lexer.specs.Tokens.{behind};

/// A place: the bytes before it and its line, from 1.
#[derive(Clone, Copy, Debug, PartialEq, Eq)]
pub struct Place {
    pub offset: u32,
    pub line: u32,
}

impl Place {
    /// The place behind this byte.
    #[tactic(auto, unfolding(crate::specs::Tokens::behind))]
    pub fn behind(self, byte: u8) -> Place
        requires { self.offset < 4294967294 }
        ensures { result ≡ behind self byte }
    {
        Place {
            offset: self.offset + 1,
            line: if byte == b'\n' {
                self.line.saturating_add(1)
            } else {
                self.line
            },
        }
    }
}
