//! The law of places, on a function that does nothing: its contract is the law.
ghost use Rattle.std.specs.Prelude.{◌≡◌, ◌≤◌, ◌+◌, ℕ, List, length};
ghost use Rattle.dk_lexer.specs.Pieces.{newlines, place_behind};

/// The place that tokens count from: behind some bytes of an input, the offset is their number, and the line is 1 plus
/// the newlines among them.
pub fn place_law()
    ensures { (bytes : List ℕ) → length bytes ≤ 4294967294 →
        place_behind (record { offset = 0; line = 1 }) bytes
        ≡ record { offset = length bytes; line = 1 + newlines bytes } }
{}
