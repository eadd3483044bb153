//! Laws of the grammar and of reading (docs/grammar.md).
ghost use Rattle.std.specs.Prelude.{◌≡◌, ◌++◌, ℕ, List, Option, Some, None};
ghost use Rattle.dk_lexer.specs.declared.token.Token.{Token};
ghost use Rattle.dk_model.specs.declared.code.Code.{Code};
ghost use Rattle.dk_model.specs.declared.limits.Limits.{Limits};
ghost use Rattle.dk_parser.specs.Grammar.{Spells};
ghost use Rattle.dk_parser.specs.Reading.{Reads, TokenReading};
ghost use Rattle.dk_parser.specs.Steps.{Extends, read_tokens};
ghost use Rattle.dk_parser.specs.Written.{WrittenCommand};

/// A list of tokens spells at most one command.
pub fn grammar_law()
    ensures { (ts : List Token) (c d : WrittenCommand) → Spells ts c → Spells ts d → c ≡ d }
{}

/// What a list of tokens is read as: there is one reading of it, and `read_tokens` is that one.
/// What more tokens are read as begins with it.
pub fn reading_law()
    ensures exact { (limits : Limits) (ts : List Token) → Reads limits ts (read_tokens limits ts) }
    ensures only { (limits : Limits) (ts : List Token) (r : TokenReading) → Reads limits ts r
        → r ≡ read_tokens limits ts }
    ensures extends { (limits : Limits) (ts us : List Token)
        → Extends (read_tokens limits ts) (read_tokens limits (ts ++ us)) }
{}
