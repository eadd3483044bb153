//! Laws on what stands at a place. The calls do nothing; their contracts are the laws.
ghost use Rattle.std.specs.Prelude.{◌≡◌, ◌++◌, ℕ, List, length, false, true};
ghost use Rattle.dk_model.specs.declared.limits.Limits.{Limits};
ghost use Rattle.dk_lexer.specs.declared.token.Token.{Token};
ghost use Rattle.dk_lexer.specs.Given.{IsFrontOf};
ghost use Rattle.dk_lexer.specs.Tokens.{Ending, broken, tokens};
ghost use Rattle.one_lexer.specs.declared.lexer.Lexer.{Lexer};
ghost use Rattle.one_lexer.specs.Lexers.{Knows};
ghost use Rattle.one_lexer.specs.Settled.{is_settled, with_more};
ghost use Rattle.one_lexer.specs.Views.{spelled_front};

/// What is settled stands however the bytes go on.
pub fn settled_law()
    ensures { (limit : ℕ) (bytes more : List ℕ) → is_settled (spelled_front limit bytes) ≡ true →
        spelled_front limit (bytes ++ more) ≡ with_more (length more) (spelled_front limit bytes) }
{}

/// What a lexer knows stands when more bytes come behind those that are left, and when the end of
/// the input is met.
pub fn knows_law()
    ensures more { (before rest piece : List ℕ) (ts : List Token) (lexer : Lexer) →
        Knows false before ts rest lexer → Knows false (before ++ piece) ts (rest ++ piece) lexer }
    ensures over { (before rest : List ℕ) (ts : List Token) (lexer : Lexer) →
        Knows false before ts rest lexer → Knows true before ts rest lexer }
{}

/// What is known of an input that broke off stands however it goes on: the tokens, and a fault with
/// its line. Proved by reading on, one spelling after the other.
pub fn front_law()
    ensures { (limits : Limits) (bytes more : List ℕ) (ending : Ending) →
        IsFrontOf (tokens limits bytes broken) (tokens limits (bytes ++ more) ending) }
{}
