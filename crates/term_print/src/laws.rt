//! Laws of printed terms (docs/printing.md).
ghost use Rattle.std.specs.Prelude.{◌≡◌, ◌<◌, ◌≤◌, ◌^◌, ℕ, false, Some, None, List, [], length};
ghost use Rattle.dk_model.specs.Bounds.{IsClosedAt};
ghost use Rattle.dk_model.specs.PlainTerms.{Tree};
ghost use Rattle.dk_model.specs.Scoping.{declare, query, type_of, value_of};
ghost use Rattle.dk_model.specs.declared.limits.Limits.{Limits};
ghost use Rattle.dk_model.specs.declared.signature.SymSort.TheVariants.{Definable};
ghost use Rattle.dk_terms.specs.Grammar.{SpellsTerm};
ghost use Rattle.dk_terms.specs.Written.{Written};
ghost use Rattle.dk_terms.specs.declared.terminal.Terminal.TheVariants as terminal;
ghost use Rattle.scope_terms.specs.Found.{AreFound};
ghost use Rattle.scope_terms.specs.Scopes.{Module, Symbols, no_names, own_of, scoped, term_of};
ghost use Rattle.term_print.specs.Named.{Word, written_term};
ghost use Rattle.term_print.specs.ReadBack.{binders_deep, CanBeRead, CanBeWritten, IsAskable, IsWritable, ReadsAs, asking_text, definition_text};
ghost use Rattle.term_print.specs.Readable.{IsPart, IsPlainName, IsSpelt, Quotable, in_quotes};
ghost use Rattle.term_print.specs.Spelled.{spelled};
ghost use Rattle.term_print.specs.Words.{word_of};
ghost use Rattle.term_print.specs.declared.place.Place.TheVariants as place;

/// The terminals of a written term spell it.
pub fn spelling_law()
    ensures { (w : Written) → SpellsTerm (spelled place.Term w) w }
{}

/// A closed term as it is printed is scoped in a module as that term, where its symbols can be spelt there.
pub fn scoping_law()
    ensures { (symbols : Symbols) (m : Module) (words : ℕ → Word) (t : Tree)
        → IsClosedAt 0 t → binders_deep t < 2 ^ 64 → CanBeRead symbols m words t
        → term_of symbols (own_of symbols m) no_names [] (written_term words t) ≡ scoped t }
{}

/// A printed term, as the body of a definition, is read as one command, and scoped as the same term.
pub fn reading_law()
    ensures { (limits : Limits) (symbols : Symbols) (m : Module) (words : ℕ → Word)
        (c : List ℕ) (t : Tree) → IsWritable limits symbols m words c t
        → ReadsAs limits symbols m (definition_text words c t)
        (declare Definable None (Some t)) }
{}

/// A printed term, behind `#EVAL` or `#INFER`, is read as one query, and scoped as the query of the same term.
pub fn asking_law()
    ensures value { (limits : Limits) (symbols : Symbols) (m : Module) (words : ℕ → Word)
        (t : Tree) → IsAskable limits symbols m words terminal.Eval t
        → ReadsAs limits symbols m (asking_text terminal.Eval words t) (query false (value_of t)) }
    ensures typ { (limits : Limits) (symbols : Symbols) (m : Module) (words : ℕ → Word)
        (t : Tree) → IsAskable limits symbols m words terminal.Infer t
        → ReadsAs limits symbols m (asking_text terminal.Infer words t) (query false (type_of t)) }
{}

/// The words of a module are declared there, where each symbol is declared in that module or in one with a name.
pub fn words_law()
    ensures { (symbols : Symbols) (m : Module) (t : Tree) → AreFound symbols
        → CanBeWritten symbols m t → CanBeRead symbols m (word_of symbols m) t }
{}

/// Which names are read back from their text.
pub fn names_law()
    ensures plain { (limit : ℕ) (n : List ℕ)
        → IsPlainName limit n → IsSpelt limit (terminal.Name n) }
    ensures quoted { (limit : ℕ) (body : List ℕ) → Quotable body → length body ≤ limit
        → IsSpelt limit (terminal.Name (in_quotes body)) }
    ensures qualified { (limit : ℕ) (m n : List ℕ) → IsPart limit m → IsPart limit n
        → IsSpelt limit (terminal.Qualified m n) }
    ensures qualified_quoted { (limit : ℕ) (m body : List ℕ) → IsPart limit m
        → Quotable body → length body ≤ limit
        → IsSpelt limit (terminal.Qualified m (in_quotes body)) }
{}
