//! What callers may rely on of names and their numbers.
ghost use Rattle.std.specs.Prelude.{◌≡◌, ◌≢◌, ℕ, List, None, Some, false};
ghost use Rattle.dk_parser.specs.Written.{WrittenForm};
ghost use Rattle.dk_model.specs.Scoping.{PlainCommand};
ghost use Rattle.scope_terms.specs.Found.{AreFound};
ghost use Rattle.scope_terms.specs.Scopes.{Module, Numbered, Symbols, names_after, no_names, no_symbols, number_of, numbers_in, own_of, same_module, scope_of, scoped, with_name};
ghost use Rattle.scope_terms.specs.Plain.{IsPlainForm, numbered_after};

/// A name has the number with which it was added, for good; a name that wasn't added has none.
pub fn names_keep_their_numbers()
    ensures none { (x : List ℕ) → number_of no_names x ≡ None }
    ensures added { (n : Numbered) (x : List ℕ) → number_of n x ≡ None →
        number_of (with_name n x) x ≡ Some n.count }
    ensures kept { (n : Numbered) (x y : List ℕ) (k : ℕ) → number_of n y ≡ Some k →
        number_of (with_name n x) y ≡ Some k }
    ensures others { (n : Numbered) (x y : List ℕ) → y ≢ x →
        number_of (with_name n x) y ≡ number_of n y }
{}

/// A command without qualified names sees the names of its own module alone, and adds to these alone.
pub fn other_modules_are_not_seen()
    ensures scoped { (s t : Symbols) (m n : Module) (form : WrittenForm) →
        IsPlainForm form → own_of s m ≡ own_of t n → scope_of s m form ≡ scope_of t n form }
    ensures own { (s : Symbols) (m : Module) (form : WrittenForm) →
        own_of (names_after s m form) m ≡ numbered_after (own_of s m) form }
    ensures others { (s : Symbols) (m n : Module) (form : WrittenForm) → same_module m n ≡ false →
        numbers_in (names_after s m form) n ≡ numbers_in s n }
{}

/// After any accepted commands each symbol is found in its module, by the name with which it was declared, with its number.
pub fn declared_names_are_found()
    ensures none { AreFound no_symbols }
    ensures after { (s : Symbols) (m : Module) (form : WrittenForm) (c : PlainCommand) →
        AreFound s → scope_of s m form ≡ scoped c → AreFound (names_after s m form) }
{}
