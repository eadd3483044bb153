//! The laws between the plain check and the meaning of typing, each on a function that does nothing.
//!
//! A caller that needs a law calls its function, whose clauses then stand among what is known. Each law asks the least of
//! the signature that its proof needs; a well-formed one meets all conditions (`signature_meets_conditions`).

ghost use Rattle.std.specs.Prelude.{[]};
ghost use Rattle.dk_model.specs.Trees.{bare, kind};
ghost use Rattle.dk_model.specs.Typing.{by_units};
ghost use Rattle.dk_model.specs.TypingOver.{Evaluator};
ghost use Rattle.dk_model.specs.WellFormed.{IsSignature};
ghost use Rattle.typing_model.specs.Captures.{CaptureGivesPart};
ghost use Rattle.typing_model.specs.Conditions.{HasNoAnnotations, IsNumbered};
ghost use Rattle.typing_model.specs.Laws.{
  AcceptedHasDerivation,
  CheckedFits,
  ComparisonJoins,
  DeclarationHasDerivation,
  HasNoType,
  InferredHasType,
  NormalReduces,
  Reduces,
  SelectionReduces,
  StaysAccepted,
  StaysNumbered,
  StaysPlain,
  StaysSignature,
  TypedRuleHasDerivation,
  WhnfReduces,
};
ghost use Rattle.typing_model.specs.Queries.{FoundIsSo};

/// A term reduces to what evaluation answers, and terms that the comparison finds alike are joinable.
///
/// Where a selection takes a rule, the term reduces to its right side under the captures. The rules are of any form, with
/// conditions of repeated rule variables and guards. They need not be confluent nor terminate: where the units suffice,
/// the answer is a reduct.
pub fn evaluation_reduces()
    ensures weak_head_form { (S : _) → IsNumbered S → WhnfReduces S }
    ensures normal_form { (S : _) → IsNumbered S → NormalReduces S }
    ensures comparison { (S : _) → IsNumbered S → ComparisonJoins S }
    ensures selection { (S : _) → IsNumbered S → SelectionReduces S }
{
    // Proved for each signature, number of units and term.
}

/// A capture means the part that it was made of: below the variables that the pattern binds, and applied to the
/// arguments of its rule variable, it reduces to that part by beta alone.
///
/// An instance of a pattern is defined by its captures (docs/derivations.md); this says that they are the right ones.
pub fn capture_gives_part()
    ensures { CaptureGivesPart }
{
    // Proved with one step for each argument.
}

/// A term has the type that inference answers, and fits the type against which checking accepts it.
pub fn typing_derives()
    ensures inference { (S : _) → IsNumbered S → InferredHasType S (by_units S) }
    ensures checking { (S : _) → IsNumbered S → CheckedFits S (by_units S) }
{
    // Proved by the structure of the term.
}

/// Typing over any evaluation derives, if it gives reducts and finds only joinable terms the same: by units, by the items of a
/// certificate, or by evaluation over other entries. What it spends, `X`, plays no part.
pub fn any_evaluation_derives<X>()
    ensures inference { (S : _) (E : Evaluator X) → Reduces S E → InferredHasType S E }
    ensures checking { (S : _) (E : Evaluator X) → Reduces S E → CheckedFits S E }
    ensures command { (S : _) (E : Evaluator X) → Reduces S E → HasNoAnnotations S → AcceptedHasDerivation S E }
    ensures declaration { (S : _) (E : Evaluator X) → Reduces S E → DeclarationHasDerivation S E }
    ensures rule { (S : _) (E : Evaluator X) → Reduces S E → HasNoAnnotations S → TypedRuleHasDerivation S E }
    ensures units { (S : _) → IsNumbered S → Reduces S (by_units S) }
{
    // Proved by the structure of the term, and of the left side.
}

/// A command that the plain check accepts has a derivation over the commands before it.
///
/// A declaration has one whatever annotations the signature has; rules only where it has none, since the types of their
/// rule variables are taken from it.
pub fn accepted_has_derivation()
    ensures command { (S : _) → IsSignature S → AcceptedHasDerivation S (by_units S) }
    ensures plain { (S : _) → IsNumbered S → HasNoAnnotations S → AcceptedHasDerivation S (by_units S) }
    ensures declaration { (S : _) → IsNumbered S → DeclarationHasDerivation S (by_units S) }
{
    // Proved for each command and budget.
}

/// What a query finds is so: where it finds yes the term fits the type, or the terms are joinable; a type that it finds is
/// the term's, and a value is what the term reduces to.
pub fn found_is_so()
    ensures { (S : _) → IsNumbered S → FoundIsSo S (by_units S) }
{
    // Proved for each query and budget.
}

/// A rule whose shape is typed over a signature has a derivation there.
///
/// The types of its rule variables are those that its left side gives.
pub fn typed_rule_has_derivation()
    ensures signature { (S : _) → IsSignature S → TypedRuleHasDerivation S (by_units S) }
    ensures plain { (S : _) → IsNumbered S → HasNoAnnotations S → TypedRuleHasDerivation S (by_units S) }
{
    // Proved by the structure of the left side.
}

/// A command that is accepted without binding a rule variable, each equation being convertible as it stands, is accepted, and
/// takes as many units: solving equations only accepts more.
pub fn solving_accepts_more()
    ensures { (S : _) → StaysAccepted S }
{
    // Proved by the structure of the command: each comparison says yes.
}

/// A well-formed signature meets the conditions of the other laws: its rules number their variables, and it has no
/// annotations.
pub fn signature_meets_conditions()
    ensures numbered { (S : _) → IsSignature S → IsNumbered S }
    ensures plain { (S : _) → IsSignature S → HasNoAnnotations S }
{
    // Proved entry by entry.
}

/// The entries of accepted commands are a well-formed signature: none are one, and they stay one with the entry of a
/// further command.
pub fn entries_form_signature()
    ensures empty { IsSignature [] }
    ensures more { (S : _) → StaysSignature S }
{
    // Proved by the shapes of rules, and by the types that terms have.
}

/// Entries stay numbered with that of a further command, also where those before are no well-formed signature.
pub fn entries_are_numbered()
    ensures empty { IsNumbered [] }
    ensures more { (S : _) → StaysNumbered S }
{
    // Proved by the shapes of rules.
}

/// Numbered entries without annotations stay without them with that of a further command.
pub fn entries_are_plain()
    ensures empty { HasNoAnnotations [] }
    ensures more { (S : _) → StaysPlain S }
{
    // Proved by the types that terms have.
}

/// `Kind` has no type, and an abstraction without annotation none of its own.
pub fn some_have_no_type()
    ensures kind { (S : _) → HasNoType S kind }
    ensures bare_abstraction { (S b : _) → HasNoType S (bare b) }
{
    // Proved by the rules of typing: none is for such a term.
}
