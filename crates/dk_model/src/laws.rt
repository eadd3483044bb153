//! The rules of evaluation as a law, on a function that does nothing.
//!
//! A caller that needs the law calls its function, whose clauses then stand among what is known.

ghost use Rattle.dk_model.specs.Equations.{
  ComparesByHeads,
  EndsWithoutUnits,
  NormalisesParts,
  SelectsByEvaluation,
  TurnsByContraction,
  TurnsByRule,
  TurnsToItself,
};

/// Evaluation turn by turn. The definitions are written with fuel; by these equations nobody has to believe that what they
/// give it is enough.
pub fn evaluation_turns()
    ensures ended { (S : _) → EndsWithoutUnits S }
    ensures contraction { (S : _) → TurnsByContraction S }
    ensures end { (S : _) → TurnsToItself S }
    ensures rule { (S : _) → TurnsByRule S }
    ensures selection { (S : _) → SelectsByEvaluation S }
    ensures comparison { (S : _) → ComparesByHeads S }
    ensures normal_form { (S : _) → NormalisesParts S }
{
    // Proved for each signature, number of units and term.
}
