//! Marks of the rule variables that occur in a pattern.
ghost use Rattle.std.specs.Prelude.{◌≡◌, [], ◌∷◌, map, replicate, false, IfOk};
ghost use Rattle.dk_model.specs.Trees.{tree};
ghost use Rattle.dk_model.specs.Signatures.{maybe_tree, pattern as plain_pattern};
ghost use Rattle.pattern_compile.specs.Patterns.{plain_patterns};
ghost use Rattle.pattern_compile.specs.Marks.{marked, marked_pattern, marked_patterns, is_marked, guards_are_marked, all_guards_are_marked, are_marked, rule_is_marked};

use dk_model::{NoMemory, Pat, ScopedRule, Term};
use std::alloc::Global;

/// Sets the mark of a rule variable, where it has one.
fn mark(marks: &mut [bool], variable: u32)
    ensures { marked marks.old (variable ∷ []) ≡ marks.new }
{
    let at = variable as usize;
    if at < marks.len() {
        marks[at] = true;
    }
}

/// Sets the marks of the rule variables of a pattern.
#[cycle(marking)]
fn mark_pattern(marks: &mut [bool], pattern: &Pat)
    ensures { marked_pattern marks.old pattern.now ≡ marks.new }
{
    match pattern {
        Pat::Rvar(variable, _) => mark(marks, *variable),
        Pat::Any => {}
        Pat::Guard(_) => {}
        Pat::Sym(_, arguments) => mark_patterns(marks, arguments.as_slice()),
        Pat::Var(_, arguments) => mark_patterns(marks, arguments.as_slice()),
        Pat::Abs(body) => mark_pattern(marks, body),
    }
}

/// The same for each of these in turn.
#[cycle(marking)]
fn mark_patterns(marks: &mut [bool], patterns: &[Pat])
    ensures { marked_patterns marks.old patterns.now ≡ marks.new }
{
    for pattern in patterns {
        mark_pattern(marks, pattern);
    }
}

/// The marks of the rule variables that occur in the patterns, out of `vars`.
pub(crate) fn variable_marks(
    alloc: Global,
    vars: u32,
    patterns: &[Pat],
) -> Result<Vec<bool>, NoMemory>
    ensures { IfOk result (λ ms. marked_patterns (replicate vars false) patterns.now ≡ ms.items) }
{
    let mut marks = vec![in alloc; false; vars as usize]?;
    mark_patterns(marks.as_mut_slice(), patterns);
    Ok(marks)
}

/// Whether each rule variable of the term is marked.
fn is_marked(marks: &[bool], term: &Term) -> bool
    ensures { result ≡ is_marked marks.now (tree term.now) }
{
    match term {
        Term::Rvar(variable) => match marks.get(*variable as usize) {
            Some(mark) => *mark,
            None => false,
        },
        Term::App(function, argument) => is_marked(marks, function) && is_marked(marks, argument),
        Term::Abs(None, body) => is_marked(marks, body),
        Term::Abs(Some(note), body) => is_marked(marks, note) && is_marked(marks, body),
        Term::Prod(domain, codomain) => is_marked(marks, domain) && is_marked(marks, codomain),
        Term::Star => true,
        Term::Kind => true,
        Term::Sym(_) => true,
        Term::Var(_) => true,
    }
}

/// The same for the guards of a pattern.
#[cycle(guarding)]
fn guards_are_marked(marks: &[bool], pattern: &Pat) -> bool
    ensures { result ≡ guards_are_marked marks.now (plain_pattern pattern.now) }
{
    match pattern {
        Pat::Rvar(_, _) => true,
        Pat::Any => true,
        Pat::Guard(term) => is_marked(marks, term),
        Pat::Sym(_, arguments) => all_guards_are_marked(marks, arguments.as_slice()),
        Pat::Var(_, arguments) => all_guards_are_marked(marks, arguments.as_slice()),
        Pat::Abs(body) => guards_are_marked(marks, body),
    }
}

/// The same for each of these in turn.
#[cycle(guarding)]
fn all_guards_are_marked(marks: &[bool], patterns: &[Pat]) -> bool
    ensures { result ≡ all_guards_are_marked marks.now (plain_patterns patterns.now) }
{
    for pattern in patterns {
        if !guards_are_marked(marks, pattern) {
            return false;
        }
    }
    true
}

/// The same for each of these annotations.
fn are_marked(marks: &[bool], notes: &[Option<Term>]) -> bool
    ensures { result ≡ are_marked marks.now (map maybe_tree notes.now) }
{
    for note in notes {
        if let Some(note) = note {
            if !is_marked(marks, note) {
                return false;
            }
        }
    }
    true
}

/// Whether each rule variable of the right side, the guards and the annotations is marked.
pub(crate) fn is_covered(marks: &[bool], rule: &ScopedRule, patterns: &[Pat]) -> bool
    ensures { result ≡ rule_is_marked marks.now rule.now patterns.now }
{
    is_marked(marks, &rule.right)
        && all_guards_are_marked(marks, patterns)
        && are_marked(marks, rule.notes.as_slice())
}
