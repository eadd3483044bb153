//! The rules that a rule command stands for.
ghost use Rattle.std.specs.Prelude.{◌≡◌, IfOk, IfErr};
ghost use Rattle.dk_model.specs.Scoping.{plain_scoped_rule};
ghost use Rattle.scope_terms.specs.Scopes.{scoped};
ghost use Rattle.scope_terms.specs.Answers.{IsFaultOf};
ghost use Rattle.scope_terms.specs.Names.{reading};
ghost use Rattle.scope_terms.specs.Meanings.{noted, plain_rules, notes_sense, declared, rule_sense, rules_sense};

use crate::Names;
use crate::binders::Binders;
use crate::left::left_at;
use crate::meaning::Scope;
use crate::term::{maybe_term_at, term_at};
use crate::variables::Variables;
use dk_model::{Code, Fault, Listed, ScopedRule, Term};
use dk_parser::{RawNote, RawRule};
use shared_term::Making;

/// A scoped context: its rule variables by number and their annotations.
#[derive(Drop)]
struct ScopedContext {
    variables: Variables,
    notes: Listed<Option<Term>>,
}

/// The context, or its first code.
fn context_at(
    making: &mut Making,
    context: &[RawNote],
    names: &Names,
) -> Result<ScopedContext, Fault>
    ensures ok { IfOk result (λ c. notes_sense (reading names.now) context.now ≡ scoped (noted c)) }
    ensures variables { IfOk result (λ c. c.variables ≡ declared context.now) }
    ensures refused { IfErr result (IsFaultOf (notes_sense (reading names.now) context.now)) }
{
    let alloc = making.alloc();
    let mut variables = Variables::new(alloc);
    let mut notes = Listed::new(alloc);
    for entry in context {
        let scope = Scope::Rule {
            symbols: names,
            variables: &variables,
        };
        let note = match maybe_term_at(making, &scope, &entry.note, &Binders::Outermost) {
            Ok(note) => note,
            Err(fault) => return Err(variables.first_fault(&entry.name, Code::E13, fault)),
        };
        notes.push(note)?;
        if variables.count() == u32::MAX {
            return Err(Fault::NoMemory);
        }
        let added = variables.add(alloc, &entry.name)?;
        if !added {
            return Err(Fault::Refused(Code::E13));
        }
    }
    Ok(ScopedContext { variables, notes })
}

/// The rule, or its first code.
fn rule_at(making: &mut Making, rule: &RawRule, names: &Names) -> Result<ScopedRule, Fault>
    ensures ok { IfOk result (λ r. rule_sense (reading names.now) rule.now ≡ scoped (plain_scoped_rule r)) }
    ensures refused { IfErr result (IsFaultOf (rule_sense (reading names.now) rule.now)) }
{
    let ScopedContext { variables, notes } = context_at(making, rule.context.as_slice(), names)?;
    let scope = Scope::Rule {
        symbols: names,
        variables: &variables,
    };
    let left = left_at(making, &scope, &rule.left, &Binders::Outermost)?;
    let right = term_at(making, &scope, &rule.right, &Binders::Outermost)?;
    Ok(ScopedRule {
        vars: variables.count(),
        notes,
        left,
        right,
    })
}

/// The rules in order, or their first code.
pub(crate) fn rules_at(
    making: &mut Making,
    rules: &[RawRule],
    names: &Names,
) -> Result<Listed<ScopedRule>, Fault>
    ensures ok { IfOk result (λ rs. rules_sense (reading names.now) rules.now ≡ scoped (plain_rules rs)) }
    ensures refused { IfErr result (IsFaultOf (rules_sense (reading names.now) rules.now)) }
{
    let mut scoped = Listed::new(making.alloc());
    for rule in rules {
        let rule = rule_at(making, rule, names)?;
        scoped.push(rule)?;
    }
    Ok(scoped)
}
