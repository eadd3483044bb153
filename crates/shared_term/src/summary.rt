//! What is known of a term without a look at its parts.
ghost use Rattle.std.specs.Prelude.{◌≡◌, ◌<◌, length};
ghost use Rattle.shared_term.specs.Pools.{IsWithin, HasNext};
ghost use Rattle.shared_term.specs.Summaries.{node_summary, both, inside};

use crate::Node;
use dk_model::NodeOf;

/// A summary of a term, by which walks return at once.
#[derive(Clone, Copy)]
pub(crate) struct Summary {
    /// Each variable that isn't bound in the term lies below it.
    pub(crate) bound: u32,
    /// Whether a rule variable stands in it.
    pub(crate) rule_variables: bool,
    /// Whether an abstraction in it has an annotation.
    pub(crate) annotations: bool,
}

/// The summary of a node, from those of its parts.
pub(crate) fn summary_of(summaries: &[Summary], node: Node) -> Summary
    requires parts { IsWithin (length summaries.now) node }
    requires next { HasNext node }
    ensures { result ≡ node_summary summaries.now node }
{
    match node {
        NodeOf::Star => Summary {
            bound: 0,
            rule_variables: false,
            annotations: false,
        },
        NodeOf::Kind => Summary {
            bound: 0,
            rule_variables: false,
            annotations: false,
        },
        NodeOf::Sym(_) => Summary {
            bound: 0,
            rule_variables: false,
            annotations: false,
        },
        NodeOf::Var(k) => Summary {
            bound: k as u32 + 1,
            rule_variables: false,
            annotations: false,
        },
        NodeOf::Rvar(_) => Summary {
            bound: 0,
            rule_variables: true,
            annotations: false,
        },
        NodeOf::App(f, a) => both(summaries[f.0 as usize], summaries[a.0 as usize]),
        NodeOf::Abs(None, b) => inside(summaries[b.0 as usize]),
        NodeOf::Abs(Some(n), b) => {
            let parts = both(summaries[n.0 as usize], inside(summaries[b.0 as usize]));
            Summary {
                bound: parts.bound,
                rule_variables: parts.rule_variables,
                annotations: true,
            }
        }
        NodeOf::Prod(a, b) => both(summaries[a.0 as usize], inside(summaries[b.0 as usize])),
    }
}

// Of two parts.
fn both(first: Summary, second: Summary) -> Summary
    ensures { result ≡ both first second }
{
    Summary {
        bound: first.bound.max(second.bound),
        rule_variables: first.rule_variables || second.rule_variables,
        annotations: first.annotations || second.annotations,
    }
}

// Of a part that stands under a binder.
fn inside(body: Summary) -> Summary
    ensures { result ≡ inside body }
{
    Summary {
        bound: body.bound.saturating_sub(1),
        rule_variables: body.rule_variables,
        annotations: body.annotations,
    }
}
