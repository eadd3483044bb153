//! The nodes of a term, numbered in preorder from 0: a node, then its first part, then its second.
ghost use Rattle.std.specs.Prelude.{◌≡◌, OnOk};
ghost use Rattle.std.specs.Option.{option_copied, option_map};
ghost use Rattle.dk_model.specs.Trees.{tree};
ghost use Rattle.tree_steps.specs.Shapes.{shape_of, shape};
ghost use Rattle.tree_steps.specs.Places.{node_at, with_node};

use crate::counted::Counted;
use crate::counts::{Counts, recount_one, recount_two};
use dk_model::{NoMemory, Term};

/// The node of this number, where the term has so many. Goes down one path.
#[tactic(auto, using(crate::proofs::Placing::node_root, crate::proofs::Counting::nodes_counted))]
pub(crate) fn node_at<'t>(place: u64, term: &'t Term, counts: &Counts) -> Option<&'t Term>
    requires counted { shape counts.now ≡ shape_of (tree term.now) }
    ensures { option_map tree (option_copied result) ≡ node_at place (tree term.now) }
{
    if place == 0 {
        return Some(term);
    }
    let inner = place - 1;
    match term {
        Term::Star | Term::Kind | Term::Sym(_) | Term::Var(_) | Term::Rvar(_) => None,
        Term::App(f, a) => match counts {
            Counts::Two(_, first, second) => {
                let before = first.total();
                if inner < before {
                    node_at(inner, f, first)
                } else {
                    node_at(inner - before, a, second)
                }
            }
            _ => unreachable!(),
        },
        Term::Abs(annotation, b) => match annotation {
            None => match counts {
                Counts::One(_, body) => node_at(inner, b, body),
                _ => unreachable!(),
            },
            Some(n) => match counts {
                Counts::Two(_, first, second) => {
                    let before = first.total();
                    if inner < before {
                        node_at(inner, n, first)
                    } else {
                        node_at(inner - before, b, second)
                    }
                }
                _ => unreachable!(),
            },
        },
        Term::Prod(a, b) => match counts {
            Counts::Two(_, first, second) => {
                let before = first.total();
                if inner < before {
                    node_at(inner, a, first)
                } else {
                    node_at(inner - before, b, second)
                }
            }
            _ => unreachable!(),
        },
    }
}

/// Puts another term in the place of the node of this number. Its other parts stay as they lie.
#[tactic(auto, using(crate::proofs::Placing::with_root, crate::proofs::Counting::nodes_counted))]
pub(crate) fn put(
    place: u64,
    term: &mut Term,
    counts: &mut Counts,
    node: Counted,
) -> Result<(), NoMemory>
    requires counted { shape counts.old ≡ shape_of (tree term.old) }
    requires within { shape node.counts ≡ shape_of (tree node.term) }
    ensures placed { OnOk result (tree term.new
        ≡ with_node place (tree term.old) (tree node.term)) }
    ensures counted { OnOk result (shape counts.new ≡ shape_of (tree term.new)) }
{
    if place == 0 {
        *term = node.term;
        *counts = node.counts;
        return Ok(());
    }
    let inner = place - 1;
    match term {
        Term::Star | Term::Kind | Term::Sym(_) | Term::Var(_) | Term::Rvar(_) => Ok(()),
        Term::App(f, a) => match counts {
            Counts::Two(total, first, second) => {
                let before = first.total();
                if inner < before {
                    put(inner, f, first, node)?;
                    recount_two(total, first, second)
                } else {
                    put(inner - before, a, second, node)?;
                    recount_two(total, first, second)
                }
            }
            _ => unreachable!(),
        },
        Term::Abs(annotation, b) => match annotation {
            None => match counts {
                Counts::One(total, body) => {
                    put(inner, b, body, node)?;
                    recount_one(total, body)
                }
                _ => unreachable!(),
            },
            Some(n) => match counts {
                Counts::Two(total, first, second) => {
                    let before = first.total();
                    if inner < before {
                        put(inner, n, first, node)?;
                        recount_two(total, first, second)
                    } else {
                        put(inner - before, b, second, node)?;
                        recount_two(total, first, second)
                    }
                }
                _ => unreachable!(),
            },
        },
        Term::Prod(a, b) => match counts {
            Counts::Two(total, first, second) => {
                let before = first.total();
                if inner < before {
                    put(inner, a, first, node)?;
                    recount_two(total, first, second)
                } else {
                    put(inner - before, b, second, node)?;
                    recount_two(total, first, second)
                }
            }
            _ => unreachable!(),
        },
    }
}
