//! What terms are typed over.
use dk_model::Term;
use signature_log::Version;

/// What terms are typed over: the entries before their command, and the types of the rule variables, which mention no
/// bound variable.
#[derive(Clone, Copy)]
pub struct Setting<'v> {
    pub version: &'v Version,
    pub rule_types: &'v [Term],
}
