//! Who checks the commands of a session.
use dk_model::{Entry, Scoped, TypeFault, Verdict};
use shared_term::{Found, Stored};
use signature_log::Version;

/// Checks one command over the version of the commands before it.
///
/// Each call has the clauses of its namesake in command_check, over whatever stands for terms.
pub trait Judge {
    ghost use Rattle.std.specs.Prelude.{◌≡◌, IfErr, IfOk, IsTrue, Some};
    ghost use Rattle.dk_model.specs.Answering.{is_answered, is_untyped, IsVerdictOrMemory};
    ghost use Rattle.dk_model.specs.Scoping.{plain_command};
    ghost use Rattle.dk_model.specs.Signatures.{maybe_by};
    ghost use Rattle.dk_model.specs.Verdicts.{entry_of, found_of, inferred_type, verdict_of};
    ghost use Rattle.shared_term.specs.Finding.{plain_found};
    ghost use Rattle.shared_term.specs.Storage.{stored_term};
    ghost use Rattle.signature_log.specs.Versions.{entries_of, stored_entry};
    ghost use Rattle.command_kinds.specs.Faults.{IsEntryFault};

    /// The entry of an accepted command, with the type that was inferred for a definition without a declared one.
    fn entry_of(
        &mut self,
        version: &Version,
        command: &Scoped,
        inferred: Option<Stored>,
    ) -> Result<Entry<Stored>, TypeFault>
        ensures ok { IfOk result (λ e. stored_entry e
            ≡ entry_of (entries_of version.now) (plain_command command.now)
            (maybe_by stored_term inferred)) }
        ensures err { IfErr result
            (IsEntryFault (entries_of version.now) (plain_command command.now)) };

    /// The type of a definition without a declared one, where it is accepted; else its verdict.
    fn infer_type(
        &mut self,
        version: &Version,
        command: &Scoped,
        budget: u64,
    ) -> Result<Stored, Verdict>
        requires untyped { IsTrue (is_untyped (plain_command command.now)) }
        ensures ok { IfOk result (λ t.
            inferred_type (entries_of version.now) (plain_command command.now) budget
            ≡ Some (stored_term t)) }
        ensures accepted { IfOk result (λ _.
            verdict_of (entries_of version.now) (plain_command command.now) budget
            ≡ Verdict.Accepted) }
        ensures err { IfErr result (IsVerdictOrMemory
            (verdict_of (entries_of version.now) (plain_command command.now) budget)) }
        ensures refused { IfErr result (λ v. ¬ (v ≡ Verdict.Accepted)) };

    /// The verdict on a command, or `Memory`.
    fn check_command(&mut self, version: &Version, command: &Scoped, budget: u64) -> Verdict
        ensures due { IsVerdictOrMemory
            (verdict_of (entries_of version.now) (plain_command command.now) budget) result };

    /// What a query finds that only asks, where it is accepted; else its verdict.
    fn query(&mut self, version: &Version, command: &Scoped, budget: u64) -> Result<Found, Verdict>
        requires answered { IsTrue (is_answered (plain_command command.now)) }
        ensures ok { IfOk result (λ f.
            found_of (entries_of version.now) (plain_command command.now) budget
            ≡ Some (plain_found f)) }
        ensures accepted { IfOk result (λ _.
            verdict_of (entries_of version.now) (plain_command command.now) budget
            ≡ Verdict.Accepted) }
        ensures err { IfErr result (IsVerdictOrMemory
            (verdict_of (entries_of version.now) (plain_command command.now) budget)) }
        ensures refused { IfErr result (λ v. ¬ (v ≡ Verdict.Accepted)) };
}
