//! What the board needs of a job.

/// A job whose verdict is settled by the job alone. What is said of it is for contracts: no call of the
/// board looks into a job, nor knows who checks it.
pub trait Checkable {
    ghost use Rattle.std.specs.Prelude.{Bool};
    ghost use Rattle.dk_model.specs.declared.code.Verdict.{Verdict};

    // The verdict that the job is due, whoever checks it and when.
    ghost due: { Self → Verdict };

    // Whether the reader may check the job itself before it puts it.
    ghost early: { Self → Bool };
}
