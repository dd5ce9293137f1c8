ghost use Rattle.std.specs.Prelude.{◌≡◌, IfOk, string_bytes};
ghost use Rattle.nova_judging.specs.Answers.{IsFinestAnswer};
ghost use Rattle.nova_watching.specs.Watched.{IsKnown, IsTold, IsToldFrom, is_breaking, trusted_root};

use nova_judging::{Answer, Told, answer_finest, answer_named};
use nova_kernel::Kernel;
use nova_naming::Policy;
use std::alloc::{AllocError, Global};

/// What the finest sides are beside a trusted root.
fn told_of_finest(alloc: Global, kernel: &Kernel) -> Result<Told, AllocError>
    ensures { IfOk result (λ t. IsFinestAnswer trusted_root kernel.now.state t.answer (string_bytes t.text)) }
{
    let policy = Policy::trusting(alloc, 0)?;
    answer_finest(alloc, &policy, kernel)
}

/// What the sides of `policy` are in the present state of `kernel`, as it names them; or the finest beside a trusted root, where there is no policy.
/// The only refusal is of memory.
pub fn told_of(alloc: Global, policy: &Option<Policy>, kernel: &Kernel) -> Result<Told, AllocError>
    ensures { IfOk result (λ t. IsTold policy.now kernel.now.state t.answer (string_bytes t.text)) }
{
    match policy {
        Some(policy) => answer_named(alloc, policy, kernel),
        None => told_of_finest(alloc, kernel),
    }
}

/// Whether `answer` says that sides aren't isolated.
fn is_breaking(answer: Answer) -> bool
    ensures { result ≡ is_breaking answer }
{
    matches!(answer, Answer::Breach | Answer::Stuck)
}

/// What is told of a state after so many turns, if the sides aren't isolated in it, and it is one of those that are asked for. Where it is known that they are, it
/// isn't judged.
pub(crate) fn told_from(
    alloc: Global,
    policy: &Option<Policy>,
    kernel: &Kernel,
    from: u64,
    done: u64,
    known: bool,
) -> Result<Option<Told>, AllocError>
    requires known { IsKnown known policy.now kernel.now.state }
    ensures { IfOk result (IsToldFrom policy.now from kernel.now.state done) }
{
    if done < from {
        return Ok(None);
    }
    if known {
        return Ok(None);
    }
    let told = told_of(alloc, policy, kernel)?;
    if is_breaking(told.answer) {
        return Ok(Some(told));
    }
    Ok(None)
}
