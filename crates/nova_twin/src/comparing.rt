ghost use Rattle.std.specs.Prelude.{◌≡◌, Some, IfOk, length};
ghost use Rattle.std.specs.List.{All};
ghost use Rattle.nova_guest.specs.Conditions.{IsGuest, IsInput};
ghost use Rattle.law_renaming.specs.Verdicts.{IsVerdict};
ghost use Rattle.law_renaming.specs.Walks.{walk, walked};
ghost use Rattle.nova_twin.specs.Comparison.{EndsSo, Holds, ram_of, said};
ghost use Rattle.nova_twin.specs.Sides.{IsSide};
ghost use Rattle.nova_twin.specs.Steps.{IsAdmitted, ended};

use crate::alike::{alike, join_maps};
use crate::side::Side;
use crate::verdict::Verdict;
use law_renaming::step;
use std::alloc::AllocError;

/// After how many inputs `a` and `b` differ, whose guests agree under the pairs that were met; none where they agree to the end.
fn first_unlike(a: &Side, b: &Side, met: &mut Vec<(u32, u32)>) -> Result<Option<u64>, AllocError>
    requires first { All IsInput a.now.inputs.items }
    requires second { All IsInput b.now.inputs.items }
    ensures { IfOk result (λ end. walked a.now.start b.now.start (Some met.old.items) 0 a.now.inputs.items b.now.inputs.items ≡ ended end (length a.now.inputs.items) met.new.items) }
{
    let inputs = a.inputs.as_slice();
    let others = b.inputs.as_slice();
    let both = inputs.len().min(others.len());
    for i in 0..both {
        if !step(&a.start, &b.start, met, &inputs[i], &others[i])? {
            return Ok(Some(i as u64));
        }
    }
    if inputs.len() == others.len() {
        Ok(None)
    } else {
        Ok(Some(both as u64))
    }
}

/// What one pass finds of `a` and `b`.
fn passed(a: &Side, b: &Side) -> Result<Verdict, AllocError>
    requires first { IsAdmitted a.now }
    requires second { IsAdmitted b.now }
    ensures { IfOk result (λ v. said v ≡ walk a.now.start b.now.start a.now.inputs.items b.now.inputs.items) }
{
    if !alike(&a.start, &b.start) {
        return Ok(Verdict::Views);
    }
    let mut met = Vec::new(*a.inputs.allocator());
    if !join_maps(&a.start, &b.start, &mut met)? {
        return Ok(Verdict::Views);
    }
    match first_unlike(a, b, &mut met)? {
        Some(inputs) => Ok(Verdict::Differ(inputs)),
        None => Ok(Verdict::Equal {
            inputs: a.inputs.len() as u64,
            pairs: met,
        }),
    }
}

/// Compares the sides `a` and `b` but for the frames that their pages lead to. The verdict is that of the three
/// which holds: some renaming of frames, one to one, RAM for RAM and a console for a console, makes the views
/// at their births and all their inputs agree; or none makes the views agree; or one makes the views and that
/// many first inputs agree, and none does so for one more, or one side has no more and the other has. With
/// equal sides the views at the ends agree under the pairs, the exits are equal, and the bytes are but for
/// their frames.
pub fn compare(a: &Side, b: &Side) -> Result<Verdict, AllocError>
    requires first { IsSide a.now }
    requires second { IsSide b.now }
    ensures verdict { IfOk result (λ v. IsVerdict a.now.start b.now.start a.now.inputs.items b.now.inputs.items (said v)) }
    ensures renaming { IfOk result (λ v. (x : IsSide a.now) (y : IsSide b.now) → Holds (ram_of a.now x) (ram_of b.now y) a.now b.now v) }
    ensures ends { IfOk result (EndsSo a.now b.now) }
{
    law_origins::virtual_cpus_are_guests_alone_from_their_birth();
    law_renaming::one_pass_compares();
    law_renaming::renamings_are_forced();
    law_renaming::forced_pairs_take_ram_to_ram();
    law_renaming::stores_of_others_name_no_pair();
    law_renaming::inputs_of_turns_fit();
    law_renaming::renamed_inputs_end_renamed();
    passed(a, b)
}
