ghost use Rattle.std.specs.Prelude.{◌≡◌, ℕ, true, OnOk};
ghost use Rattle.law_swaps.specs.Touches.{Touch};
ghost use Rattle.nova_touching.specs.Marks.{are_apart_from, is_apart_from, is_marked};

use crate::touch::Touch;
use std::alloc::{AllocError, Global};

/// What turns of a processor touch.
#[derive(Drop)]
pub(crate) struct Mark {
    pub(crate) cpu: u32,
    pub(crate) touch: Touch,
}

/// Whether what a turn of the processor `cpu` touches is within what is marked of it.
fn is_marked(marks: &[Mark], cpu: u32, touch: &Touch) -> bool
    ensures { result ≡ is_marked marks.now cpu touch.now }
{
    marks
        .iter()
        .any(|mark| mark.cpu == cpu && mark.touch.includes(touch))
}

/// Marks that a turn of the processor `cpu` touches `touch`. What was marked stays so.
pub(crate) fn add_mark(
    alloc: Global,
    marks: &mut Vec<Mark>,
    cpu: u32,
    touch: &Touch,
) -> Result<(), AllocError>
    ensures marked { OnOk result (is_marked marks.new.items cpu touch.now ≡ true) }
    ensures stay { OnOk result ((p : ℕ) (t : Touch) → is_marked marks.old.items p t ≡ true → is_marked marks.new.items p t ≡ true) }
{
    if is_marked(marks, cpu, touch) {
        return Ok(());
    }
    let touch = touch.copy(alloc)?;
    marks.push(Mark { cpu, touch })?;
    Ok(())
}

/// Whether a turn of the processor `cpu` that touches `touch` is apart from all that is marked of others.
pub(crate) fn is_apart_from(marks: &[Mark], cpu: u32, touch: &Touch) -> bool
    ensures { result ≡ is_apart_from marks.now cpu touch.now }
{
    marks
        .iter()
        .all(|mark| mark.cpu == cpu || touch.is_apart(cpu, &mark.touch))
}

/// Whether each turn of `lone` is apart from all that is marked of other processors.
pub(crate) fn are_apart_from(marks: &[Mark], lone: &[Mark]) -> bool
    ensures { result ≡ are_apart_from marks.now lone.now }
{
    lone.iter()
        .all(|mark| is_apart_from(marks, mark.cpu, &mark.touch))
}
