ghost use Rattle.std.specs.Prelude.{◌≡◌, ◌++◌, IfOk, OnOk, string_bytes};
ghost use Rattle.nova_asking.specs.Outcomes.{number_word, outcome, state_lines, state_of, waits_for};

use nova_kernel::{Kernel, State};
use nova_report::{state_word, write_consoles, write_semaphores};
use std::alloc::{AllocError, Global};

/// The semaphore, or the handler, that an execution context waits for in a state.
fn waits_for(state: State) -> Option<u32>
    ensures { result ≡ waits_for state }
{
    match state {
        State::Blocked(sm) => Some(sm),
        State::Calling(handler) | State::Helping(handler) | State::Sending(_, _, _, handler) => {
            Some(handler)
        }
        _ => None,
    }
}

/// A number behind a space, where there is one.
fn write_number(out: &mut String, number: Option<u32>) -> Result<(), AllocError>
    ensures { OnOk result (string_bytes out.new ≡ string_bytes out.old ++ number_word number) }
{
    match number {
        Some(n) => write!(out, " {n}"),
        None => Ok(()),
    }
}

/// A line for the execution context of a number, where there is one.
fn write_state(out: &mut String, kernel: &Kernel, id: u32) -> Result<(), AllocError>
    ensures { OnOk result (string_bytes out.new ≡ string_bytes out.old ++ state_of kernel.now.state id) }
{
    match kernel.ec(id) {
        Some(context) => {
            let state = state_word(context.state);
            write!(out, "ec {id} {state}")?;
            write_number(out, waits_for(context.state))?;
            out.push_str("\n")
        }
        None => Ok(()),
    }
}

/// A line for each execution context, by number.
fn write_states(out: &mut String, kernel: &Kernel) -> Result<(), AllocError>
    ensures { OnOk result (string_bytes out.new ≡ string_bytes out.old ++ state_lines kernel.now.state) }
{
    for id in 0..kernel.objects().len() as u32 {
        write_state(out, kernel, id)?;
    }
    Ok(())
}

/// What a run comes to, as text: a line for each execution context, each semaphore and each console.
#[tactic(auto, unfolding(crate::specs::Outcomes::outcome))]
pub(crate) fn outcome_of(alloc: Global, kernel: &Kernel) -> Result<Vec<u8>, AllocError>
    ensures { IfOk result (λ text. text.items ≡ outcome kernel.now.state) }
{
    let mut out = String::new(alloc);
    write_states(&mut out, kernel)?;
    write_semaphores(&mut out, kernel)?;
    write_consoles(&mut out, kernel)?;
    Ok(out.into_bytes())
}
