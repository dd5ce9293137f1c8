// Until which turn of a run sides are at work.
ghost use Rattle.std.specs.Prelude.{◌≡◌, ◌+◌, ◌<◌, ◌≤◌, ◌^◌, ◌∷◌, [], IfOk, IsTrue, OnOk, Some, false, option_copied, option_map, replicate, slice_get};
ghost use Rattle.std.specs.List.{list_any};
ghost use Rattle.std.specs.Option.{option_or};
ghost use Rattle.nova_model.specs.Runs.{after};
ghost use Rattle.law_turns.specs.Tables.{HasTables};
ghost use Rattle.nova_model.specs.State.{context_at, pd_of};
ghost use Rattle.nova_model.specs.Times.{until_due};
ghost use Rattle.nova_order.specs.Blocks.{is_within, total, turns};
ghost use Rattle.nova_flowing.specs.Leaks.{first_some};
ghost use Rattle.nova_flowing.specs.Working.{is_revoke, kind_in, kind_of};
ghost use Rattle.nova_flowing.specs.declared.lapse.Lapse.{Lapse};
ghost use Rattle.nova_watching.specs.Worked.{Adds, AreLapses, Continues, asks_in, doer_in, doer_on, first_gift, gift_at, gift_beside, gift_by, gift_of, is_due, is_gift, is_instruction, is_like, lapse_by, lapse_in, lapse_kind, next_doer, of_side, own_lapse, turn_lapse};

use nova_calls::{Call, read_call};
use nova_flowing::{Lapse, LapseKind};
use nova_kernel::{Event, EventKind, Kernel, Object, State, Turn};
use nova_order::{Block, Order};
use nova_range::Status;
use std::alloc::{AllocError, Global};

/// Who acts in a processor's next turn: its number, protection domain and state, and whether its call would create or revoke, if it made one.
#[derive(Clone, Copy)]
pub struct Doer {
    pub ec: u32,
    pub pd: u32,
    pub state: State,
    pub call: Option<LapseKind>,
}

/// Whether a context in a state gives or revokes.
fn kind_in(state: State) -> Option<LapseKind>
    ensures { result ≡ kind_in state }
{
    match state {
        State::Granting(_) | State::Replying => Some(LapseKind::Gives),
        State::Revoking(..) => Some(LapseKind::Revokes),
        _ => None,
    }
}

/// Whether a call creates or revokes.
fn kind_of(call: Result<Call, Status>) -> Option<LapseKind>
    ensures { result ≡ kind_of call }
{
    match call {
        Ok(Call::CreatePd { .. })
        | Ok(Call::CreateEc { .. })
        | Ok(Call::CreateSc { .. })
        | Ok(Call::CreatePt { .. })
        | Ok(Call::CreateSm { .. }) => Some(LapseKind::Creates),
        Ok(Call::Revoke { .. }) => Some(LapseKind::Revokes),
        _ => None,
    }
}

/// The protection domain of an execution context.
fn pd_of(kernel: &Kernel, ec: u32) -> u32
    ensures { result ≡ pd_of kernel.now.state ec }
{
    match kernel.object(ec) {
        Some(Object::Ec { pd, .. }) => *pd,
        _ => u32::MAX,
    }
}

fn doer_of(kernel: &Kernel, ec: u32) -> Option<Doer>
    ensures { result ≡ doer_in kernel.now.state ec (context_at kernel.now.state ec) }
{
    let context = kernel.ec(ec)?;
    Some(Doer {
        ec,
        pd: pd_of(kernel, ec),
        state: context.state,
        call: kind_of(read_call(&context.regs)),
    })
}

/// Whether something is due on a processor, so that nobody acts.
fn is_due(kernel: &Kernel, cpu: u32) -> bool
    ensures { result ≡ is_due (until_due kernel.now.state.times cpu) }
{
    matches!(kernel.until_due(cpu), Some(0))
}

fn chosen_doer(kernel: &Kernel, cpu: u32) -> Option<Doer>
    ensures { result ≡ next_doer kernel.now.state cpu false }
{
    doer_of(kernel, kernel.actor(cpu)?)
}

/// Who acts in the next turn of a processor.
fn next_doer(kernel: &Kernel, cpu: u32) -> Option<Doer>
    ensures { result ≡ doer_on kernel.now.state cpu }
{
    if is_due(kernel, cpu) {
        None
    } else {
        chosen_doer(kernel, cpu)
    }
}

fn is_instruction(kind: EventKind) -> bool
    ensures { result ≡ is_instruction kind }
{
    matches!(kind, EventKind::Step | EventKind::Raise)
}

/// Whether a turn that came to this was a hypercall.
fn asks_in(state: State, kind: EventKind) -> bool
    ensures { result ≡ asks_in state kind }
{
    match state {
        State::Ready => !is_instruction(kind),
        State::Helping(_) => true,
        _ => false,
    }
}

fn call_asked(call: Option<LapseKind>, asks: bool) -> Option<LapseKind>
    ensures { result ≡ lapse_in call asks }
{
    if asks { call } else { None }
}

/// Whether one creates, gives or revokes in a turn that came to this.
fn lapse_kind(doer: Doer, kind: EventKind) -> Option<LapseKind>
    ensures { result ≡ lapse_kind doer kind }
{
    kind_in(doer.state).or(call_asked(doer.call, asks_in(doer.state, kind)))
}

/// The turn, after so many, that came to this event, if one creates or revokes in it.
fn lapse_by(doer: Doer, event: Event, done: u64) -> Option<Lapse>
    requires { done + 1 < 2 ^ 64 }
    ensures { result ≡ lapse_by done doer (lapse_kind doer event.kind) }
{
    match lapse_kind(doer, event.kind)? {
        LapseKind::Gives => None,
        kind => Some(Lapse {
            turn: done + 1,
            ec: doer.ec,
            pd: doer.pd,
            amid: doer.pd,
            kind,
        }),
    }
}

/// The same of a turn that may be idle.
fn own_lapse(doer: Option<Doer>, turn: Turn, done: u64) -> Option<Lapse>
    requires { done + 1 < 2 ^ 64 }
    ensures { result ≡ own_lapse done doer turn }
{
    let doer = doer?;
    match turn {
        Turn::Stepped(event) => lapse_by(doer, event, done),
        Turn::Idle => None,
    }
}

/// The turn, after so many, of one that gives, beside one of a protection domain that is in a state.
fn gift_by(doer: Doer, pd: u32, state: State, done: u64) -> Option<Lapse>
    requires { done + 1 < 2 ^ 64 }
    ensures { result ≡ gift_by done doer pd state }
{
    match state {
        State::Revoking(..) => Some(Lapse {
            turn: done + 1,
            ec: doer.ec,
            pd: doer.pd,
            amid: pd,
            kind: LapseKind::Gives,
        }),
        _ => None,
    }
}

fn gift_beside(kernel: &Kernel, doer: Doer, n: u32, done: u64) -> Option<Lapse>
    requires { done + 1 < 2 ^ 64 }
    ensures { result ≡ gift_beside kernel.now.state done doer n (context_at kernel.now.state n) }
{
    let context = kernel.ec(n)?;
    gift_by(doer, pd_of(kernel, n), context.state, done)
}

/// The same of an object, if it is an execution context.
fn gift_at(kernel: &Kernel, doer: Doer, n: u32, object: Object, done: u64) -> Option<Lapse>
    requires { done + 1 < 2 ^ 64 }
    ensures { result ≡ gift_at kernel.now.state done doer (n, object) }
{
    match object {
        Object::Ec { .. } => gift_beside(kernel, doer, n, done),
        _ => None,
    }
}

fn is_revoke(kind: LapseKind) -> bool
    ensures { result ≡ is_revoke kind }
{
    matches!(kind, LapseKind::Revokes)
}

/// Whether an earlier lapse counts for each side for which `l` does.
fn is_like(l: Lapse, earlier: Lapse) -> bool
    ensures { result ≡ is_like l earlier }
{
    earlier.pd == l.pd && earlier.amid == l.amid && (!is_revoke(earlier.kind) || is_revoke(l.kind))
}

fn has_like(lapses: &[Lapse], lapse: Lapse) -> bool
    ensures { result ≡ list_any (is_like lapse) lapses.now }
{
    lapses.iter().any(|&earlier| is_like(lapse, earlier))
}

fn add(lapses: &mut Vec<Lapse>, lapse: Lapse) -> Result<(), AllocError>
    ensures { OnOk result (Adds lapses.old.items lapses.new.items (λ revokes S. of_side revokes S (Some lapse))) }
{
    if has_like(lapses, lapse) {
        return Ok(());
    }
    lapses.push(lapse)?;
    Ok(())
}

/// Adds a lapse to a list, unless one that counts for the same sides is there.
#[tactic(auto, using(crate::proofs::Lapsing::adds_none))]
fn note(lapses: &mut Vec<Lapse>, lapse: Option<Lapse>) -> Result<(), AllocError>
    ensures { OnOk result (Adds lapses.old.items lapses.new.items (λ revokes S. of_side revokes S lapse)) }
{
    match lapse {
        Some(lapse) => add(lapses, lapse),
        None => Ok(()),
    }
}

/// Notes of one that gives that it does beside each that is amid a revoke.
fn note_gifts(
    kernel: &Kernel,
    doer: Doer,
    done: u64,
    lapses: &mut Vec<Lapse>,
) -> Result<(), AllocError>
    requires { done + 1 < 2 ^ 64 }
    ensures { OnOk result (Adds lapses.old.items lapses.new.items (λ revokes S. first_gift revokes S kernel.now.state done doer)) }
{
    for (i, object) in kernel.objects().iter().enumerate() {
        note(lapses, gift_at(kernel, doer, i as u32, *object, done))?;
    }
    Ok(())
}

fn is_gift(kind: Option<LapseKind>) -> bool
    ensures { result ≡ is_gift kind }
{
    matches!(kind, Some(LapseKind::Gives))
}

/// Notes this of who acts, if it gives.
#[tactic(auto, using(crate::proofs::Adding::gives_now, crate::proofs::Adding::gives_not, crate::proofs::Adding::nobody_gives))]
fn note_giving(
    kernel: &Kernel,
    doer: Option<Doer>,
    done: u64,
    lapses: &mut Vec<Lapse>,
) -> Result<(), AllocError>
    requires { done + 1 < 2 ^ 64 }
    ensures { OnOk result (Adds lapses.old.items lapses.new.items (λ revokes S. gift_of revokes S kernel.now.state done doer)) }
{
    let Some(doer) = doer else {
        return Ok(());
    };
    if is_gift(kind_in(doer.state)) {
        note_gifts(kernel, doer, done, lapses)
    } else {
        Ok(())
    }
}

/// Takes a turn, after so many, and notes whether who acts creates, gives or revokes.
fn note_turn(
    kernel: &mut Kernel,
    cpu: u32,
    done: u64,
    lapses: &mut Vec<Lapse>,
) -> Result<(), AllocError>
    requires cpu { cpu < kernel.old.state.cpus }
    requires room { 0 < kernel.old.room }
    requires turns { kernel.old.state.turns < 2 ^ 31 }
    requires fits { done + 1 < 2 ^ 64 }
    ensures noted { OnOk result (Adds lapses.old.items lapses.new.items (λ revokes S. turn_lapse revokes S kernel.old.state cpu done)) }
    ensures tables { OnOk result (HasTables kernel.old.state) }
    ensures state { OnOk result (kernel.new.state ≡ after kernel.old.state cpu) }
    ensures room { kernel.old.room ≤ kernel.new.room + 1 }
    ensures turns { OnOk result (kernel.new.state.turns ≤ kernel.old.state.turns + 1) }
    ensures cpus { kernel.new.state.cpus ≡ kernel.old.state.cpus }
{
    kernel.actor(cpu);
    let doer = next_doer(kernel, cpu);
    note_giving(kernel, doer, done, lapses)?;
    let turn = kernel.turn(cpu)?;
    note(lapses, own_lapse(doer, turn, done))
}

/// Takes a turn, after so many, and notes a lapse in it, where so many turns were taken at least.
fn step(
    kernel: &mut Kernel,
    cpu: u32,
    from: u64,
    done: u64,
    lapses: &mut Vec<Lapse>,
) -> Result<(), AllocError>
    requires cpu { cpu < kernel.old.state.cpus }
    requires room { 0 < kernel.old.room }
    requires turns { kernel.old.state.turns < 2 ^ 31 }
    requires fits { done + 1 < 2 ^ 64 }
    ensures continues { OnOk result (Continues from kernel.old.state done lapses.old.items (cpu ∷ []) kernel.new.state lapses.new.items) }
    ensures room { kernel.old.room ≤ kernel.new.room + 1 }
    ensures turns { OnOk result (kernel.new.state.turns ≤ kernel.old.state.turns + 1) }
    ensures cpus { kernel.new.state.cpus ≡ kernel.old.state.cpus }
{
    if done < from {
        kernel.turn(cpu)?;
        return Ok(());
    }
    note_turn(kernel, cpu, done, lapses)
}

/// Takes the turns of a block, after so many, and notes the lapses in them.
fn work_block(
    kernel: &mut Kernel,
    block: Block,
    from: u64,
    done: u64,
    lapses: &mut Vec<Lapse>,
) -> Result<(), AllocError>
    requires cpu { block.cpu < kernel.old.state.cpus }
    requires room { block.count ≤ kernel.old.room }
    requires turns { kernel.old.state.turns + block.count ≤ 2 ^ 31 }
    requires fits { done + block.count < 2 ^ 63 }
    ensures continues { OnOk result (Continues from kernel.old.state done lapses.old.items (replicate block.count block.cpu) kernel.new.state lapses.new.items) }
    ensures room { OnOk result (kernel.old.room ≤ kernel.new.room + block.count) }
    ensures turns { OnOk result (kernel.new.state.turns ≤ kernel.old.state.turns + block.count) }
    ensures cpus { kernel.new.state.cpus ≡ kernel.old.state.cpus }
{
    for turn in 0..block.count {
        step(kernel, block.cpu, from, done + turn, lapses)?;
    }
    Ok(())
}

/// Takes the turns of an order, and notes the lapses in those after so many.
fn work_blocks(
    kernel: &mut Kernel,
    order: &Order,
    from: u64,
    lapses: &mut Vec<Lapse>,
) -> Result<(), AllocError>
    requires within { IsTrue (is_within kernel.old.state.cpus 10000000 order.now.blocks) }
    requires room { total order.now.blocks ≤ kernel.old.room }
    requires turns { kernel.old.state.turns + total order.now.blocks ≤ 2 ^ 31 }
    ensures { OnOk result (Continues from kernel.old.state 0 lapses.old.items (turns order.now.blocks) kernel.new.state lapses.new.items) }
{
    let mut done = 0;
    for block in order.blocks() {
        work_block(kernel, *block, from, done, lapses)?;
        done += block.count;
    }
    Ok(())
}

/// Takes the turns of `order` from the present state of `kernel` on, and tells in which of them, after `from` turns of it at least, execution contexts
/// created, gave while one was amid a revoke, or revoked: the first of each protection domain, and of each two such. The order is of processors that are there, and there is room in the log for its turns. The only
/// refusal is of memory; the kernel has then taken some of the turns.
pub fn lapses_of(
    alloc: Global,
    kernel: &mut Kernel,
    order: &Order,
    from: u64,
) -> Result<Vec<Lapse>, AllocError>
    requires within { IsTrue (is_within kernel.old.state.cpus 10000000 order.now.blocks) }
    requires room { total order.now.blocks ≤ kernel.old.room }
    requires turns { kernel.old.state.turns + total order.now.blocks ≤ 2 ^ 31 }
    ensures { IfOk result (λ lapses. AreLapses from kernel.old.state (turns order.now.blocks) lapses.items) }
{
    let mut lapses = Vec::new(alloc);
    work_blocks(kernel, order, from, &mut lapses)?;
    Ok(lapses)
}
