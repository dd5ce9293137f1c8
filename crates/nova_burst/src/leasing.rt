ghost use Rattle.std.specs.Prelude.{◌≡◌, ◌≤◌, ◌<◌, IfOk, IfSome, is_some, slice_get, ◌+◌, ◌^◌, replicate};
ghost use Rattle.nova_model.specs.State.{context};
ghost use Rattle.nova_burst.specs.Found.{IsFound};
ghost use Rattle.nova_burst.specs.Lending.{IsNew, StemsFrom, domain_of_virtual, is_at_code, is_leasable, regs_to_step, turns_before, turns_left, AreItsTurns, ComesAfter, answer_to, turns_of};
ghost use Rattle.nova_kernel.specs.Views.{left_of};
ghost use Rattle.nova_model.specs.Times.{until_due};
ghost use Rattle.nova_model.specs.Runs.{run};
ghost use Rattle.nova_burst.specs.Taken.{MayTakeOver};
ghost use Rattle.law_leases.specs.Commits.{commit_done};

use crate::gathering::gather;
use crate::lent::Lease;
use bitflags::Flags;
use law_leases::CommitDone;
use nova_kernel::Kernel;
use nova_model::{EcKind, Object, Rights, State};
use rv_core::Regs;
use std::alloc::{AllocError, Global};

/// The virtual CPU that would step next on a processor: its number and protection domain, both stir counts,
/// what is left of the quantum, and its registers.
#[derive(Clone, Copy)]
pub struct Leasable {
    pub guest: u32,
    pub pd: u32,
    pub kept: (u64, u64),
    pub left: u32,
    pub regs: Regs,
}

/// The protection domain of the virtual CPU `ec`; none where the number is that of another.
fn domain_of_virtual(kernel: &Kernel, ec: u32) -> Option<u32>
    ensures { result ≡ domain_of_virtual (slice_get kernel.now.state.objects ec) }
{
    match kernel.object(ec) {
        Some(
            &Object::Ec {
                pd,
                kind: EcKind::Vcpu,
                ..
            },
        ) => Some(pd),
        _ => None,
    }
}

/// The registers of the execution context `ec`, if it is ready, without recall flag.
fn regs_to_step(kernel: &Kernel, ec: u32) -> Option<Regs>
    ensures { result ≡ regs_to_step (context kernel.now.state ec) }
{
    let context = kernel.ec(ec)?;
    if matches!(context.state, State::Ready) && !context.recall {
        Some(context.regs)
    } else {
        None
    }
}

/// Whether `pc` is a multiple of 4 and lies in a page with execute of the protection domain `pd`.
fn is_at_code(kernel: &mut Kernel, pd: u32, pc: u32) -> bool
    ensures is { result ≡ is_at_code kernel.old.state pd pc }
    ensures kept { kernel.new ≡ kernel.old }
{
    if pc % 4 != 0 {
        return false;
    }
    match kernel.reach(pd, pc / 4096) {
        Some((_, rights)) => rights.contains(Rights::EXECUTE),
        None => false,
    }
}

/// How many turns are left of a quantum of which `left` are, and before something is due; none where something is.
fn turns_before(left: u32, until: Option<u64>) -> Option<u32>
    ensures { result ≡ turns_before left until }
{
    match until {
        None => Some(left),
        Some(0) => None,
        Some(turns) => {
            if turns < u64::from(left) {
                Some(turns as u32)
            } else {
                Some(left)
            }
        }
    }
}

/// How many turns of `cpu` are left of the quantum of `sc`, and before something is due; none where there is none.
fn turns_left(kernel: &Kernel, cpu: u32, sc: u32) -> Option<u32>
    ensures { result ≡ turns_left (left_of kernel.now.state sc) (until_due kernel.now.state.times cpu) }
{
    turns_before(kernel.left(sc)?, kernel.until_due(cpu))
}

/// The virtual CPU that would step next on the processor `cpu`, if it may be leased.
fn find(kernel: &mut Kernel, cpu: u32) -> Option<Leasable>
    ensures given { is_some result ≡ is_leasable kernel.old.state cpu }
    ensures found { IfSome result (λ r. IsFound kernel.old.state cpu r) }
    ensures kept { kernel.new ≡ kernel.old }
{
    if cpu >= kernel.cpus() {
        return None;
    }
    let guest = kernel.actor(cpu)?;
    let sc = kernel.choose(cpu)?;
    let left = turns_left(kernel, cpu, sc)?;
    let pd = domain_of_virtual(kernel, guest)?;
    let regs = regs_to_step(kernel, guest)?;
    if !is_at_code(kernel, pd, regs.pc()) {
        return None;
    }
    let kept = kernel.stir(guest, cpu);
    Some(Leasable {
        guest,
        pd,
        kept,
        left,
        regs,
    })
}

/// A lease of `found`, the virtual CPU that was found on the processor `cpu`.
fn lease_of(
    kernel: &mut Kernel,
    alloc: Global,
    cpu: u32,
    found: &Leasable,
    pages: usize,
) -> Result<Lease, AllocError>
    requires pages { 1 ≤ pages }
    requires found { IsFound kernel.old.state cpu found.now }
    ensures new { IfOk result (λ x. IsNew x kernel.old.state cpu pages) }
    ensures stems { IfOk result (λ x. StemsFrom x kernel.old.state) }
    ensures kept { kernel.new ≡ kernel.old }
{
    let copies = gather(kernel, alloc, found.pd, &found.regs, pages)?;
    let lease = Lease::new(cpu, found.guest, found.kept, found.left, found.regs, copies);
    Ok(lease)
}

/// A lease of the virtual CPU that acts next on the processor `cpu`, with copies of at most `pages` RAM frames,
/// at least one. They are the page of pc, and others of its choice. None exactly where no virtual CPU acts
/// there, or it isn't Ready, its recall flag is set, or its pc isn't a multiple of 4 or lies in no page with
/// execute. The kernel stays as it was.
pub fn lease(
    kernel: &mut Kernel,
    alloc: Global,
    cpu: u32,
    pages: usize,
) -> Result<Option<Lease>, AllocError>
    requires { 1 ≤ pages }
    ensures given { IfOk result (λ l. is_some l ≡ is_leasable kernel.old.state cpu) }
    ensures new { IfOk result (λ l. IfSome l (λ x. IsNew x kernel.old.state cpu pages)) }
    ensures stems { IfOk result (λ l. IfSome l (λ x. StemsFrom x kernel.old.state)) }
    ensures kept { kernel.new ≡ kernel.old }
{
    match find(kernel, cpu) {
        Some(found) => Ok(Some(lease_of(kernel, alloc, cpu, &found, pages)?)),
        None => Ok(None),
    }
}

/// The answer to `lease` by both stir counts `now`, and by `actor`, which acts: that of the first test that fails. Where nothing came between, the
/// processor isn't idle, so that None is never met.
fn answer(lease: &Lease, now: (u64, u64), actor: Option<u32>, left: u64) -> CommitDone
    ensures { result ≡ answer_to lease.now.run left now actor }
{
    let kept = lease.kept();
    if kept.0 != now.0 || kept.1 != now.1 {
        return CommitDone::Dropped { kept, now };
    }
    let Some(actor) = actor else {
        return CommitDone::Away { actor: 0 };
    };
    if actor != lease.guest() {
        return CommitDone::Away { actor };
    }
    let count = lease.count();
    if count > left {
        return CommitDone::NoRoom { left };
    }
    CommitDone::Committed(count)
}

/// What becomes of `lease`, which is to be committed.
fn decide(kernel: &Kernel, lease: &Lease, left: u64) -> CommitDone
    requires { ComesAfter lease.now kernel.now.state }
    ensures { result ≡ commit_done kernel.now.state lease.now.run left }
{
    let guest = lease.guest();
    let cpu = lease.cpu();
    let now = kernel.stir(guest, cpu);
    let acting = kernel.actor(cpu);
    answer(lease, now, acting, left)
}

/// Takes the steps of `lease` over into `kernel`, where they are to be committed.
fn take_over(kernel: &mut Kernel, lease: &Lease, done: CommitDone)
    requires { MayTakeOver kernel.old.state lease.now.run done }
    ensures state { kernel.new.state ≡ run kernel.old.state (replicate (turns_of done) lease.now.run.cpu) }
    ensures room { kernel.new.room ≡ kernel.old.room }
{
    match done {
        CommitDone::Committed(_) => kernel.advance(lease.cpu(), lease.steps()),
        _ => {}
    }
}

/// Commits what `lease` ran, where nothing came between. Its instructions are then as many turns of its
/// processor, each a plain step of the leased virtual CPU, charged to the scheduling context that
/// `Kernel::choose` gives. `left` is how many turns there is room for, with those so far at most 2^31. The
/// answer is the first that holds: Dropped where a stir count of the virtual CPU or of its processor isn't that
/// which the lease keeps, Away where another would act on the processor, NoRoom where more than `left`
/// instructions ran, and else Committed with their number. But for Committed the kernel stays as it was. It
/// takes no memory.
pub fn commit(kernel: &mut Kernel, lease: Lease, left: u64) -> CommitDone
    requires after { ComesAfter lease kernel.old.state }
    requires turns { kernel.old.state.turns + left ≤ 2 ^ 31 }
    ensures answer { result ≡ commit_done kernel.old.state lease.run left }
    ensures most { turns_of result ≤ left }
    ensures turns { AreItsTurns kernel.old.state kernel.new.state lease.run.cpu (turns_of result) }
    ensures room { kernel.new.room ≡ kernel.old.room }
{
    let done = decide(kernel, &lease, left);
    take_over(kernel, &lease, done);
    done
}
