ghost use Rattle.std.specs.Prelude.{◌≡◌, ◌<◌, ℕ, IfOk, IfSome, IsSome};
ghost use Rattle.rv_model.specs.Step.{one};
ghost use Rattle.nova_deeds.specs.Acts.{outcome_of, IsGivenBy, IsToBeDone};
ghost use Rattle.nova_preview.specs.Ahead.{space_for, write_by, AreOf};
ghost use Rattle.nova_model.specs.AddressSpaces.{space};
ghost use Rattle.nova_delegate.specs.Parts.{IsReady, IsUnderWay};
ghost use Rattle.nova_model.specs.Deliveries.{delegated, delivered, delivers, part_deed, parted};
ghost use Rattle.nova_model.specs.State.{KernelState};
ghost use Rattle.nova_model.specs.Transfers.{job_of, next_part};
ghost use Rattle.nova_nodes.specs.NodesStates.{IsPlaced};
ghost use Rattle.nova_range.specs.Rights.{IsRights};
ghost use Rattle.nova_revoke.specs.Runners.{busy_under, revoke_in};
ghost use Rattle.nova_model.specs.Deeds.{removes};
ghost use Rattle.nova_model.specs.Revokes.{next_leaf};

use nova_deeds::items::{DELEGATES, finished, flag, range_given};
use nova_delegate::job;
use nova_memory::{Preview, Reach, Write};
use nova_model::{Deed, Delivery, Derivation, ItemEnd, Job, Reason, Transfer};
use nova_revoke::{Revokes, Running};
use rv_core::{Outcome, Regs, hart};

/// What an instruction comes to, and the store to a frame that it would make.
#[derive(Clone, Copy)]
pub struct Ahead {
    pub outcome: Outcome,
    pub write: Option<Write>,
}

/// Looks at the next instruction of the execution context `ec` of the domain `pd`, from the registers `regs`, and changes nothing. An instruction
/// that raises makes no store.
pub fn next_instruction(reach: &Reach, ec: u32, pd: u32, is_thread: bool, regs: &Regs) -> Ahead
    ensures outcome { result.outcome ≡ outcome_of (one regs.now (space (space_for reach.now ec pd is_thread))) }
    ensures write { let seen = space_for reach.now ec pd is_thread in result.write ≡ write_by seen (one regs.now (space seen)) }
{
    let mut regs = *regs;
    let mut preview = Preview::new(reach, ec, pd, is_thread);
    let outcome = hart::step(&mut regs, &mut preview);
    let write = preview.write();
    Ahead { outcome, write }
}

/// The deed of a part of the derivation `source`: `child` is given, or the part is skipped.
fn parted(job: &Job, source: &Derivation, child: Result<Derivation, Reason>) -> Deed
    requires source { IsPlaced source.now }
    ensures deed { result ≡ parted job.now source.now child }
    ensures fits { (k : KernelState) (ec : ℕ) → IfOk child (IsReady k.delegations) → IsToBeDone k ec result }
{
    let cursor = source.base + (1 << source.order);
    match child {
        Ok(child) => Deed::Gives { child, cursor },
        Err(reason) => Deed::Skips {
            reason,
            place: source.base.max(job.source),
            cursor,
        },
    }
}

/// The deed of the next part of the delegation `job`, or what ends the item.
fn part_ahead(
    reach: &Reach,
    revokes: &[Running],
    delivery: Delivery,
    transfer: Transfer,
    job: Job,
) -> Deed
    requires item { transfer.item < 62 }
    requires job { IsUnderWay job }
    requires rights { IsRights job.rights }
    ensures deed { result ≡ part_deed delivery transfer job (next_part (busy_under revokes.now reach.now.nodes.delegations.list) reach.now.nodes.delegations job) }
    ensures fits { (k : KernelState) (ec : ℕ) → AreOf k reach.now revokes.now → IsGivenBy k ec transfer.item delivery → IsToBeDone k ec result }
{
    match reach.next_part(&job, revokes) {
        Some((source, child)) => parted(&job, &source, child),
        None => {
            let children = transfer.children;
            finished(
                delivery,
                transfer.item,
                ItemEnd::Given(children),
                range_given(job, children),
            )
        }
    }
}

/// The next part of a delegation, `delivery`, or it is skipped as a whole.
fn delegation_ahead(
    reach: &Reach,
    revokes: &[Running],
    delivery: Delivery,
    transfer: Transfer,
) -> Deed
    requires item { transfer.item < 62 }
    ensures deed { (k : KernelState) → AreOf k reach.now revokes.now
        → result ≡ delegated k delivery transfer (job_of delivery.range_word delivery.second_word delivery.delegations delivery.giver delivery.receiver) }
    ensures fits { (k : KernelState) (ec : ℕ) → AreOf k reach.now revokes.now → IsGivenBy k ec transfer.item delivery → IsToBeDone k ec result }
{
    let Delivery {
        range_word,
        second_word,
        delegations,
        giver,
        receiver,
        ..
    } = delivery;
    match job(range_word, second_word, delegations, giver, receiver) {
        Ok(whole) => {
            let cursor = transfer.cursor;
            part_ahead(reach, revokes, delivery, transfer, Job { cursor, ..whole })
        }
        Err(skip) => finished(delivery, transfer.item, ItemEnd::Skipped(skip), 0),
    }
}

/// The next part of the item `delivery`, by its flag, or what ends it.
fn item_ahead(reach: &Reach, revokes: &[Running], delivery: Delivery, transfer: Transfer) -> Deed
    requires item { transfer.item < 62 }
    ensures deed { (k : KernelState) → AreOf k reach.now revokes.now → result ≡ delivered k delivery transfer }
    ensures fits { (k : KernelState) (ec : ℕ) → AreOf k reach.now revokes.now → IsGivenBy k ec transfer.item delivery → IsToBeDone k ec result }
{
    if flag(delivery) == DELEGATES {
        return delegation_ahead(reach, revokes, delivery, transfer);
    }
    let answer = reach.translate(
        delivery.range_word,
        delivery.translations,
        delivery.giver,
        delivery.receiver,
    );
    finished(delivery, transfer.item, ItemEnd::Translated(answer), answer)
}

/// The deed of an execution context whose present item is `delivery`, while `revokes` run: the next part of the
/// item, or what ends it. Without an item it rests.
pub fn next_deed(
    reach: &Reach,
    revokes: &[Running],
    transfer: Transfer,
    delivery: Option<Delivery>,
) -> Deed
    requires item { transfer.item < 62 }
    ensures deed { (k : KernelState) → AreOf k reach.now revokes.now → result ≡ delivers k transfer delivery }
    ensures fits { (k : KernelState) (ec : ℕ) → AreOf k reach.now revokes.now → IfSome delivery (IsGivenBy k ec transfer.item) → IsToBeDone k ec result }
{
    match delivery {
        Some(delivery) => item_ahead(reach, revokes, delivery, transfer),
        None => Deed::Rests,
    }
}

/// The deed of the execution context `ec`, which revokes: the next leaf is removed, or the revoke returns. The next search may be quicker; what is
/// kept stays.
pub fn leaf_deed(reach: &mut Reach, revokes: &Revokes, ec: u32) -> Deed
    requires there { IsSome (revoke_in ec revokes.now.list) }
    ensures deed { IfSome (revoke_in ec revokes.now.list) (λ revoke. result ≡ removes (next_leaf revoke reach.old.nodes.delegations)) }
    ensures fits { (k : KernelState) (revoker : ℕ) → reach.old.nodes.delegations ≡ k.delegations → IsToBeDone k revoker result }
    ensures kept { reach.new ≡ reach.old }
{
    let Some(revoke) = revokes.get(ec) else {
        unreachable!()
    };
    match reach.next_leaf(&revoke) {
        Some(leaf) => Deed::Removes { leaf },
        None => Deed::Returns,
    }
}
