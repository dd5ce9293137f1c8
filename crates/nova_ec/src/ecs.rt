ghost use Rattle.std.specs.Prelude.{ℕ, false, true, ◌||◌, ◌≡◌, ◌+◌, ◌-◌, ◌<◌, ◌≤◌, [], ◌∷◌, ◌++◌, length, max, IsOk, IsSome, IfOk, IfSome, OnOk, OnErr, option_and_then, option_map, Some, None};
ghost use Rattle.rv_model.specs.Step.{one};
ghost use Rattle.rv_core.specs.Steps.{space_of};
ghost use Rattle.nova_model.specs.State.{ec_in, ec_of, with_ec};
ghost use Rattle.nova_model.specs.Calls.{is_same_cpu, is_parked};
ghost use Rattle.nova_model.specs.Edges.{cpu_in, is_dead, state_in, edge_of, edge, acts, stays, met, chase, circle, MayWait, MayServe, AreEdges, AreCallers};
ghost use Rattle.nova_model.specs.Deeds.{answered, parked, serving};
ghost use Rattle.nova_ec.specs.Tables.{Steps, StepsIn, IsServing, with_items, actor_in};
ghost use Rattle.nova_ec.specs.Waiting.{IsAmong};
ghost use Rattle.nova_model.specs.declared.context.EcState.{EcState};
ghost use Rattle.nova_model.specs.declared.context.State.TheVariants.{Ready};

mod entries;

use crate::contexts::{begin, end_hypercall};
use crate::states::{acts_by, edge_of};
use crate::waiters::{Waiters, join, leave};
pub use entries::Entries;
use nova_model::{EcState, Mark, State};
use nova_range::Status;
use rv_core::bus::Bus;
use rv_core::outcome::Outcome;
use rv_core::{Readings, Regs, step_read};
use std::alloc::{AllocError, Global};
use std::marker::Model;

/// The table of execution contexts, by number: an entry holds the execution context of its number or nothing. Edges, from a context that waits to the
/// handler that it waits for, join execution contexts of one processor, and never form a circle. A caller is there, and of one processor with the
/// context that serves it. Of each is kept which contexts may wait for it. What words read as is remembered.
#[derive(Drop)]
pub struct Ecs {
    items: Vec<Option<EcState>>,
    waiters: Vec<Waiters>,
    spare: usize,
    readings: Readings,
}

impl Model for Ecs {
    ghost use Rattle.std.specs.Prelude.{◌≡◌, ◌+◌, ◌≤◌, length, vec_len, vec_capacity};
    ghost use Rattle.nova_model.specs.Edges.{AreEdges, AreCallers};
    ghost use Rattle.nova_ec.specs.Tables.{EcTable, AreNumbered};
    ghost use Rattle.nova_ec.specs.Waiting.{AreKnown};

    ghost Value = { EcTable };

    ghost view = { λ t. record { items = t.items.items; spare = t.spare } };

    ghost invariant = { λ t. AreEdges t.items.items × (vec_len t.items + t.spare ≤ vec_capacity t.items) × AreNumbered t.items.items × AreCallers t.items.items
        × (vec_len t.waiters + t.spare ≤ vec_capacity t.waiters) × (length t.waiters.items ≡ length t.items.items) × AreKnown t.items.items t.waiters.items };
}

/// Executes one instruction of `context` over `bus`.
#[inline(always)]
fn step_in<B: Bus>(context: &mut EcState, bus: &mut B, readings: &mut Readings) -> Outcome
    requires { B.room (B.state bus.old) }
    ensures { let space = space_of B.fetched B.loaded B.takes (B.state bus.old) in
        StepsIn B.stored (one context.old.regs space) context.old (B.state bus.old) result context.new (B.state bus.new) }
{
    step_read(&mut context.regs, bus, readings)
}

impl Ecs {
    /// No execution contexts, and room for none.
    pub fn new(alloc: Global) -> Ecs
        ensures { result ≡ record { items = []; spare = 0 } }
    {
        Ecs {
            items: Vec::new(alloc),
            waiters: Vec::new(alloc),
            spare: 0,
            readings: Readings::new(),
        }
    }

    /// Makes room for `n` more entries, counted from those that are there.
    pub fn reserve(&mut self, n: usize) -> Result<(), AllocError>
        ensures ok { OnOk result (self.new ≡ record self.old { spare = max self.old.spare n }) }
        ensures enough { n ≤ self.old.spare → IsOk result }
        ensures err { OnErr result (self.new ≡ self.old) }
    {
        self.items.reserve(n)?;
        self.waiters.reserve(n)?;
        self.spare = self.spare.max(n);
        Ok(())
    }

    /// Copies the entries into memory of their own, with no spare room.
    pub fn copy(&self) -> Result<Ecs, AllocError>
        ensures { IfOk result (λ copy. copy ≡ record { items = self.now.items; spare = 0 }) }
    {
        let alloc = *self.items.allocator();
        let items = Vec::from_slice(alloc, self.items.as_slice())?;
        let waiters = Vec::from_slice(alloc, self.waiters.as_slice())?;
        Ok(Ecs {
            items,
            waiters,
            spare: 0,
            readings: Readings::new(),
        })
    }

    /// Adds the entry of the next number in reserved room: `ec`, the execution context of that number, or
    /// nothing. It waits for no other, and its caller, where it has one, is there and of its processor.
    pub fn add(&mut self, ec: Option<EcState>)
        requires room { 0 < self.old.spare }
        requires number { IfSome ec (λ x. x.id ≡ length self.old.items) }
        requires caller { IfSome ec (λ x. IsServing self.old.items x.cpu x.caller) }
        requires edge { option_and_then edge_of (option_map (λ (x : EcState). x.state) ec) ≡ None }
        ensures { self.new ≡ record { items = self.old.items ++ ec ∷ []; spare = self.old.spare - 1 } }
    {
        self.items.push_reserved(ec);
        self.waiters.push_reserved(Waiters::Nobody);
        self.spare -= 1;
    }

    /// The execution context of number `ec`; none where no execution context has it.
    pub fn get(&self, ec: u32) -> Option<&EcState>
        ensures context { option_map (λ x. x.now) result ≡ ec_in self.now.items ec }
        ensures id { IfSome result (λ x. x.now.id ≡ ec) }
    {
        self.items.get(ec as usize)?.as_ref()
    }

    /// The execution context of number `ec`, which there is.
    pub fn context(&self, ec: u32) -> &EcState
        requires { IsSome (ec_in self.now.items ec) }
        ensures there { ec_in self.now.items ec ≡ Some result.now }
        ensures context { result.now ≡ ec_of self.now.items ec }
    {
        let Some(context) = &self.items[ec as usize] else {
            unreachable!();
        };
        context
    }

    /// What the execution context `ec` is about to do; none where no execution context has the number.
    fn state(&self, ec: u32) -> Option<State>
        ensures { result ≡ state_in self.now.items ec }
    {
        match self.items.get(ec as usize) {
            Some(Some(context)) => Some(context.state),
            _ => None,
        }
    }

    /// The handler that the execution context `ec` waits for.
    fn edge(&self, ec: u32) -> Option<u32>
        ensures { result ≡ edge self.now.items ec }
    {
        edge_of(self.state(ec)?)
    }

    /// The execution contexts that may wait for `ec`. Once several waited for it at a time, several may from then on.
    pub fn waiters(&self, ec: u32) -> Waiters
        ensures { (z : ℕ) → edge self.now.items z ≡ Some ec → IsAmong z result }
    {
        match self.waiters.get(ec as usize) {
            Some(waiters) => *waiters,
            None => Waiters::Several,
        }
    }

    /// Whether the execution context `ec` is there and acts.
    pub fn acts(&self, ec: u32) -> bool
        ensures acts { result ≡ acts self.now.items ec }
        ensures there { result ≡ true → IsSome (ec_in self.now.items ec) }
    {
        let Some(state) = self.state(ec) else {
            return false;
        };
        let handler = match edge_of(state) {
            Some(handler) => self.state(handler),
            None => None,
        };
        acts_by(state, handler)
    }

    /// Whether following edges from `handler` meets `ec`; the handler itself counts.
    #[inline(always)]
    pub fn circle(&self, handler: u32, ec: u32) -> bool
        ensures { result ≡ circle self.now.items handler ec }
    {
        let mut next = Some(handler);
        for _ in 0..self.items.len() {
            let Some(met) = next else {
                return false;
            };
            if met == ec {
                return true;
            }
            next = self.edge(met);
        }
        false
    }

    /// Tells that edges join execution contexts of one processor, and never form a circle.
    pub fn keeps_edges(&self)
        ensures { AreEdges self.now.items }
    {
        let _spare = self.spare;
    }

    /// Tells that callers are there, and of one processor with the contexts that serve them.
    pub fn keeps_callers(&self)
        ensures { AreCallers self.now.items }
    {
        let _spare = self.spare;
    }

    /// The end of the chase from `ec`, and whether the execution context there acts.
    fn end_of_chase(&self, ec: u32) -> (u32, bool)
        ensures end { result.0 ≡ chase self.now.items ec }
        ensures acts { result.1 ≡ acts self.now.items result.0 }
    {
        self.keeps_edges();
        let mut at = ec;
        while !self.acts(at) {
            let Some(handler) = self.edge(at) else {
                return (at, false);
            };
            at = handler;
        }
        (at, true)
    }

    /// The execution context with which the turns of `ec` stay: the first on its way along edges that acts or has no edge.
    pub fn chase(&self, ec: u32) -> u32
        ensures { result ≡ chase self.now.items ec }
    {
        self.end_of_chase(ec).0
    }

    /// The execution context that acts in the turns of `ec`: the end of its chase, where that acts.
    pub fn actor(&self, ec: u32) -> Option<u32>
        ensures actor { result ≡ actor_in self.now.items ec }
        ensures there { IfSome result (λ actor. IsSome (ec_in self.now.items actor)) }
    {
        let (end, is_acting) = self.end_of_chase(ec);
        if is_acting { Some(end) } else { None }
    }

    /// Whether the execution contexts `a` and `b` are both there, on one processor.
    #[inline(always)]
    pub fn share_processor(&self, a: u32, b: u32) -> bool
        ensures { result ≡ is_same_cpu (cpu_in self.now.items a) (cpu_in self.now.items b) }
    {
        match (self.get(a), self.get(b)) {
            (Some(a), Some(b)) => a.cpu == b.cpu,
            _ => false,
        }
    }

    /// Whether no reply of `handler` can come to `ec`: the handler is dead, or following edges from it meets `ec`.
    #[inline(always)]
    pub fn is_lost(&self, handler: u32, ec: u32) -> bool
        ensures { result ≡ (is_dead (state_in self.now.items handler) || circle self.now.items handler ec) }
    {
        matches!(self.get(handler), Some(context) if matches!(context.state, State::Dead))
            || self.circle(handler, ec)
    }

    /// Whether the execution context `ec` waits for a call.
    #[inline(always)]
    pub fn is_parked(&self, ec: u32) -> bool
        ensures { result ≡ is_parked (state_in self.now.items ec) }
    {
        matches!(self.get(ec), Some(context) if matches!(context.state, State::Parked))
    }

    /// Sets what the execution context `ec` is about to do to `state`. Where it is to wait for a handler, the
    /// handler is of the same processor, and no circle closes.
    pub fn set_state(&mut self, ec: u32, state: State)
        requires there { IsSome (ec_in self.old.items ec) }
        requires edge { MayWait self.old.items ec (edge_of state) }
        ensures { self.new ≡ with_items self.old (with_ec self.old.items ec (record (ec_of self.old.items ec) { state = state })) }
    {
        let Some(context) = &mut self.items[ec as usize] else {
            unreachable!();
        };
        leave(&mut self.waiters, edge_of(context.state), ec);
        join(&mut self.waiters, edge_of(state), ec);
        context.state = state;
    }

    /// Sets the registers of the execution context `ec` to `regs`.
    pub fn set_regs(&mut self, ec: u32, regs: &Regs)
        requires { IsSome (ec_in self.old.items ec) }
        ensures { self.new ≡ with_items self.old (with_ec self.old.items ec (record (ec_of self.old.items ec) { regs = regs.now })) }
    {
        let Some(context) = &mut self.items[ec as usize] else {
            unreachable!();
        };
        context.regs = *regs;
    }

    /// Sets whether a recall of the execution context `ec` is asked for.
    pub fn set_recall(&mut self, ec: u32, recall: bool)
        requires { IsSome (ec_in self.old.items ec) }
        ensures { self.new ≡ with_items self.old (with_ec self.old.items ec (record (ec_of self.old.items ec) { recall = recall })) }
    {
        let Some(context) = &mut self.items[ec as usize] else {
            unreachable!();
        };
        context.recall = recall;
    }

    /// Sets the caller that the execution context `ec` serves from now on: a context that is there and of its processor, or none.
    pub fn set_caller(&mut self, ec: u32, caller: Option<(u32, Mark)>)
        requires there { IsSome (ec_in self.old.items ec) }
        requires caller { MayServe self.old.items ec caller }
        ensures { self.new ≡ with_items self.old (with_ec self.old.items ec (record (ec_of self.old.items ec) { caller = caller })) }
    {
        let Some(context) = &mut self.items[ec as usize] else {
            unreachable!();
        };
        context.caller = caller;
    }

    /// Ends the hypercall of the execution context `ec` with `status`, and perhaps `value`: its next is the instruction after the call.
    pub fn answer(&mut self, ec: u32, status: Status, value: Option<u32>)
        requires { IsSome (ec_in self.old.items ec) }
        ensures { self.new ≡ with_items self.old (with_ec self.old.items ec (answered (ec_of self.old.items ec) status value)) }
    {
        let Some(context) = &mut self.items[ec as usize] else {
            unreachable!();
        };
        leave(&mut self.waiters, edge_of(context.state), ec);
        end_hypercall(context, status, value);
    }

    /// Lets the execution context `ec`, whose exit is answered, go on with the registers `regs`.
    pub fn resume(&mut self, ec: u32, regs: &Regs)
        requires { IsSome (ec_in self.old.items ec) }
        ensures { self.new ≡ with_items self.old (with_ec self.old.items ec (record (ec_of self.old.items ec) { regs = regs.now; state = Ready })) }
    {
        let Some(context) = &mut self.items[ec as usize] else {
            unreachable!();
        };
        leave(&mut self.waiters, edge_of(context.state), ec);
        context.regs = *regs;
        context.state = State::Ready;
    }

    /// Parks the handler `ec`: it waits for a call, and serves no caller.
    pub fn park(&mut self, ec: u32)
        requires { IsSome (ec_in self.old.items ec) }
        ensures { self.new ≡ with_items self.old (with_ec self.old.items ec (parked (ec_of self.old.items ec))) }
    {
        let Some(context) = &mut self.items[ec as usize] else {
            unreachable!();
        };
        leave(&mut self.waiters, edge_of(context.state), ec);
        context.state = State::Parked;
        context.caller = None;
    }

    /// Lets the handler `ec` begin the call or the exit of `caller`, which is of its processor, at `ip`, with
    /// the portal's `identifier` in x10. Where a call has items it takes them first.
    pub fn serve(&mut self, ec: u32, caller: u32, mark: Mark, ip: u32, identifier: u32, items: bool)
        requires there { IsSome (ec_in self.old.items ec) }
        requires caller { MayServe self.old.items ec (Some (caller, mark)) }
        ensures { self.new ≡ with_items self.old (with_ec self.old.items ec (serving (ec_of self.old.items ec) caller mark ip identifier items)) }
    {
        let Some(context) = &mut self.items[ec as usize] else {
            unreachable!();
        };
        leave(&mut self.waiters, edge_of(context.state), ec);
        begin(context, caller, mark, ip, identifier, items);
    }

    /// Executes one instruction of the execution context `ec` over `bus`. A raise leaves its registers, and the bus, as they were.
    pub fn step<B: Bus>(&mut self, ec: u32, bus: &mut B) -> Outcome
        requires there { IsSome (ec_in self.old.items ec) }
        requires room { B.room (B.state bus.old) }
        ensures { let space = space_of B.fetched B.loaded B.takes (B.state bus.old) in
            let once = one (ec_of self.old.items ec).regs space in
            Steps B.stored once self.old ec (B.state bus.old) result self.new (B.state bus.new) }
    {
        let Some(context) = &mut self.items[ec as usize] else {
            unreachable!();
        };
        step_in(context, bus, &mut self.readings)
    }
}
