ghost use Rattle.std.specs.Prelude.{◌≡◌, ◌+◌, ◌*◌, ◌^◌, ◌<◌, ◌≤◌, ◌-◌, length, map, replicate, slice_get, None, Some, IfSome, IfOk, OnOk, OnErr, option_map};
ghost use Rattle.std.specs.Option.{option_copied};
ghost use Rattle.std.specs.List.{AllByRecursion};
ghost use Rattle.nova_model.specs.State.{context_at, deadline_of};
ghost use Rattle.nova_model.specs.Times.{clock, until_due};
ghost use Rattle.nova_model.specs.Sources.{with_source};
ghost use Rattle.nova_times.specs.Kept.{IsAlarm};
ghost use Rattle.nova_model.specs.declared.times.AlarmState.{AlarmState};
ghost use Rattle.nova_model.specs.Choice.{choice, choose, is_quiet};
ghost use Rattle.nova_model.specs.Delegations.{reach};
ghost use Rattle.nova_model.specs.Runs.{run, trace};
ghost use Rattle.nova_model.specs.Boot.{bare, laid};
ghost use Rattle.nova_model.specs.Forest.{IsForest};
ghost use Rattle.law_turns.specs.Tables.{IsOf};
ghost use Rattle.nova_model.specs.Capabilities.{is_vcpu};
ghost use Rattle.nova_model.specs.Guests.{input};
ghost use Rattle.nova_model.specs.Views.{view};
ghost use Rattle.nova_turn.specs.Given.{BringsBytes};
ghost use Rattle.nova_turn.specs.Stirs.{stir_of};
ghost use Rattle.law_leases.specs.Advances.{step_of};
ghost use Rattle.law_leases.specs.Commits.{IsReached, MayAdvance};
ghost use Rattle.nova_kernel.specs.Views.{ticks_of, left_of, semaphore_at, derivation_from, IsTurnTaken};

use crate::burst::advance;
use crate::taking::{keep, next_to_act};
use crate::view::guest_of;
use law_leases::Steps;
use nova_choice::Chosen;
use nova_guest::{Guest, Input};
use nova_model::{
    Alarm, AlarmState, Deadline, Derivation, EcState, LogByte, Object, Rights, Root, Turn,
};
use nova_turn::Parts;
use std::alloc::{AllocError, Global};
use std::marker::Model;

/// The kernel of a multiprocessor: protection domains and their delegations, execution and
/// scheduling contexts, and memory. Time is counted in turns.
#[derive(Drop)]
pub struct Kernel {
    pub(crate) parts: Parts,
    pub(crate) known: [Option<Chosen>; 8],
}

impl Model for Kernel {
    ghost use Rattle.nova_kernel.specs.Views.{KernelView};

    ghost Value = { KernelView };

    ghost use Rattle.nova_turn.specs.Parts.{view_of};

    ghost view = { λ k. view_of k.parts };

    ghost use Rattle.nova_kernel.specs.Sound.{IsSoundKernel};

    ghost invariant = { λ k. IsSoundKernel k.parts k.known };
}

impl Kernel {
    /// The state in which a machine boots, without images: so many processors, `2^ram` frames of RAM,
    /// so many consoles, a root domain with one thread, and room in the console log for `log_room`
    /// bytes. The order is at most 14 and the consoles are at most 16.
    pub fn new(
        alloc: Global,
        cpus: u32,
        ram: u8,
        consoles: u32,
        root: Root,
        log_room: u64,
    ) -> Result<Kernel, AllocError>
        requires ram { ram ≤ 14 }
        requires consoles { consoles ≤ 16 }
        ensures { IfOk result (λ k. k ≡ record { state = bare cpus ram consoles root; room = log_room }) }
    {
        law_turns::turns_keep_what_they_find();
        law_leases::laws::what_bursts_stand_on_is_kept();
        let parts = Parts::new(alloc, cpus, ram, consoles, root, log_room)?;
        Ok(Kernel {
            parts,
            known: [None; 8],
        })
    }

    /// The same state in memory of its own. The copy's console log has no room for more bytes, so that it
    /// takes no turn until `reserve_log` makes some.
    pub fn copy(&self) -> Result<Kernel, AllocError>
        ensures state { IfOk result (λ k. k.state ≡ self.now.state) }
        ensures room { IfOk result (λ k. k.room ≡ 0) }
    {
        let parts = self.parts.copy()?;
        Ok(Kernel {
            parts,
            known: [None; 8],
        })
    }

    /// Makes the state that of `from`, in memory of its own: a kernel is large, and to make one takes far longer. The console log has
    /// no room for more bytes, so that it takes no turn until `reserve_log` makes some. Where memory is refused nothing has changed.
    pub fn restore(&mut self, from: &Kernel) -> Result<(), AllocError>
        ensures state { OnOk result (self.new.state ≡ from.now.state) }
        ensures room { OnOk result (self.new.room ≡ 0) }
        ensures err { OnErr result (self.new ≡ self.old) }
    {
        self.parts.restore(&from.parts)?;
        self.known = [None; 8];
        Ok(())
    }

    /// Lays bytes into RAM one after another from an address on. They lie in RAM, and no turn was taken yet: what is laid is no
    /// input of a virtual CPU, so it comes before there is one.
    #[tactic(auto, using(crate::proofs::Laid::laid_length, crate::proofs::Begun::laid_begun))]
    pub fn put(&mut self, address: u32, bytes: &[u8])
        requires within { address + length bytes.now ≤ 4096 * length self.old.state.memory.ram }
        requires turns { self.old.state.turns ≡ 0 }
        ensures laid { self.new ≡ record self.old { state = record self.old.state { memory = laid self.old.state.memory address bytes.now } } }
        ensures frames { length self.new.state.memory.ram ≡ length self.old.state.memory.ram }
    {
        law_turns::turns_keep_what_they_find();
        law_leases::laws::what_bursts_stand_on_is_kept();
        self.parts.reach.put(address, bytes);
    }

    /// One turn of an existing processor: what is due there comes; else the execution context to which the turns of the chosen scheduling context lead acts, and the
    /// scheduling context is charged; else the clock alone goes on, where something is to come. Idle, with nothing changed, exactly where nothing is to come and no scheduling
    /// context of the processor is runnable. Memory can run out only in a turn that makes an object or a derivation. Needs spare log, of which a turn uses at most one place,
    /// and fewer than 2^31 turns taken before.
    pub fn turn(&mut self, cpu: u32) -> Result<Turn, AllocError>
        requires cpu { cpu < self.old.state.cpus }
        requires room { 0 < self.old.room }
        requires turns { self.old.state.turns < 2 ^ 31 }
        ensures { IsTurnTaken self.old self.new cpu result }
    {
        law_leases::laws::what_bursts_stand_on_is_kept();
        let turn = self.parts.turn(cpu, &self.known)?;
        keep(&mut self.known, &turn);
        Ok(turn)
    }

    /// As many turns of a processor as a virtual CPU took instructions on copies, at once. It is the one who
    /// acts there, ready and without a recall that is asked for; the instructions are no more than what is left of the
    /// chosen quantum, and than what is left until something is due there, and none of them raises or stores to a console. Registers, the bytes of each page,
    /// of a frame each once, and the stores to it are those after these instructions, of which none
    /// stores to a RAM frame outside the pages. With the turns taken before they are at most 2^31.
    pub fn advance(&mut self, cpu: u32, steps: &Steps)
        requires may { MayAdvance self.old.state cpu steps.now }
        requires turns { self.old.state.turns + steps.now.count ≤ 2 ^ 31 }
        ensures state { self.new.state ≡ run self.old.state (replicate steps.now.count cpu) }
        ensures room { self.new.room ≡ self.old.room }
    {
        advance(&mut self.parts, cpu, steps);
        self.known = [None; 8];
    }

    /// The scheduling context that the processor's next turn is charged to; none where it is idle.
    pub fn choose(&self, cpu: u32) -> Option<u32>
        ensures { result ≡ choose self.now.state cpu }
    {
        self.parts.choose(cpu)
    }

    /// The execution context that acts in the processor's next turn; none where it is idle. What bursts
    /// stand on holds of the state.
    pub fn actor(&self, cpu: u32) -> Option<u32>
        ensures reached { IsReached self.now.state }
        ensures processors { length self.now.state.stirs.processors ≡ self.now.state.cpus }
        ensures actor { result ≡ option_map (λ c. c.actor) (choice self.now.state cpu) }
    {
        Some(self.parts.choice(cpu, &self.known)?.actor)
    }

    /// The frame that a page of a protection domain leads to, with what is allowed there; none where it
    /// leads nowhere. The state stays as it was.
    pub fn reach(&mut self, pd: u32, page: u32) -> Option<(u32, Rights)>
        ensures page { result ≡ option_map (λ p. (p.frame, p.rights)) (reach self.old.state.delegations.list pd page) }
        ensures kept { self.new ≡ self.old }
    {
        let page = self.parts.reach.page_of(pd, page)?;
        Some((page.frame, page.rights))
    }

    /// The 4,096 bytes of a RAM frame.
    pub fn frame(&self, frame: u32) -> &[u8]
        requires { frame < length self.now.state.memory.ram }
        ensures bytes { slice_get self.now.state.memory.ram frame ≡ Some result.now }
        ensures size { length result.now ≡ 4096 }
    {
        self.parts.reach.frame(frame)
    }

    /// Whether every processor is idle.
    pub fn quiet(&self) -> bool
        ensures { result ≡ is_quiet self.now.state }
    {
        self.parts.is_quiet()
    }

    /// How many turns were taken.
    pub fn turns(&self) -> u64
        ensures { result ≡ self.now.state.turns }
    {
        self.parts.turns
    }

    /// How many processors there are.
    pub fn cpus(&self) -> u32
        ensures { result ≡ self.now.state.cpus }
    {
        self.parts.cpus
    }

    /// The number of RAM frames. The first console is the frame of that number.
    pub fn ram(&self) -> u32
        ensures { result ≡ length self.now.state.memory.ram }
    {
        self.parts.reach.ram_frames()
    }

    /// How many consoles there are.
    pub fn consoles(&self) -> u32
        ensures { result ≡ self.now.state.consoles }
    {
        self.parts.reach.consoles()
    }

    /// The object of a number, as it was made; none where there is none.
    pub fn object(&self, id: u32) -> Option<&Object>
        ensures { option_copied result ≡ slice_get self.now.state.objects id }
    {
        self.parts.objects.get(id)
    }

    /// The objects, by number, of which there are fewer than 2^32.
    pub fn objects(&self) -> &[Object]
        ensures objects { result.now ≡ self.now.state.objects }
        ensures few { length result.now < 2 ^ 32 }
    {
        self.parts.objects.as_slice()
    }

    /// The execution context of a number; none where no execution context has it.
    pub fn ec(&self, ec: u32) -> Option<&EcState>
        ensures context { option_map (λ x. x.now) result ≡ context_at self.now.state ec }
        ensures id { IfSome result (λ x. x.now.id ≡ ec) }
    {
        self.parts.contexts.get(ec)
    }

    /// The view of a virtual CPU: its registers, what it does next, whether a recall is asked for, and the
    /// memory that it reaches, with the bytes.
    #[tactic(auto, using(crate::proofs::Views::virtual_there))]
    pub fn view(&self, alloc: Global, ec: u32) -> Result<Guest, AllocError>
        requires { IsOf self.now.state.objects is_vcpu ec }
        ensures { IfOk result (λ guest. guest ≡ view self.now.state ec) }
    {
        guest_of(&self.parts, alloc, ec)
    }

    /// What the processor's next turn is for a virtual CPU; none where the processor is idle, or where the
    /// turn is nothing for it. Memory can run out only where the turn gives its domain memory with bytes,
    /// which are copied. The state stays as it was.
    pub fn input(&mut self, alloc: Global, cpu: u32, ec: u32) -> Result<Option<Input>, AllocError>
        requires cpu { cpu < self.old.state.cpus }
        requires guest { IsOf self.old.state.objects is_vcpu ec }
        ensures input { IfOk result (λ i. i ≡ input self.old.state cpu ec) }
        ensures memory { OnErr result (BringsBytes (input self.old.state cpu ec)) }
        ensures kept { self.new ≡ self.old }
    {
        match next_to_act(&self.parts, cpu, &self.known) {
            Some(chosen) => self.parts.input_of(alloc, chosen.actor, ec),
            None => Ok(None),
        }
    }

    /// The stir counts of a virtual CPU and of a processor: how many inputs from outside came to the one,
    /// and how many turns the other took.
    pub fn stir(&self, ec: u32, cpu: u32) -> (u64, u64)
        requires guest { IsOf self.now.state.objects is_vcpu ec }
        requires cpu { cpu < self.now.state.cpus }
        ensures { result ≡ stir_of self.now.state ec cpu }
    {
        (self.parts.guests.count(ec), self.parts.times.clock(cpu))
    }

    /// How many turns are left until something is due on a processor, 0 where it is. None exactly where nothing is to come there.
    pub fn until_due(&self, cpu: u32) -> Option<u64>
        ensures { result ≡ until_due self.now.state.times cpu }
    {
        self.parts.times.until_due(cpu)
    }

    /// The clock of the processor `cpu`: how many turns it took. 0 where no processor has the number.
    pub fn clock(&self, cpu: u32) -> u64
        ensures { result ≡ clock self.now.state.times cpu }
    {
        self.parts.times.clock(cpu)
    }

    /// The deadline of the execution context `ec`; none where it waits to none.
    pub fn deadline(&self, ec: u32) -> Option<Deadline>
        ensures { result ≡ deadline_of self.now.state.times ec }
    {
        self.parts.times.deadline(ec)
    }

    /// The alarm `number`, in the order in which they were added, with its next moment and how often it has rung; none where no alarm has the number.
    pub fn alarm(&self, number: u32) -> Option<AlarmState>
        ensures { result ≡ slice_get self.now.state.times.alarms number }
    {
        self.parts.times.alarm(number)
    }

    /// The alarms, as they were added. Each rings at least once, its rings are apart, and its last moment is below 2^64.
    pub fn sources(&self) -> &[Alarm]
        ensures sources { result.now ≡ map (λ (a : AlarmState). a.alarm) self.now.state.times.alarms }
        ensures numbers { AllByRecursion IsAlarm result.now }
    {
        self.parts.times.sources()
    }

    /// Makes a source: a semaphore of counter 0, as the next object, that an alarm ups, with a capability of the root's to it at the
    /// selector of its number. No turn was taken yet.
    pub fn add_source(
        &mut self,
        cpu: u32,
        first: u64,
        period: u64,
        count: u64,
    ) -> Result<u32, AllocError>
        requires turns { self.old.state.turns ≡ 0 }
        requires objects { length self.old.state.objects < 2 ^ 20 }
        requires cpu { cpu < self.old.state.cpus }
        requires alarm { IsAlarm (record { cpu = cpu; sm = length self.old.state.objects; first = first; period = period; count = count }) }
        ensures number { IfOk result (λ n. n ≡ length self.old.state.objects) }
        ensures added { OnOk result (self.new.state ≡ with_source self.old.state (record { cpu = cpu; first = first; period = period; count = count })) }
        ensures room { self.new.room ≡ self.old.room }
        ensures memory { OnErr result (self.new ≡ self.old) }
    {
        law_turns::turns_keep_what_they_find();
        law_leases::laws::what_bursts_stand_on_is_kept();
        let number = self.parts.add_source(cpu, first, period, count)?;
        self.known = [None; 8];
        Ok(number)
    }

    /// The turns that a scheduling context paid for; none where no scheduling context has the number.
    pub fn ticks(&self, sc: u32) -> Option<u64>
        ensures { result ≡ ticks_of self.now.state sc }
    {
        self.parts.ticks(sc)
    }

    /// The turns that are left of a scheduling context's quantum; none where no scheduling context
    /// has the number.
    pub fn left(&self, sc: u32) -> Option<u32>
        ensures { result ≡ left_of self.now.state sc }
    {
        self.parts.left(sc)
    }

    /// The counter of a semaphore and how many execution contexts wait at it; none where no semaphore
    /// has the number.
    pub fn semaphore(&self, sm: u32) -> Option<(u32, u32)>
        ensures { result ≡ option_map (λ s. (s.count, length s.waiting)) (semaphore_at self.now.state sm) }
    {
        self.parts.semaphore(sm)
    }

    /// What was stored to the consoles, in order.
    pub fn log(&self) -> &[LogByte]
        ensures { result.now ≡ self.now.state.memory.log }
    {
        self.parts.reach.log()
    }

    /// The derivation of least id at or after a given one; none where there is none. Delegations are a
    /// sound forest, and ids are below 2^32 - 1.
    pub fn derivation_from(&self, id: u32) -> Option<Derivation>
        ensures derivation { result ≡ derivation_from self.now.state id }
        ensures forest { IsForest self.now.state.delegations }
        ensures below { IfSome result (λ d. d.id < 2 ^ 32 - 1) }
    {
        self.parts.reach.from_id(id)
    }
}

/// Drops a value out of line, part by part.
fn destroy<T: Drop>(_value: T) {}

/// Drops `kernel`. A kernel has many parts, which are proved to drop here, and not once more in each crate above.
pub fn let_go(kernel: Kernel) {
    destroy(kernel);
}
