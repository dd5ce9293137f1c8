// Laws of what is made.
ghost use Rattle.std.specs.Prelude.{◌≡◌, ℕ, length};
ghost use Rattle.rv_model.specs.Registers.{Registers};
ghost use Rattle.nova_model.specs.Deeds.{deed};
ghost use Rattle.nova_model.specs.Forest.{IsForest};
ghost use Rattle.nova_model.specs.Hypercalls.{hypercall};
ghost use Rattle.nova_model.specs.Runs.{after};
ghost use Rattle.nova_model.specs.State.{KernelState, context, pd_of};
ghost use Rattle.nova_model.specs.declared.deed.Deed.TheVariants.{Makes, Opens};
ghost use Rattle.nova_model.specs.declared.new_object.NewObject.{NewObject};
ghost use Rattle.law_turns.specs.Asked.{IsCalling};
ghost use Rattle.law_origins.specs.Reachable.{IsReachable};
ghost use Rattle.law_origins.specs.Giving.{Acts};
ghost use Rattle.law_integrity.specs.Births.{Asks, AsksOpening, IsAs, call_for};

/// An object that is made is as its maker's registers ask for, and the maker may have it made. Where
/// delegations are a sound forest, a hypercall that asks so is not refused: it makes that object, and so does
/// the turn of a thread whose next instruction is this hypercall. So it is of a protection domain that is made
/// and given a first range. And in each reachable state the object of the next number is then what was asked
/// for: an execution context is of the named domain, processor, kind and event base, with the given x2, pc 0
/// and all other registers 0, without a recall, and parked or before its startup exit; a portal has the named
/// handler, descriptor and beginning, and identifier 0; a semaphore has the given counter, and none waits.
pub fn objects_are_made_as_asked()
    ensures asked { (k : KernelState) (caller call target : ℕ) (made : NewObject)
        → deed k caller ≡ Makes call target made
        → (call ≡ call_for made) × Asks k (pd_of k caller) (context k caller).regs target made }
    ensures made { (k : KernelState) (caller domain : ℕ) (r : Registers) (target : ℕ) (made : NewObject)
        → IsForest k.delegations
        → Asks k domain r target made
        → hypercall k caller domain r ≡ Makes (call_for made) target made }
    ensures turns { (k : KernelState) (caller target : ℕ) (made : NewObject)
        → IsForest k.delegations
        → IsCalling k caller
        → Asks k (pd_of k caller) (context k caller).regs target made
        → deed k caller ≡ Makes (call_for made) target made }
    ensures opens { (k : KernelState) (caller target number : ℕ)
        → deed k caller ≡ Opens target number
        → AsksOpening k (pd_of k caller) (context k caller).regs target }
    ensures opened { (k : KernelState) (caller domain : ℕ) (r : Registers) (target : ℕ)
        → IsForest k.delegations
        → AsksOpening k domain r target
        → hypercall k caller domain r ≡ Opens target (length k.objects) }
    ensures born { (k : KernelState) (cpu ec call target : ℕ) (made : NewObject)
        → IsReachable k
        → Acts k cpu ec
        → deed k ec ≡ Makes call target made
        → IsAs (after k cpu) (length k.objects) made }
{}
