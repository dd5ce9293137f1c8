// Laws of the hypercall that makes a scheduling context.
ghost use Rattle.std.specs.Prelude.{◌≡◌, ℕ};
ghost use Rattle.rv_model.specs.Registers.{Registers};
ghost use Rattle.nova_calls.specs.declared.numbers.TheConstants.{CREATE_SC};
ghost use Rattle.nova_model.specs.Deeds.{deed};
ghost use Rattle.nova_model.specs.Forest.{IsForest};
ghost use Rattle.nova_model.specs.Hypercalls.{hypercall};
ghost use Rattle.nova_model.specs.State.{KernelState, context, pd_of};
ghost use Rattle.nova_model.specs.declared.deed.Deed.TheVariants.{Makes};
ghost use Rattle.nova_model.specs.declared.new_object.NewObject.TheVariants.{Sc};
ghost use Rattle.law_turns.specs.Asked.{AsksSchedule, IsCalling};

/// A scheduling context that is made is as its maker's registers ask for, and the maker may have it made. Where
/// delegations are a sound forest, a hypercall that asks so is not refused: it makes that scheduling context,
/// and so does the turn of a thread whose next instruction is this hypercall.
pub fn a_schedule_is_made_as_asked()
    ensures asked { (k : KernelState) (caller call target ec cpu priority quantum : ℕ)
        → deed k caller ≡ Makes call target (Sc ec cpu priority quantum)
        → (call ≡ CREATE_SC) × AsksSchedule k (pd_of k caller) (context k caller).regs target ec cpu priority quantum }
    ensures made { (k : KernelState) (caller domain : ℕ) (r : Registers) (target ec cpu priority quantum : ℕ)
        → IsForest k.delegations
        → AsksSchedule k domain r target ec cpu priority quantum
        → hypercall k caller domain r ≡ Makes CREATE_SC target (Sc ec cpu priority quantum) }
    ensures turns { (k : KernelState) (caller target ec cpu priority quantum : ℕ)
        → IsForest k.delegations
        → IsCalling k caller
        → AsksSchedule k (pd_of k caller) (context k caller).regs target ec cpu priority quantum
        → deed k caller ≡ Makes CREATE_SC target (Sc ec cpu priority quantum) }
{}
