ghost use Rattle.std.specs.Prelude.{◌≡◌, ◌≢◌, ℕ, ◌+◌, ◌%◌, ◌^◌, ◌<◌, ◌≤◌, List, true, false, length, Option, Some, None, IsSome};
ghost use Rattle.rv_model.specs.Registers.{Registers, reg};
ghost use Rattle.rv_model.specs.Step.{Store, Went};
ghost use Rattle.nova_model.specs.Deeds.{answered, answered_registers, done, instruction, is_making};
ghost use Rattle.nova_model.specs.Portals.{identifier};
ghost use Rattle.nova_model.specs.State.{KernelState, context, context_at, deadline_of};
ghost use Rattle.nova_model.specs.declared.context.Mark.{Mark};
ghost use Rattle.nova_model.specs.declared.context.State.TheVariants.{Parked, Ready};
ghost use Rattle.nova_model.specs.declared.deed.Deed.{Deed};
ghost use Rattle.nova_model.specs.declared.deed.Deed.TheVariants.{Blocks, Finishes, Names, Recalls, Steps};
ghost use Rattle.nova_model.specs.declared.times.Deadline.{Deadline};
ghost use Rattle.nova_model.specs.declared.transfer.ItemEnd.{ItemEnd};
ghost use Rattle.nova_model.specs.declared.transfer.ItemWords.{ItemWords};
ghost use Rattle.nova_model.specs.declared.transfer.Sequel.TheVariants as sequel;
ghost use Rattle.nova_range.specs.Statuses.{status_code};
ghost use Rattle.nova_range.specs.declared.status.Status.{Status};
ghost use Rattle.nova_range.specs.declared.status.Status.TheVariants.{Success};
ghost use Rattle.law_rows.specs.Size.{size};

/// The state after a deed: a portal that is named has the number as its identifier; a context that is recalled has its flag; a context that waits to
/// a deadline has it; an instruction leaves its registers, whichever context executes it; a context that gave a first range is answered SUCCESS; a
/// handler that took the items of its call goes on with its registers; and a handler whose reply has ended is parked.
pub fn deeds_leave_this()
    ensures named { (k : KernelState) (ec pt number : ℕ) → pt < length k.identifiers → identifier (done k ec (Names pt number)) pt ≡ number }
    ensures recalled { (k : KernelState) (ec whose : ℕ) → IsSome (context_at k whose) → (context (done k ec (Recalls whose)) whose).recall ≡ true }
    ensures awaited { (k : KernelState) (ec sm : ℕ) (d : Deadline) → ec < length k.times.deadlines → deadline_of (done k ec (Blocks sm (Some d))).times ec ≡ Some d }
    ensures stepped { (k : KernelState) (ec : ℕ) (regs : Registers) (store : Option Store) → IsSome (context_at k ec) → instruction k ec ≡ Went regs store →
        (context (done k ec Steps) ec).regs ≡ regs }
    ensures opened { (k : KernelState) (ec item : ℕ) (end : ItemEnd) → IsSome (context_at k ec) →
        context (done k ec (Finishes item end None sequel.Opened)) ec ≡ answered (context k ec) Success None }
    ensures taken { (k : KernelState) (ec item : ℕ) (end : ItemEnd) (words : Option ItemWords) → IsSome (context_at k ec) →
        context (done k ec (Finishes item end words sequel.Taken)) ec ≡ record (context k ec) { state = Ready } }
    ensures parked { (k : KernelState) (ec item caller : ℕ) (mark : Mark) (end : ItemEnd) (words : Option ItemWords) → IsSome (context_at k ec) → caller ≢ ec →
        context (done k ec (Finishes item end words (sequel.Replied caller mark))) ec ≡ record (context k ec) { state = Parked; caller = None } }
{}

/// A hypercall's answer: the status in x10 as its number, what is told in x11, pc on the next instruction, and all other registers as they
/// were.
pub fn what_is_told_is_in_its_registers()
    ensures status { (r : Registers) (status : Status) (value : Option ℕ) → length r.x ≡ 32 → reg (answered_registers r status value) 10 ≡ status_code status }
    ensures value { (r : Registers) (status : Status) (value : ℕ) → length r.x ≡ 32 → reg (answered_registers r status (Some value)) 11 ≡ value }
    ensures none { (r : Registers) (status : Status) → reg (answered_registers r status None) 11 ≡ reg r 11 }
    ensures others { (r : Registers) (status : Status) (value : Option ℕ) (n : ℕ) → n ≢ 10 → n ≢ 11 → reg (answered_registers r status value) n ≡ reg r n }
    ensures next { (r : Registers) (status : Status) (value : Option ℕ) → (answered_registers r status value).pc ≡ (r.pc + 4) % 2 ^ 32 }
{}

/// Memory may be wanted exactly of the deeds after which there are more objects or derivations than before.
pub fn deeds_that_make()
    ensures more { (k : KernelState) (ec : ℕ) (d : Deed) → is_making d ≡ true → size k < size (done k ec d) }
    ensures no_more { (k : KernelState) (ec : ℕ) (d : Deed) → is_making d ≡ false → size (done k ec d) ≤ size k }
{}
