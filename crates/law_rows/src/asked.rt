ghost use Rattle.std.specs.Prelude.{◌≡◌, ℕ, ◌+◌, ◌<◌, ◌^◌, Bool, true, false, List, [], ◌∷◌, Option, Some, None, Ok, Err};
ghost use Rattle.rv_model.specs.Registers.{Registers, reg};
ghost use Rattle.nova_calls.specs.Hypercalls.{call_of};
ghost use Rattle.nova_calls.specs.declared.call.Call.TheVariants as asks;
ghost use Rattle.nova_calls.specs.declared.call.Call.TheVariants.{Revoke, Lookup, EcCtrl, ScCtrl, PtCtrl, SmCtrl};
ghost use Rattle.nova_calls.specs.declared.call.SmAction.TheVariants.{Down, DownWithin, Up};
ghost use Rattle.nova_calls.specs.declared.numbers.TheConstants.{LOOKUP, SC_CTRL};
ghost use Rattle.nova_model.specs.Calls.{admitted};
ghost use Rattle.nova_model.specs.Capabilities.{call_right, control_right, down_right, is_ec, is_pt, is_sc, is_sm, named, up_right};
ghost use Rattle.nova_model.specs.Hypercalls.{hypercall, deadline_after, looked_up, reply, call, ticks_in};
ghost use Rattle.nova_model.specs.Portals.{handler_of, identifier, ip_of};
ghost use Rattle.nova_model.specs.Semaphores.{semaphore};
ghost use Rattle.nova_model.specs.State.{KernelState, budget_at, context, is_local_thread, message};
ghost use Rattle.nova_model.specs.declared.admit.Admit.TheVariants.{Help, Refused, Send};
ghost use Rattle.nova_model.specs.declared.context.Mark.{Mark};
ghost use Rattle.nova_model.specs.declared.deed.Deed.TheVariants.{Blocks, Calls, Downs, Helps, Names, Recalls, Refuses, Replies, Revokes, Tells, Ups};
ghost use Rattle.nova_range.specs.declared.range.Range.{Range};
ghost use Rattle.nova_range.specs.declared.status.Status.{Status};
ghost use Rattle.nova_range.specs.declared.status.Status.TheVariants.{BadPar};
ghost use Rattle.nova_utcb.specs.Messages.{has_counts, has_items};

/// What registers ask for is done: a revoke and a lookup always; a control where the selector names the object with the right, as the recall, the
/// ticks, the identifier, the up, which wakes the first that waits, and the down, which waits at counter 0, to a deadline where one is asked for.
/// What they ask for that doesn't read is refused with its status.
pub fn what_is_asked_for_is_done()
    ensures revoke { (k : KernelState) (ec domain : ℕ) (r : Registers) (range : Range) (own : Bool) → call_of r ≡ Ok (Revoke range own) → hypercall k ec domain r ≡ Revokes range own }
    ensures lookup { (k : KernelState) (ec domain : ℕ) (r : Registers) (range : Range) → call_of r ≡ Ok (Lookup range) →
        hypercall k ec domain r ≡ Tells LOOKUP (looked_up k domain range) }
    ensures recall { (k : KernelState) (ec domain selector n : ℕ) (r : Registers) → call_of r ≡ Ok (EcCtrl selector) → named k domain is_ec control_right selector ≡ Ok n →
        hypercall k ec domain r ≡ Recalls n }
    ensures ticks { (k : KernelState) (ec domain selector n : ℕ) (r : Registers) → call_of r ≡ Ok (ScCtrl selector) → named k domain is_sc control_right selector ≡ Ok n →
        hypercall k ec domain r ≡ Tells SC_CTRL (ticks_in (budget_at k n)) }
    ensures identifier { (k : KernelState) (ec domain selector n number : ℕ) (r : Registers) → call_of r ≡ Ok (PtCtrl selector number) →
        named k domain is_pt control_right selector ≡ Ok n → hypercall k ec domain r ≡ Names n number }
    ensures up { (k : KernelState) (ec domain selector sm : ℕ) (r : Registers) → call_of r ≡ Ok (SmCtrl selector Up) → named k domain is_sm up_right selector ≡ Ok sm →
        (semaphore k.semaphores sm).waiting ≡ [] → (semaphore k.semaphores sm).count + 1 < 2 ^ 32 → hypercall k ec domain r ≡ Ups sm None }
    ensures wakes { (k : KernelState) (ec domain selector sm first : ℕ) (rest : List ℕ) (r : Registers) → call_of r ≡ Ok (SmCtrl selector Up) →
        named k domain is_sm up_right selector ≡ Ok sm → (semaphore k.semaphores sm).waiting ≡ first ∷ rest → hypercall k ec domain r ≡ Ups sm (Some first) }
    ensures down { (k : KernelState) (ec domain selector sm : ℕ) (r : Registers) → call_of r ≡ Ok (SmCtrl selector Down) → named k domain is_sm down_right selector ≡ Ok sm →
        0 < (semaphore k.semaphores sm).count → hypercall k ec domain r ≡ Downs sm }
    ensures blocks { (k : KernelState) (ec domain selector sm : ℕ) (r : Registers) → call_of r ≡ Ok (SmCtrl selector Down) → named k domain is_sm down_right selector ≡ Ok sm →
        (semaphore k.semaphores sm).count ≡ 0 → hypercall k ec domain r ≡ Blocks sm None }
    ensures within { (k : KernelState) (ec domain selector sm ticks : ℕ) (r : Registers) → call_of r ≡ Ok (SmCtrl selector (DownWithin ticks)) →
        named k domain is_sm down_right selector ≡ Ok sm → 0 < (semaphore k.semaphores sm).count → hypercall k ec domain r ≡ Downs sm }
    ensures until { (k : KernelState) (ec domain selector sm ticks : ℕ) (r : Registers) → call_of r ≡ Ok (SmCtrl selector (DownWithin ticks)) →
        named k domain is_sm down_right selector ≡ Ok sm → (semaphore k.semaphores sm).count ≡ 0 → 0 < ticks →
        hypercall k ec domain r ≡ Blocks sm (Some (deadline_after k ec sm ticks)) }
    ensures unread { (k : KernelState) (ec domain : ℕ) (r : Registers) (status : Status) → call_of r ≡ Err status → hypercall k ec domain r ≡ Refuses (reg r 17) status }
{}

/// A call goes by the flag that its registers have. It is sent where its handler takes it, at the portal's instruction pointer, with its identifier,
/// and with items where its message counts some; where the handler is busy it helps. A call and a reply whose message counts more words than there
/// are, and a reply of a context that is no local thread or has no caller, are BAD_PAR.
pub fn calls_and_replies_are_as_asked()
    ensures sent { (k : KernelState) (ec domain selector pt : ℕ) (r : Registers) (flag : Bool) → call_of r ≡ Ok (asks.Call selector flag) → has_counts (message k ec) ≡ true →
        named k domain is_pt call_right selector ≡ Ok pt → admitted k.contexts ec (handler_of k pt) flag ≡ Send →
        hypercall k ec domain r ≡ Calls (handler_of k pt) (ip_of k pt) (identifier k pt) (has_items (message k ec)) }
    ensures helps { (k : KernelState) (ec domain selector pt : ℕ) (r : Registers) (flag : Bool) → call_of r ≡ Ok (asks.Call selector flag) → has_counts (message k ec) ≡ true →
        named k domain is_pt call_right selector ≡ Ok pt → admitted k.contexts ec (handler_of k pt) flag ≡ Help → hypercall k ec domain r ≡ Helps (handler_of k pt) }
    ensures refused { (k : KernelState) (ec domain selector pt : ℕ) (r : Registers) (flag : Bool) (status : Status) → call_of r ≡ Ok (asks.Call selector flag) →
        has_counts (message k ec) ≡ true → named k domain is_pt call_right selector ≡ Ok pt → admitted k.contexts ec (handler_of k pt) flag ≡ Refused status →
        hypercall k ec domain r ≡ Refuses (reg r 17) status }
    ensures replies { (k : KernelState) (ec domain caller : ℕ) (mark : Mark) (r : Registers) → call_of r ≡ Ok asks.Reply → is_local_thread k ec ≡ true →
        has_counts (message k ec) ≡ true → (context k ec).caller ≡ Some (caller, mark) → hypercall k ec domain r ≡ Replies caller mark (has_items (message k ec)) }
    ensures call_counts { (k : KernelState) (ec domain selector : ℕ) (flag : Bool) → has_counts (message k ec) ≡ false → call k ec domain selector flag ≡ Err BadPar }
    ensures reply_counts { (k : KernelState) (ec : ℕ) → has_counts (message k ec) ≡ false → reply k ec ≡ Err BadPar }
    ensures reply_kind { (k : KernelState) (ec : ℕ) → is_local_thread k ec ≡ false → reply k ec ≡ Err BadPar }
    ensures reply_alone { (k : KernelState) (ec : ℕ) → (context k ec).caller ≡ None → reply k ec ≡ Err BadPar }
{}
