ghost use Rattle.std.specs.Prelude.{◌≡◌, ◌≢◌, ◌↔◌, ℕ, Bool, true, false, Option, Some, IsSome};
ghost use Rattle.nova_utcb.specs.Files.{IsFile};
ghost use Rattle.nova_model.specs.State.{Contexts, KernelState, ec_in, ec_of};
ghost use Rattle.nova_model.specs.Calls.{admitted};
ghost use Rattle.nova_model.specs.Deeds.{parked, performed};
ghost use Rattle.nova_model.specs.declared.admit.Admit.TheVariants.{Refused, Help, Send};
ghost use Rattle.nova_model.specs.declared.context.EcState.{EcState};
ghost use Rattle.nova_model.specs.declared.context.Mark.TheVariants.{Call};
ghost use Rattle.nova_model.specs.declared.context.State.TheVariants.{Calling, Helping};
ghost use Rattle.nova_model.specs.declared.deed.Deed.TheVariants.{Calls, Helps, Replies, Finishes, Aborts};
ghost use Rattle.nova_model.specs.declared.transfer.ItemEnd.{ItemEnd};
ghost use Rattle.nova_model.specs.declared.transfer.ItemWords.{ItemWords};
ghost use Rattle.nova_model.specs.declared.transfer.Sequel.TheVariants.{Replied};
ghost use Rattle.nova_range.specs.declared.status.Status.TheVariants.{Timeout, Aborted, BadCpu};
ghost use Rattle.nova_ec.specs.Handlers.{AreTogether, IsLost, MayReply, IsWaiting};
ghost use Rattle.nova_ipc.specs.CallEffects.{sent_among, helped_among, completed_among, aborted_among};
ghost use Rattle.nova_ipc.specs.Serving.{Serves, Returns};

/// Each answer to a call comes exactly where its condition is the first that holds. These are `BadCpu` where
/// both aren't there on one processor, `Aborted` where no reply can come, `Send` where the handler waits for a
/// call, `Timeout` with the flag, and `Help` without it.
pub fn answers_come_in_order()
    ensures bad_cpu { (cs : Contexts) (caller handler : ℕ) (flag : Bool) →
        (admitted cs caller handler flag ≡ Refused BadCpu) ↔ (AreTogether cs caller handler → ⊥) }
    ensures aborted { (cs : Contexts) (caller handler : ℕ) (flag : Bool) →
        (admitted cs caller handler flag ≡ Refused Aborted) ↔ (AreTogether cs caller handler × IsLost cs caller handler) }
    ensures send { (cs : Contexts) (caller handler : ℕ) (flag : Bool) →
        (admitted cs caller handler flag ≡ Send) ↔ (MayReply cs caller handler × IsWaiting cs handler) }
    ensures timeout { (cs : Contexts) (caller handler : ℕ) (flag : Bool) →
        (admitted cs caller handler flag ≡ Refused Timeout)
        ↔ (MayReply cs caller handler × (IsWaiting cs handler → ⊥) × (flag ≡ true)) }
    ensures help { (cs : Contexts) (caller handler : ℕ) (flag : Bool) →
        (admitted cs caller handler flag ≡ Help)
        ↔ (MayReply cs caller handler × (IsWaiting cs handler → ⊥) × (flag ≡ false)) }
{}

/// The flag says not to wait: a call that is sent with one flag is sent with the other, and a call that waits has none.
pub fn the_flag_says_not_to_wait()
    ensures sent { (cs : Contexts) (caller handler : ℕ) (flag other : Bool) →
        admitted cs caller handler flag ≡ Send → admitted cs caller handler other ≡ Send }
    ensures helped { (cs : Contexts) (caller handler : ℕ) (flag : Bool) →
        admitted cs caller handler flag ≡ Help → admitted cs caller handler false ≡ Help }
{}

/// A call that is sent changes the caller's state, and of the handler the state, the caller, pc and
/// x10. Nothing else changes, of both and of all others.
pub fn sent_calls_change_both()
    ensures caller { (cs : Contexts) (caller handler ip identifier : ℕ) (items : Bool) →
        admitted cs caller handler false ≡ Send →
        ec_in (sent_among cs caller handler ip identifier items) caller ≡ Some (record (ec_of cs caller) { state = Calling handler }) }
    ensures handler { (cs : Contexts) (caller handler ip identifier : ℕ) (items : Bool) →
        admitted cs caller handler false ≡ Send → IsFile (ec_of cs handler).regs →
        (y : EcState) × (ec_in (sent_among cs caller handler ip identifier items) handler ≡ Some y)
        × Serves (ec_of cs handler) y caller ip identifier items }
    ensures others { (cs : Contexts) (caller handler ip identifier e : ℕ) (items : Bool) →
        e ≢ caller → e ≢ handler → ec_in (sent_among cs caller handler ip identifier items) e ≡ ec_in cs e }
{}

/// A caller that helps has another state, and nothing else changes.
pub fn helping_changes_a_state()
    ensures caller { (cs : Contexts) (caller handler : ℕ) → IsSome (ec_in cs caller) →
        ec_in (helped_among cs caller handler) caller ≡ Some (record (ec_of cs caller) { state = Helping handler }) }
    ensures others { (cs : Contexts) (caller handler e : ℕ) → e ≢ caller →
        ec_in (helped_among cs caller handler) e ≡ ec_in cs e }
{}

/// A reply that is complete parks the handler, without a caller, and the caller returns with 0 in x10. No other context changes.
pub fn replies_answer_the_caller()
    ensures handler { (cs : Contexts) (handler caller : ℕ) → IsSome (ec_in cs handler) → handler ≢ caller →
        ec_in (completed_among cs handler caller) handler ≡ Some (parked (ec_of cs handler)) }
    ensures caller { (cs : Contexts) (handler caller : ℕ) → IsSome (ec_in cs caller) → handler ≢ caller → IsFile (ec_of cs caller).regs →
        (y : EcState) × (ec_in (completed_among cs handler caller) caller ≡ Some y) × Returns (ec_of cs caller) y 0 }
    ensures others { (cs : Contexts) (handler caller e : ℕ) → e ≢ caller → e ≢ handler →
        ec_in (completed_among cs handler caller) e ≡ ec_in cs e }
{}

/// A caller whose handler is dead returns with 2 in x10. No other context changes, and the handler keeps its caller.
pub fn aborted_calls_answer_the_caller()
    ensures caller { (cs : Contexts) (caller : ℕ) → IsSome (ec_in cs caller) → IsFile (ec_of cs caller).regs →
        (y : EcState) × (ec_in (aborted_among cs caller) caller ≡ Some y) × Returns (ec_of cs caller) y 2 }
    ensures others { (cs : Contexts) (caller e : ℕ) → e ≢ caller → ec_in (aborted_among cs caller) e ≡ ec_in cs e }
{}

/// The deeds of a turn change the table of execution contexts as these calls do. The deeds are a call, a call
/// that helps, a reply to a call without items or after its last, and a call whose handler is dead.
pub fn deeds_change_the_table_so()
    ensures calls { (k : KernelState) (ec handler ip identifier : ℕ) (items : Bool) →
        (performed k ec (Calls handler ip identifier items)).contexts ≡ sent_among k.contexts ec handler ip identifier items }
    ensures helps { (k : KernelState) (ec handler : ℕ) →
        (performed k ec (Helps handler)).contexts ≡ helped_among k.contexts ec handler }
    ensures replies { (k : KernelState) (ec caller : ℕ) →
        (performed k ec (Replies caller Call false)).contexts ≡ completed_among k.contexts ec caller }
    ensures finishes { (k : KernelState) (ec item caller : ℕ) (end : ItemEnd) (words : Option ItemWords) →
        (performed k ec (Finishes item end words (Replied caller Call))).contexts ≡ completed_among k.contexts ec caller }
    ensures aborts { (k : KernelState) (ec handler : ℕ) →
        (performed k ec (Aborts handler Call)).contexts ≡ aborted_among k.contexts ec }
{}
