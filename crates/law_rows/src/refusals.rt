ghost use Rattle.std.specs.Prelude.{◌≡◌, ℕ, ◌≤◌, ◌<◌, Bool, true, false, Option, Some, None, Ok, Err};
ghost use Rattle.nova_calls.specs.declared.call.Call.TheVariants.{Call, EcCtrl, PtCtrl, ScCtrl, SmCtrl};
ghost use Rattle.nova_calls.specs.declared.call.SmAction.TheVariants.{Down, DownWithin, Up};
ghost use Rattle.nova_model.specs.Capabilities.{bind_portal_right, bind_scheduling_right, call_right, control_right, create_right, down_right, is_ec, is_held, is_local, is_pd, is_pt, is_sc, is_schedulable, is_sm, named, up_right};
ghost use Rattle.nova_model.specs.Deeds.{deed};
ghost use Rattle.nova_model.specs.Hypercalls.{asked, create_ec, create_pd, create_pt, create_sc, create_sm, is_scheduled, maker, row};
ghost use Rattle.nova_model.specs.Running.{is_revoked};
ghost use Rattle.nova_model.specs.State.{KernelState, context, message, pd_of};
ghost use Rattle.nova_model.specs.declared.deed.Deed.TheVariants.{Refuses};
ghost use Rattle.rv_model.specs.Registers.{reg};
ghost use Rattle.nova_objects.specs.declared.object.EcKind.{EcKind};
ghost use Rattle.nova_objects.specs.declared.object.Object.{Object};
ghost use Rattle.nova_range.specs.declared.range.Range.{Range};
ghost use Rattle.nova_utcb.specs.Messages.{has_counts};
ghost use Rattle.nova_range.specs.declared.rights.Rights.{Rights};
ghost use Rattle.nova_range.specs.declared.status.Status.{Status};
ghost use Rattle.nova_range.specs.declared.status.Status.TheVariants.{BadCap, BadCpu, Busy};

/// A maker of an object is answered the first refusal that holds. These are BAD_CAP where the selector of the domain names none with create; BAD_CAP
/// where the target is held; then of an execution context BAD_CPU where there is no such processor, of a scheduling context BAD_CAP where its
/// execution context isn't named with the right, or has one, of a portal BAD_CAP where its handler isn't; and last BUSY where the target is being
/// revoked.
pub fn makers_are_refused_in_this_order()
    ensures names { (k : KernelState) (domain selector right : ℕ) (is : Object → Bool) (status : Status) → named k domain is right selector ≡ Err status → status ≡ BadCap }
    ensures domain { (k : KernelState) (domain target pd : ℕ) (status : Status) → named k domain is_pd create_right pd ≡ Err status → maker k domain target pd ≡ Err BadCap }
    ensures held { (k : KernelState) (domain target pd owner : ℕ) → named k domain is_pd create_right pd ≡ Ok owner → is_held k domain target ≡ true →
        maker k domain target pd ≡ Err BadCap }
    ensures free { (k : KernelState) (domain target pd owner : ℕ) → named k domain is_pd create_right pd ≡ Ok owner → is_held k domain target ≡ false →
        maker k domain target pd ≡ Ok owner }
    ensures first { (k : KernelState) (domain target pd other cpu quantum priority mtd ip count sp event : ℕ) (kind : EcKind) (range : Option (Range × Rights)) (status : Status) →
        maker k domain target pd ≡ Err status → (create_pd k domain target pd range ≡ Err status) × (create_ec k domain target pd cpu kind sp event ≡ Err status)
        × (create_sc k domain target pd other quantum priority ≡ Err status) × (create_pt k domain target pd other mtd ip ≡ Err status)
        × (create_sm k domain target pd count ≡ Err status) }
    ensures cpu { (k : KernelState) (domain target pd owner cpu sp event : ℕ) (kind : EcKind) → maker k domain target pd ≡ Ok owner → k.cpus ≤ cpu →
        create_ec k domain target pd cpu kind sp event ≡ Err BadCpu }
    ensures unbound { (k : KernelState) (domain target pd owner other quantum priority : ℕ) (status : Status) → maker k domain target pd ≡ Ok owner →
        named k domain is_schedulable bind_scheduling_right other ≡ Err status → create_sc k domain target pd other quantum priority ≡ Err BadCap }
    ensures scheduled { (k : KernelState) (domain target pd owner other ec quantum priority : ℕ) → maker k domain target pd ≡ Ok owner →
        named k domain is_schedulable bind_scheduling_right other ≡ Ok ec → is_scheduled k ec ≡ true → create_sc k domain target pd other quantum priority ≡ Err BadCap }
    ensures handler { (k : KernelState) (domain target pd owner other mtd ip : ℕ) (status : Status) → maker k domain target pd ≡ Ok owner →
        named k domain is_local bind_portal_right other ≡ Err status → create_pt k domain target pd other mtd ip ≡ Err BadCap }
    ensures busy { (k : KernelState) (domain target pd owner cpu count sp event : ℕ) (kind : EcKind) (range : Option (Range × Rights)) → maker k domain target pd ≡ Ok owner →
        is_revoked k domain target ≡ true → cpu < k.cpus → (create_pd k domain target pd range ≡ Err Busy) × (create_sm k domain target pd count ≡ Err Busy)
        × (create_ec k domain target pd cpu kind sp event ≡ Err Busy) }
    ensures busy_too { (k : KernelState) (domain target pd owner other ec handler quantum priority mtd ip : ℕ) → maker k domain target pd ≡ Ok owner →
        is_revoked k domain target ≡ true → named k domain is_schedulable bind_scheduling_right other ≡ Ok ec → is_scheduled k ec ≡ false →
        named k domain is_local bind_portal_right handler ≡ Ok ec →
        (create_sc k domain target pd other quantum priority ≡ Err Busy) × (create_pt k domain target pd handler mtd ip ≡ Err Busy) }
{}

/// A deed is a refusal only where the row of the call in x17 refuses, with that status: no instruction, exit, item or revoke is refused.
pub fn refusals_are_of_rows()
    ensures { (k : KernelState) (ec call : ℕ) (status : Status) → deed k ec ≡ Refuses call status →
        (call ≡ reg (context k ec).regs 17) × (asked k ec (pd_of k ec) (context k ec).regs ≡ Err status) }
{}

/// A call or a control whose selector names no such object with the right to it is BAD_CAP. A call is so where its message counts no more words than
/// there are.
pub fn without_a_capability_is_bad_cap()
    ensures call { (k : KernelState) (ec domain selector : ℕ) (flag : Bool) (status : Status) → has_counts (message k ec) ≡ true →
        named k domain is_pt call_right selector ≡ Err status → row k ec domain (Call selector flag) ≡ Err BadCap }
    ensures recall { (k : KernelState) (ec domain selector : ℕ) (status : Status) → named k domain is_ec control_right selector ≡ Err status →
        row k ec domain (EcCtrl selector) ≡ Err BadCap }
    ensures ticks { (k : KernelState) (ec domain selector : ℕ) (status : Status) → named k domain is_sc control_right selector ≡ Err status →
        row k ec domain (ScCtrl selector) ≡ Err BadCap }
    ensures identifier { (k : KernelState) (ec domain selector number : ℕ) (status : Status) → named k domain is_pt control_right selector ≡ Err status →
        row k ec domain (PtCtrl selector number) ≡ Err BadCap }
    ensures up { (k : KernelState) (ec domain selector : ℕ) (status : Status) → named k domain is_sm up_right selector ≡ Err status →
        row k ec domain (SmCtrl selector Up) ≡ Err BadCap }
    ensures down { (k : KernelState) (ec domain selector ticks : ℕ) (status : Status) → named k domain is_sm down_right selector ≡ Err status →
        (row k ec domain (SmCtrl selector Down) ≡ Err BadCap) × (row k ec domain (SmCtrl selector (DownWithin ticks)) ≡ Err BadCap) }
{}
