ghost use Rattle.std.specs.Prelude.{◌≡◌, ℕ, ◌<◌, ◌≤◌, ◌^◌, Bool, true, false, Ok, Err, Some};
ghost use Rattle.rv_model.specs.Registers.{Registers, reg};
ghost use Rattle.nova_calls.specs.Hypercalls.{call_of};
ghost use Rattle.nova_calls.specs.declared.call.Call.TheVariants.{Call, EcCtrl, Lookup, PtCtrl, Reply, Revoke, ScCtrl, SmCtrl};
ghost use Rattle.nova_calls.specs.declared.call.SmAction.{SmAction};
ghost use Rattle.nova_calls.specs.declared.call.SmAction.TheVariants.{Down, DownWithin, Up};
ghost use Rattle.nova_range.specs.RangeWords.{meaning_of};
ghost use Rattle.nova_range.specs.declared.range.Range.{Range};
ghost use Rattle.nova_range.specs.declared.rights.Rights.{Rights};
ghost use Rattle.nova_range.specs.declared.status.Status.{Status};
ghost use Rattle.nova_range.specs.declared.status.Status.TheVariants.{BadHyp, BadPar};

/// What registers ask for, by x17 and from x10 on. A call: x10 is the portal, and x11 the flag: 1 doesn't wait. A revoke: x10 is the range's word,
/// and with 1 in x11 own derivations go too. A lookup: x10 is the range's word. A control: x10 is the object, x11 a portal's identifier. Of a
/// semaphore x11 is 0 for an up, 1 for a down and 2 for a down that waits at most the ticks in x12.
pub fn registers_ask_for_these_calls()
    ensures waiting_call { (r : Registers) → reg r 17 ≡ 0 → reg r 10 < 2 ^ 20 → reg r 11 ≡ 0 → call_of r ≡ Ok (Call (reg r 10) false) }
    ensures call { (r : Registers) → reg r 17 ≡ 0 → reg r 10 < 2 ^ 20 → reg r 11 ≡ 1 → call_of r ≡ Ok (Call (reg r 10) true) }
    ensures reply { (r : Registers) → reg r 17 ≡ 1 → call_of r ≡ Ok Reply }
    ensures revoke { (r : Registers) (range : Range) (rights : Rights) → reg r 17 ≡ 7 → meaning_of (reg r 10) ≡ Ok (Some (range, rights)) → reg r 11 ≡ 0 →
        call_of r ≡ Ok (Revoke range false) }
    ensures own_too { (r : Registers) (range : Range) (rights : Rights) → reg r 17 ≡ 7 → meaning_of (reg r 10) ≡ Ok (Some (range, rights)) → reg r 11 ≡ 1 →
        call_of r ≡ Ok (Revoke range true) }
    ensures lookup { (r : Registers) (range : Range) (rights : Rights) → reg r 17 ≡ 8 → meaning_of (reg r 10) ≡ Ok (Some (range, rights)) → call_of r ≡ Ok (Lookup range) }
    ensures recall { (r : Registers) → reg r 17 ≡ 9 → reg r 10 < 2 ^ 20 → call_of r ≡ Ok (EcCtrl (reg r 10)) }
    ensures ticks { (r : Registers) → reg r 17 ≡ 10 → reg r 10 < 2 ^ 20 → call_of r ≡ Ok (ScCtrl (reg r 10)) }
    ensures identifier { (r : Registers) → reg r 17 ≡ 11 → reg r 10 < 2 ^ 20 → call_of r ≡ Ok (PtCtrl (reg r 10) (reg r 11)) }
    ensures up { (r : Registers) → reg r 17 ≡ 12 → reg r 10 < 2 ^ 20 → reg r 11 ≡ 0 → call_of r ≡ Ok (SmCtrl (reg r 10) Up) }
    ensures down { (r : Registers) → reg r 17 ≡ 12 → reg r 10 < 2 ^ 20 → reg r 11 ≡ 1 → call_of r ≡ Ok (SmCtrl (reg r 10) Down) }
    ensures within { (r : Registers) → reg r 17 ≡ 12 → reg r 10 < 2 ^ 20 → reg r 11 ≡ 2 → call_of r ≡ Ok (SmCtrl (reg r 10) (DownWithin (reg r 12))) }
{}

/// What registers don't ask for is BAD_HYP where x17 is above 12, and else BAD_PAR. A call or a revoke with another flag than 0 and 1, and an action
/// on a semaphore above 2, are none.
pub fn registers_that_ask_for_nothing()
    ensures unknown { (r : Registers) → 12 < reg r 17 → call_of r ≡ Err BadHyp }
    ensures unread { (r : Registers) (status : Status) → reg r 17 ≤ 12 → call_of r ≡ Err status → status ≡ BadPar }
    ensures call { (r : Registers) (portal : ℕ) (flag : Bool) → call_of r ≡ Ok (Call portal flag) → reg r 11 ≤ 1 }
    ensures revoke { (r : Registers) (range : Range) (own : Bool) → call_of r ≡ Ok (Revoke range own) → reg r 11 ≤ 1 }
    ensures semaphore { (r : Registers) (sm : ℕ) (action : SmAction) → call_of r ≡ Ok (SmCtrl sm action) → reg r 11 ≤ 2 }
{}
