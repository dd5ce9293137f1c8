//! Laws of what texts are as policies. The functions do nothing: their contracts are the laws.
ghost use Rattle.std.specs.Prelude.{◌≡◌, ℕ, List, [], ◌∷◌, codes, Some, None, Ok, Err};
ghost use Rattle.nova_naming.specs.Labels.{flows_of, label_of, side_text};
ghost use Rattle.nova_naming.specs.Policy.{MakePolicy, policy_of};
ghost use Rattle.nova_naming.specs.Statements.{Stated};
ghost use Rattle.nova_text.specs.Line.{lines};
ghost use Rattle.nova_naming.specs.declared.fault.PolicyWhy.TheVariants.{Word, Name, Number, Empty, SameName, SameDomain, SameSemaphore, NoSide, SameSide, SameFlow};

/// A text is a policy exactly where its lines make one: none is wrong by itself, and each can stand behind those before it. The policy is what
/// they say, one after another.
pub fn a_policy_is_what_its_lines_say()
    ensures lines { (text : List ℕ) (policy : List Stated) → policy_of text ≡ Ok policy → MakePolicy (lines text) policy }
    ensures policy { (text : List ℕ) (policy : List Stated) → MakePolicy (lines text) policy → policy_of text ≡ Ok policy }
{}

/// These texts are policies, of these lines.
pub fn texts_are_policies()
    ensures sides { policy_of (codes "trusted 0 # the root\n\nside left 5 0x9\n side b-2\t12\n")
        ≡ Ok (record { line = 1; side = None; domains = 0 ∷ []; semaphores = []; flow = None } ∷ record { line = 3; side = Some (codes "left"); domains = 5 ∷ 9 ∷ []; semaphores = []; flow = None }
        ∷ record { line = 4; side = Some (codes "b-2"); domains = 12 ∷ []; semaphores = []; flow = None } ∷ []) }
    ensures shared { policy_of (codes "shared 14 0xf\ntrusted 0")
        ≡ Ok (record { line = 1; side = None; domains = []; semaphores = 14 ∷ 15 ∷ []; flow = None } ∷ record { line = 2; side = None; domains = 0 ∷ []; semaphores = []; flow = None } ∷ []) }
    ensures flow { policy_of (codes "side a 3\nside b 10\nflow b a")
        ≡ Ok (record { line = 1; side = Some (codes "a"); domains = 3 ∷ []; semaphores = []; flow = None } ∷ record { line = 2; side = Some (codes "b"); domains = 10 ∷ []; semaphores = []; flow = None }
        ∷ record { line = 3; side = None; domains = []; semaphores = []; flow = Some (record { from = codes "b"; to = codes "a" }) } ∷ []) }
    ensures empty { policy_of (codes "# nobody is trusted") ≡ Ok [] }
{}

/// These texts are no policies: each is refused with its first line at fault, and why.
pub fn texts_are_no_policies()
    ensures word { policy_of (codes "trusted 0\napart 1 2\nside\n") ≡ Err (record { line = 2; why = Word }) }
    ensures name { policy_of (codes "side 4 8") ≡ Err (record { line = 1; why = Name }) }
    ensures no_name { policy_of (codes "side trusted 8") ≡ Err (record { line = 1; why = Name }) }
    ensures number { policy_of (codes "side a 4294967296") ≡ Err (record { line = 1; why = Number }) }
    ensures none { policy_of (codes "trusted # 0") ≡ Err (record { line = 1; why = Empty }) }
    ensures same_name { policy_of (codes "side a 1\nside a 2") ≡ Err (record { line = 2; why = SameName }) }
    ensures same_domain { policy_of (codes "side a 1\ntrusted 0x1") ≡ Err (record { line = 2; why = SameDomain }) }
    ensures same_semaphore { policy_of (codes "shared 7\nside a 1\nshared 9 7") ≡ Err (record { line = 3; why = SameSemaphore }) }
    ensures no_semaphore { policy_of (codes "shared") ≡ Err (record { line = 1; why = Empty }) }
    ensures no_side { policy_of (codes "side a 3\nflow a b\nside b 10") ≡ Err (record { line = 2; why = NoSide }) }
    ensures no_other { policy_of (codes "side a 3\nside b 10\nflow a") ≡ Err (record { line = 3; why = Name }) }
    ensures one_more { policy_of (codes "side a 3\nside b 10\nflow a b a") ≡ Err (record { line = 3; why = Name }) }
    ensures itself { policy_of (codes "side a 3\nflow a a") ≡ Err (record { line = 2; why = SameSide }) }
    ensures same_flow { policy_of (codes "side a 3\nside b 10\nflow a b\nflow b a\nflow a b") ≡ Err (record { line = 5; why = SameFlow }) }
    ensures twice { policy_of (codes "side a 1 2 1") ≡ Err (record { line = 1; why = SameDomain }) }
{}

/// By a policy of these two lines a trusted domain has label 0, one of a side that side's label and name, and another a label of its own; and by one with
/// a line `flow` the label of its first side flows to that of its second.
pub fn lines_give_labels()
    ensures trusted { label_of (record { line = 1; side = None; domains = 0 ∷ []; semaphores = []; flow = None } ∷ record { line = 3; side = Some (codes "left"); domains = 5 ∷ 9 ∷ []; semaphores = []; flow = None } ∷ []) 0 ≡ 0 }
    ensures side { label_of (record { line = 1; side = None; domains = 0 ∷ []; semaphores = []; flow = None } ∷ record { line = 3; side = Some (codes "left"); domains = 5 ∷ 9 ∷ []; semaphores = []; flow = None } ∷ []) 9 ≡ 2 }
    ensures own { label_of (record { line = 1; side = None; domains = 0 ∷ []; semaphores = []; flow = None } ∷ record { line = 3; side = Some (codes "left"); domains = 5 ∷ 9 ∷ []; semaphores = []; flow = None } ∷ []) 7 ≡ 10 }
    ensures called { side_text (record { line = 1; side = None; domains = 0 ∷ []; semaphores = []; flow = None } ∷ record { line = 3; side = Some (codes "left"); domains = 5 ∷ 9 ∷ []; semaphores = []; flow = None } ∷ []) 2 ≡ codes "left" }
    ensures flows { flows_of (record { line = 1; side = Some (codes "a"); domains = 3 ∷ []; semaphores = []; flow = None } ∷ record { line = 2; side = Some (codes "b"); domains = 10 ∷ []; semaphores = []; flow = None }
        ∷ record { line = 3; side = None; domains = []; semaphores = []; flow = Some (record { from = codes "b"; to = codes "a" }) } ∷ []) ≡ (2, 1) ∷ [] }
{}
