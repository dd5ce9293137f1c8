ghost use Rattle.std.specs.Prelude.{◌≡◌, ℕ, ◌<◌, List, [], ◌∷◌, ◌++◌, length, slice_index, None, map};
ghost use Rattle.nova_model.specs.Capabilities.{bind_portal_right, bind_scheduling_right, call_right, control_right, create_right, down_right, event_right, rights_to, up_right};
ghost use Rattle.nova_model.specs.Creation.{object_of, with_object};
ghost use Rattle.nova_model.specs.Deeds.{done};
ghost use Rattle.nova_model.specs.Sources.{Source, with_source};
ghost use Rattle.nova_model.specs.State.{KernelState, message, pd_of};
ghost use Rattle.nova_model.specs.declared.deed.Deed.TheVariants.{Makes, Opens};
ghost use Rattle.nova_model.specs.declared.new_object.NewObject.{NewObject};
ghost use Rattle.nova_model.specs.declared.new_object.NewObject.TheVariants as new;
ghost use Rattle.nova_objects.specs.declared.object.EcKind.TheVariants.{Global, Local};
ghost use Rattle.nova_objects.specs.declared.object.Object.TheVariants.{Pd, Ec, Sc, Pt, Sm};
ghost use Rattle.nova_range.specs.Rights.{AreRightsTo, rights_of};
ghost use Rattle.nova_range.specs.declared.range.Kind.TheVariants.{Obj};

use nova_range::{Rights, Target};

/// Rights to objects are the same bits in the model as in code, and the maker of an object has all rights to it. There is one bit to a domain and to
/// a scheduling context, three to an execution context and to a portal, two to a semaphore.
pub fn rights_are_these_bits()
    ensures pd { AreRightsTo Target.Pd (Rights.CREATE ∷ []) (create_right ∷ []) }
    ensures ec { AreRightsTo Target.Ec (Rights.CONTROL ∷ Rights.BIND_SC ∷ Rights.BIND_PT ∷ []) (control_right ∷ bind_scheduling_right ∷ bind_portal_right ∷ []) }
    ensures sc { AreRightsTo Target.Sc (Rights.CONTROL ∷ []) (control_right ∷ []) }
    ensures pt { AreRightsTo Target.Pt (Rights.CONTROL ∷ Rights.CALL ∷ Rights.EVENT ∷ []) (control_right ∷ call_right ∷ event_right ∷ []) }
    ensures sm { AreRightsTo Target.Sm (Rights.UP ∷ Rights.DOWN ∷ []) (up_right ∷ down_right ∷ []) }
    ensures made { (pd cpu event ec priority quantum mtd ip : ℕ) → (rights_to Pd ≡ rights_of 1) × (rights_to (Ec pd cpu Local event) ≡ rights_of 7)
        × (rights_to (Ec pd cpu Global event) ≡ rights_of 7) × (rights_to (Sc ec cpu priority quantum) ≡ rights_of 1)
        × (rights_to (Pt ec mtd ip) ≡ rights_of 7) × (rights_to Sm ≡ rights_of 3) }
{}

/// The 128 message words of a new thread are all 0, where tables go with objects.
pub fn new_words_are_all_zero()
    ensures local { (k : KernelState) (domain target pd cpu sp event n : ℕ) → length k.messages ≡ length k.objects → n < 128 →
        slice_index (message (with_object k domain target (new.Ec pd cpu Local sp event)) (length k.objects)) n ≡ 0 }
    ensures global { (k : KernelState) (domain target pd cpu sp event n : ℕ) → length k.messages ≡ length k.objects → n < 128 →
        slice_index (message (with_object k domain target (new.Ec pd cpu Global sp event)) (length k.objects)) n ≡ 0 }
{}

/// A source's semaphore is the next object, which the root's domain, 0, holds without a parent, with both rights, at the selector of its
/// number.
pub fn a_source_is_a_semaphore_of_the_roots()
    ensures { (k : KernelState) (s : Source) → (with_source k s).delegations.list ≡ k.delegations.list ++ record {
      id = k.delegations.next;
      pd = 0;
      kind = Obj;
      base = length k.objects;
      order = 0;
      rights = rights_of 3;
      target = length k.objects;
      parent = None;
    } ∷ [] }
{}

/// The maker of an object holds it at the selector that it asked for, without a parent and with all rights to it.
pub fn a_maker_holds_what_it_made_where_it_asked()
    ensures made { (k : KernelState) (ec call target : ℕ) (made : NewObject) → (done k ec (Makes call target made)).delegations.list ≡ k.delegations.list ++ record {
      id = k.delegations.next;
      pd = pd_of k ec;
      kind = Obj;
      base = target;
      order = 0;
      rights = rights_to (object_of made);
      target = length k.objects;
      parent = None;
    } ∷ [] }
    ensures opened { (k : KernelState) (ec target domain : ℕ) → (done k ec (Opens target domain)).delegations.list ≡ k.delegations.list ++ record {
      id = k.delegations.next;
      pd = pd_of k ec;
      kind = Obj;
      base = target;
      order = 0;
      rights = rights_of 1;
      target = length k.objects;
      parent = None;
    } ∷ [] }
{}
