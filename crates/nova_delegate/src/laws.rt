ghost use Rattle.std.specs.Prelude.{◌≡◌, ◌≢◌, ◌↔◌, ℕ};
ghost use Rattle.nova_model.specs.Delegations.{Delegations};
ghost use Rattle.nova_model.specs.Translations.{translated};
ghost use Rattle.nova_delegate.specs.Answered.{IsAnswer, HasNoAnswer};
ghost use Rattle.nova_nodes.specs.NodesStates.{IsSound};

/// An answer that is not 0 is the word of a range that lies inside the window and has its type. It lies inside
/// a derivation of the receiver's, the first of the receiver's in the line of the giver's derivation: that
/// derivation, its parent, the parent's parent and so on. The giver's derivation is that which covers the base
/// of the range that was sent; those of its places that are of this range lead, one by one, to the frames or
/// objects that the places of the answer lead to. The answer allows what both the item and the giver's
/// derivation allow.
pub fn an_answer_leads_where_the_givers_places_lead()
    ensures { (f : Delegations) (word window giver receiver : ℕ) → IsSound f →
        translated f.list word window giver receiver ≢ 0 →
        IsAnswer f.list word window giver receiver (translated f.list word window giver receiver) }
{}

/// The answer is 0 exactly where the range word or the window doesn't read or is null, or no derivation of the
/// giver's covers the range's base, or the line of the derivation that does has none of the receiver's, or the
/// range in the first of the receiver's is not of the window's type or not inside the window.
pub fn no_answer_has_a_reason()
    ensures { (f : Delegations) (word window giver receiver : ℕ) → IsSound f →
        (translated f.list word window giver receiver ≡ 0) ↔ HasNoAnswer f.list word window giver receiver }
{}
