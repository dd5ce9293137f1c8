ghost use Rattle.std.specs.Prelude.{◌≡◌, ℕ, Option};
ghost use Rattle.nova_model.specs.Deeds.{sign_of};
ghost use Rattle.nova_model.specs.declared.deed.Deed.TheVariants.{Finishes, Helps, Skips, Waits};
ghost use Rattle.nova_model.specs.declared.event.EventKind.TheVariants.{Help, Skip};
ghost use Rattle.nova_model.specs.declared.transfer.ItemEnd.TheVariants.{Skipped};
ghost use Rattle.nova_model.specs.declared.transfer.ItemWords.{ItemWords};
ghost use Rattle.nova_model.specs.declared.transfer.Reason.TheVariants as reason;
ghost use Rattle.nova_model.specs.declared.transfer.Sequel.{Sequel};
ghost use Rattle.nova_model.specs.declared.transfer.Skip.TheVariants as skip;

/// The numbers of some events: a deed that helps tells the handler, with 0 for a call and 1 for an exit; an item that is skipped as a whole tells 1
/// for Empty or 2 for Window, and then the item; a part tells 3 for rights, 4 for what is taken or 5 for busy, and then the place.
pub fn events_tell_these_numbers()
    ensures helps { (handler reason q0 q1 : ℕ) → (sign_of (Helps handler) ≡ (Help, handler, 0)) × (sign_of (Waits handler reason q0 q1) ≡ (Help, handler, 1)) }
    ensures items { (item : ℕ) (words : Option ItemWords) (after : Sequel) → (sign_of (Finishes item (Skipped skip.Empty) words after) ≡ (Skip, 1, item))
        × (sign_of (Finishes item (Skipped skip.Window) words after) ≡ (Skip, 2, item)) }
    ensures parts { (place cursor : ℕ) → (sign_of (Skips reason.Rights place cursor) ≡ (Skip, 3, place))
        × (sign_of (Skips reason.Taken place cursor) ≡ (Skip, 4, place)) × (sign_of (Skips reason.Busy place cursor) ≡ (Skip, 5, place)) }
{}
