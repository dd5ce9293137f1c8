ghost use Rattle.std.specs.Prelude.{◌≡◌, ◌++◌, false, List, None};
ghost use Rattle.nova_guest.specs.Admitted.{admits};
ghost use Rattle.nova_guest.specs.Alone.{alone, applied, outputs, told};
ghost use Rattle.nova_guest.specs.declared.guest.Guest.{Guest};
ghost use Rattle.nova_guest.specs.declared.input.Input.{Input};

/// An input that the state of a guest doesn't admit changes nothing and puts out nothing. Such are a turn of
/// its own where it has an exit, waits or has ended; a sending without an exit; a death without an exit that is
/// sent or not; a reply where it doesn't wait; a map that overlaps one; the taking of a map that isn't there;
/// and a store to a frame without a cell.
pub fn inputs_that_are_not_admitted_change_nothing()
    ensures { (v : Guest) (i : Input) → admits v i ≡ false → applied v i ≡ told v None }
{}

/// Inputs compose: a guest that takes some and then others leaves and puts out what it does with all in a row.
pub fn inputs_go_on_from_what_others_left()
    ensures guest { (v : Guest) (first later : List Input) → alone v (first ++ later) ≡ alone (alone v first) later }
    ensures outs { (v : Guest) (first later : List Input) → outputs v (first ++ later) ≡ outputs v first ++ outputs (alone v first) later }
{}
