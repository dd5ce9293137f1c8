ghost use Rattle.std.specs.Prelude.{◌+◌, [], ◌∷◌, Some, None};
ghost use Rattle.nova_lock.specs.Ticketed.{IsSound, Draws, Looks, Passes, Heeds};
ghost use Rattle.nova_lock.specs.declared.view.Phase.TheVariants.{Idle, Spent};

use crate::called::Historied;
use crate::view::View;
use atomic_table::{Join, Play, Split, TableRule};
use std::snapshot::Snapshot;

/// The rule of the lock, of a value that it was made of.
pub struct Ticketed;

impl<T: Historied> TableRule<T, View<T>, Snapshot<T>> for Ticketed {
    ghost holds = { λ k s. IsSound T.opening T.history T.uses k.value s };

    ghost first = { λ k. record { phase = Idle; number = 0; ticket = 0; found = []; front = []; drawn = 0; opened = Some k.value; made = 1; kept = [] } };
}

/// A step that draws a ticket: the first word, `ticket`, goes up by one.
pub struct Draw;

impl<T: Historied> Play<T, View<T>> for Draw {
    ghost then = { Draws T.opening T.history T.uses };
}

/// A step that looks which seat the second word, `serving`, calls. The seat that is called takes the value.
pub struct Look;

impl<T: Historied> Play<T, View<T>> for Look {
    ghost then = { Looks T.opening T.history T.uses };
}

/// A step that gives the value back: `serving` goes up by one. The seat then owes a look at `ticket`.
pub struct Pass;

impl<T: Historied> Play<T, View<T>> for Pass {
    ghost then = { Passes T.opening T.history T.uses };
}

/// A step that looks at `ticket`. A seat that gave the value back owes it, and no other step ends that.
pub struct Heed;

impl<T: Historied> Play<T, View<T>> for Heed {
    ghost then = { Heeds };
}

/// A split of a view: seat 0 makes a further seat.
pub struct Sit;

impl<T> Split<View<T>> for Sit {
    ghost left = { λ v. record v { made = v.made + 1 } };

    ghost right = { λ v. record { phase = Idle; number = v.made; ticket = 0; found = []; front = []; drawn = 0; opened = v.opened; made = 0; kept = [] } };
}

/// A join of two views: seat 0 takes in another seat.
pub struct Leave;

impl<T> Join<View<T>> for Leave {
    ghost both = { λ v w. record v { kept = (w.number, w.front) ∷ v.kept } };

    ghost spent = { record { phase = Spent; number = 0; ticket = 0; found = []; front = []; drawn = 0; opened = None; made = 0; kept = [] } };
}
