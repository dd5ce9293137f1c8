ghost use Rattle.law_swaps.specs.Touches.{Touch};
ghost use Rattle.nova_search.specs.Reductions.{Swaps};
ghost use Rattle.nova_search.specs.declared.merging.Merging.TheVariants.{Alike};
ghost use Rattle.nova_touching.specs.Marks.{apart};
ghost use Rattle.nova_touching.specs.Touching.{TouchesAtMost};

/// Turns of the kernel that are apart may change places, where states that are alike are one: the states after both are alike, and each touches no more than it
/// did. And turns touch no more in one of two alike states than in the other.
pub fn turns_of_the_kernel_swap()
    ensures { Swaps Touch TouchesAtMost apart Alike }
{
    law_swaps::turns_that_are_apart_change_places();
    law_swaps::alike_states_touch_alike();
    law_swaps::plain_steps_tell_no_ticks();
    law_isolation::what_isolation_stands_on_is_kept();
}
