ghost use Rattle.std.specs.Prelude.{◌≡◌};
ghost use Rattle.nova_asking.specs.Answers.{extent_of};

/// How far a search went.
#[derive(Clone, Copy)]
pub enum Extent {
    /// Along each order.
    All,

    /// Along each order that the limit of turns allows.
    Within,

    /// There were more states than it was allowed to expand: nothing is known of orders that it did not go along.
    Cut,
}

impl Extent {
    /// How far a search went that is over or isn't, and whole or isn't.
    pub(crate) fn of(is_over: bool, is_whole: bool) -> Extent
        ensures { result ≡ extent_of is_over is_whole }
    {
        if !is_over {
            Extent::Cut
        } else if is_whole {
            Extent::All
        } else {
            Extent::Within
        }
    }
}
