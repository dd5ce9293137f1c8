ghost use Rattle.std.specs.Prelude.{◌≡◌};
ghost use Rattle.nova_explore.specs.Tellings.{of_extent};

use nova_asking::Extent;

/// What is told of the orders of a scenario.
#[derive(Clone, Copy, Debug, PartialEq, Eq)]
pub enum Verdict {
    /// No order, of whatever length, leads to what was asked for. Or the outcomes that are told are those of all orders.
    All,

    /// The order that is told leads to what was asked for.
    Found,

    /// No order of at most as many turns as were allowed leads to what was asked for; or the outcomes are those of these orders. Nothing is known
    /// of longer ones.
    Within,

    /// More states were found than may be expanded: nothing is known of orders that are not told.
    Cut,
}

impl Verdict {
    /// What is told where a search of `extent` found nothing, or all that it was to find.
    pub(crate) fn of_extent(extent: Extent) -> Verdict
        ensures { result ≡ of_extent extent }
    {
        match extent {
            Extent::All => Verdict::All,
            Extent::Within => Verdict::Within,
            Extent::Cut => Verdict::Cut,
        }
    }
}
