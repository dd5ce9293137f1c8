use nova_io::FetchFault;
use nova_order::OrderFault;
use nova_scenario::{ScenarioFault, Why};

/// Why no scenario was loaded.
#[derive(Clone, Copy, Debug, PartialEq, Eq)]
pub enum ScenarioUnread {
    /// A fetch failed.
    Failed,

    /// There are more than 16 MiB.
    TooLong,

    /// The text is none: its first line at fault, from 1, and why.
    Refused { line: u64, why: Why },

    /// Memory was refused.
    Memory,
}

/// Why no order was loaded.
#[derive(Clone, Copy, Debug, PartialEq, Eq)]
pub enum OrderUnread {
    /// A fetch failed.
    Failed,

    /// There are more than 64 MiB.
    TooLong,

    /// The text is none of the processors and of the most turns: its first line at fault. This isn't `Memory`.
    Refused(OrderFault),

    /// Memory was refused.
    Memory,
}

impl From<FetchFault> for ScenarioUnread {
    ghost use Rattle.std.specs.Prelude.{◌≡◌};
    ghost use Rattle.nova_loading.specs.Unread.{of_scenario_fetch};

    ghost from_gives = { λ fault unread. unread ≡ of_scenario_fetch fault };

    fn from(fault: FetchFault) -> ScenarioUnread {
        match fault {
            FetchFault::Failed => ScenarioUnread::Failed,
            FetchFault::TooLong => ScenarioUnread::TooLong,
            FetchFault::Memory => ScenarioUnread::Memory,
        }
    }
}

impl From<ScenarioFault> for ScenarioUnread {
    ghost use Rattle.std.specs.Prelude.{◌≡◌};
    ghost use Rattle.nova_loading.specs.Unread.{of_scenario};

    ghost from_gives = { λ fault unread. unread ≡ of_scenario fault };

    fn from(fault: ScenarioFault) -> ScenarioUnread {
        match fault {
            ScenarioFault::At { line, why } => ScenarioUnread::Refused { line, why },
            ScenarioFault::Memory => ScenarioUnread::Memory,
        }
    }
}

impl From<FetchFault> for OrderUnread {
    ghost use Rattle.std.specs.Prelude.{◌≡◌};
    ghost use Rattle.nova_loading.specs.Unread.{of_order_fetch};

    ghost from_gives = { λ fault unread. unread ≡ of_order_fetch fault };

    fn from(fault: FetchFault) -> OrderUnread {
        match fault {
            FetchFault::Failed => OrderUnread::Failed,
            FetchFault::TooLong => OrderUnread::TooLong,
            FetchFault::Memory => OrderUnread::Memory,
        }
    }
}

impl From<OrderFault> for OrderUnread {
    ghost use Rattle.std.specs.Prelude.{◌≡◌};
    ghost use Rattle.nova_loading.specs.Unread.{of_order};

    ghost from_gives = { λ fault unread. unread ≡ of_order fault };

    fn from(fault: OrderFault) -> OrderUnread {
        match fault {
            OrderFault::Memory => OrderUnread::Memory,
            OrderFault::BadLine(_)
            | OrderFault::BadCpu(_)
            | OrderFault::ZeroCount(_)
            | OrderFault::NotMerged(_)
            | OrderFault::TooMany(_) => OrderUnread::Refused(fault),
        }
    }
}
