use crate::name::Name;

/// What the program is asked to do.
#[derive(Debug, Drop)]
pub enum Command {
    /// Run a scenario with a thread for each processor, and append the order of its turns to a file.
    Run {
        /// The file of the scenario.
        scenario: Name,

        /// The file that the order of the turns is appended to.
        order: Name,

        /// The most turns, from 1 to 10,000,000.
        limit: u32,
    },

    /// Run a scenario with one thread.
    Solo {
        /// The file of the scenario.
        scenario: Name,

        /// The file of the order of its turns. Where none is named, they go round robin.
        order: Option<Name>,

        /// The most turns, from 1 to 10,000,000.
        limit: u32,
    },

    /// Say whether a scenario is valid.
    Check {
        /// The file of the scenario.
        scenario: Name,
    },

    /// Run the scenario of a bench, and sum it up.
    Bench {
        /// How many domains it makes, from 1 to 90,000.
        number: u32,

        /// The most turns, from 1 to 10,000,000.
        limit: u32,
    },

    /// Compare two guests.
    Twin {
        /// The file that says which two.
        subjects: Name,

        /// The most turns of each, from 1 to 10,000,000.
        limit: u32,
    },
}
