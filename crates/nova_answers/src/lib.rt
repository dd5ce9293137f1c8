//! What a call of the hypervisor answers, apart from running: the files that a command names, the scenario of a bench, reports, what is sent
//! out, and how the call ends. The definitions of the top call's clauses are here.
#![tactic(auto)]

mod bench;
mod booting;
mod exit;
mod fetched;
mod outcome;
mod replay;
mod sending;
mod subjects;

pub use bench::bench_scenario;
pub use booting::booted;
pub use exit::{Exit, OrderWhy, ScenarioWhy, TwinWhy};
pub use fetched::{fetch_order, fetch_scenario, fetch_subjects};
pub use outcome::{Outcome, closed, recorded, summed_up, valid};
pub use replay::{a_written_order_gives_the_same_report, one_thread_repeats_a_run};
pub use sending::send;
pub use subjects::{Subject, Subjects};
