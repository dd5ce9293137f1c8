use nova_asking::Question;
use nova_command::Name;

/// What the program is asked.
#[derive(Drop)]
pub struct Request {
    /// The file of the scenario.
    pub scenario: Name,

    /// The most turns of an order, from 1 to 10,000,000.
    pub turns: u32,

    /// The most states that are expanded, from 1 to 100,000,000.
    pub states: u32,

    pub question: Question,
}
