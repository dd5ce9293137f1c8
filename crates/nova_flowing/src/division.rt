/// A side among others, by tables: which domains are its own and which the others', by number, which objects its part has, and which processors are its
/// own. What is beyond a table isn't in it.
#[derive(Drop)]
pub struct Division {
    pub own: Vec<bool>,
    pub others: Vec<bool>,
    pub part: Vec<bool>,
    pub home: Vec<bool>,
}
