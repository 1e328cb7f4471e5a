// What reading a query's text answers, as a definition, and what the answer means (document 02, C-13); no code.
#![tactic(auto)]

// Code, place, bytes of the query's image, bytes of the names.
#[derive(Clone, Copy)]
pub struct ReadQuery {
    pub code: u8,
    pub place: u32,
    pub query: u32,
    pub names: u32,
}
