// What reading a text answers (document 02, C-13), with no code: the definitions and what is proved of them are in specs.
#![tactic(auto)]

// "code, place"; and the bytes of the book and of the names. No Result: C gets these numbers as one (textnumbers), and 0 is one of its codes.
#[derive(Clone, Copy)]
pub struct ReadText {
    pub code: u8,
    pub place: u32,
    pub book: u32,
    pub names: u32,
}
