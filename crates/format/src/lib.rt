// What the bytes of a book or a query are read as, and what a check answers (document 01, "Records", "Sizes" and "Codes"). No code: the definitions are in specs, what
// they mean in proofs.
#![tactic(auto)]

// "A record is one byte of kind, then a body whose length the kind fixes." The kinds in order, 01 to 07.
#[derive(Clone, Copy)]
pub enum Record {
    Variable(u16),
    Constant(u16),
    Compound(u16, u8),
    Formula(u16, u8),
    Clause(u8),
    Goal(u16),
    End,
}

// What is checked.
#[derive(Clone, Copy)]
pub enum Form {
    Book,
    Query,
}

// What has been read: the terms still owed to the formula and the formulas still owed to the clause or goal, its
// nodes and its next unused variable so far, the clauses so far, and whether no further clause or goal may start.
#[derive(Clone, Copy)]
pub struct State {
    pub terms: usize,
    pub formulas: usize,
    pub nodes: usize,
    pub variables: usize,
    pub clauses: usize,
    pub closed: bool,
}

// What is wrong with a record, in the order of the tests.
#[derive(Clone, Copy)]
pub enum Fault {
    Kind,
    Cut,
    Range,
    Size,
    Number,
    Arity,
}

// "A check gives code, place and one count: the clauses of a good book, the nodes of a good query, else 0." The code stays a number: it is document 01's,
// which the theorems of the codes (specs/Cases) and C speak of.
#[derive(Clone, Copy)]
pub struct Check {
    pub code: u8,
    pub place: usize,
    pub count: usize,
}
