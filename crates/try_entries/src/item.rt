// What an item is for, and why none after it is tried.

// An item is cut off, says less than its entry is called with, or has no entry's number.
#[derive(Clone, Copy, Debug, PartialEq, Eq)]
pub struct Damaged;

// The entries that are lent areas, and the checks, but for the plain one of a book, and the picks, which have no use for them.
#[derive(Clone, Copy, PartialEq, Eq)]
pub enum Entry {
    CheckQuery,
    Step,
    Run,
    RunForC,
    Pick,
    Apply,
    PickForC,
    ApplyForC,
    FlatCheckBook,
    FlatCheckQuery,
    FlatStep,
    FlatRun,
    FlatBookForC,
    FlatQueryForC,
    FlatStepForC,
    FlatRunForC,
    PrintBook,
    PrintGoal,
    PrintAnswer,
    ReadRules,
    ReadQuery,
}

impl TryFrom<u8> for Entry {
    type Error = Damaged;

    fn try_from(number: u8) -> Result<Self, Damaged> {
        Ok(match number {
            2 => Entry::CheckQuery,
            3 => Entry::Step,
            4 => Entry::Run,
            5 => Entry::RunForC,
            6 => Entry::Pick,
            7 => Entry::Apply,
            8 => Entry::PickForC,
            9 => Entry::ApplyForC,
            10 => Entry::FlatCheckBook,
            11 => Entry::FlatCheckQuery,
            12 => Entry::FlatStep,
            13 => Entry::FlatRun,
            14 => Entry::FlatBookForC,
            15 => Entry::FlatQueryForC,
            16 => Entry::FlatStepForC,
            17 => Entry::FlatRunForC,
            18 => Entry::PrintBook,
            19 => Entry::PrintGoal,
            20 => Entry::PrintAnswer,
            21 => Entry::ReadRules,
            22 => Entry::ReadQuery,
            _ => return Err(Damaged),
        })
    }
}
