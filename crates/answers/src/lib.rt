// What comes back of every entry: a verdict, its refusal with its place and column, and both in document 01's numbers. Every refusal is made here.
#![tactic(auto)]

ghost use Rattle.std.specs.Prelude.{◌≡◌};
ghost use Rattle.answers.specs.Answers.{number_of, answered, refusal, in_column, refuse, and_then};

// The refusals of document 01, 'What comes back', by name.
#[derive(Clone, Copy)]
pub enum Name {
    Length,
    Frame,
    Check,
    Kind,
    Field,
    TooMany,
    Count,
    Loop,
    Request,
    Last,
}

// A refusal: which, at which place, and in which column of its line, from 1. The column is 0 where there is no line, and of a refusal that has none.
#[derive(Clone, Copy)]
pub struct Refusal {
    pub name: Name,
    pub place: u32,
    pub column: usize,
}

// What a judge says: nothing against it, or the refusal.
pub type Verdict = Result<(), Refusal>;

// An answer in document 01's numbers.
#[derive(Clone, Copy)]
pub struct Answer {
    pub number: u8,
    pub place: u32,
    pub column: usize,
}

// A refusal, at its place, without a column. Every one is made here.
pub fn refusal_of(name: Name, place: u32) -> Refusal
    ensures { result ≡ refusal name place }
{
    Refusal {
        name,
        place,
        column: 0,
    }
}

// The same refusal, in this column.
pub fn in_column(r: Refusal, column: usize) -> Refusal
    ensures { result ≡ in_column column r }
{
    let name = r.name;
    Refusal {
        name,
        place: r.place,
        column,
    }
}

// The verdict that refuses, at its place.
pub fn refuse(name: Name, place: u32) -> Verdict
    ensures { result ≡ refuse name place }
{
    Err(refusal_of(name, place))
}

// A later test is asked only where those before it pass.
// Kept: `Result::and` by another name, for its definition is the order of the tests of a step and of the tables (`judge_step`, `judge_tables`).
pub fn and_then(first: Verdict, later: Verdict) -> Verdict
    ensures { result ≡ and_then first later }
{
    first?;
    later
}

// Document 01's number of a refusal.
// Kept: a function and no `From`, for claims/Functions has its theorem and the demands speak of it by this name.
pub fn number_of(name: Name) -> u8
    ensures { result ≡ number_of name }
{
    match name {
        Name::Length => 1,
        Name::Frame => 2,
        Name::Check => 3,
        Name::Kind => 4,
        Name::Field => 5,
        Name::TooMany => 6,
        Name::Count => 7,
        Name::Loop => 8,
        Name::Request => 9,
        Name::Last => 10,
    }
}

// What a verdict is in document 01's numbers: 0, place 0 and column 0 for OK, else the refusal's number, place and column.
pub fn answer_of(verdict: Verdict) -> Answer
    ensures { result ≡ answered verdict }
{
    match verdict {
        Ok(()) => Answer {
            number: 0,
            place: 0,
            column: 0,
        },
        Err(r) => {
            let name = r.name;
            Answer {
                number: number_of(name),
                place: r.place,
                column: r.column,
            }
        }
    }
}
