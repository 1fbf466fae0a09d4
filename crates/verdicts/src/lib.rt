// Verdicts: which rule a call is refused by, and where, or that it is accepted.

#![tactic(auto)]

ghost use Rattle.std.specs.Prelude.{◌≡◌};
ghost use Rattle.verdicts.specs.Verdicts.{number_of, verdict_of};

// The rules of refusals 1 to 18, in the order of their numbers.
#[derive(Clone, Copy, PartialEq, Eq)]
pub enum Rule {
    ShortArea,
    EmptyNetwork,
    BrokenRecord,
    UnknownKind,
    TooManyNodes,
    WrongLength,
    WrongField,
    BadForm,
    LastBatch,
    BrokenEvent,
    UnknownEvent,
    TooManyEvents,
    WrongEvent,
    TooManyRows,
    Unwatched,
    ShortReport,
    BadPending,
    NothingPending,
}

// A rule that is broken, and the place.
#[derive(Clone, Copy, PartialEq, Eq)]
pub struct Refusal {
    pub rule: Rule,
    pub place: usize,
}

// A call's verdict: nothing where it is accepted, or its refusal.
pub type Verdict = Result<(), Refusal>;

impl Rule {
    // The rule's number.
    pub fn number(self) -> usize
        ensures { result ≡ number_of self }
    {
        match self {
            Rule::ShortArea => 1,
            Rule::EmptyNetwork => 2,
            Rule::BrokenRecord => 3,
            Rule::UnknownKind => 4,
            Rule::TooManyNodes => 5,
            Rule::WrongLength => 6,
            Rule::WrongField => 7,
            Rule::BadForm => 8,
            Rule::LastBatch => 9,
            Rule::BrokenEvent => 10,
            Rule::UnknownEvent => 11,
            Rule::TooManyEvents => 12,
            Rule::WrongEvent => 13,
            Rule::TooManyRows => 14,
            Rule::Unwatched => 15,
            Rule::ShortReport => 16,
            Rule::BadPending => 17,
            Rule::NothingPending => 18,
        }
    }

    // A refusal by the rule at a place.
    pub fn at(self, place: usize) -> Refusal
        ensures { result ≡ record { rule = self; place = place } }
    {
        Refusal { rule: self, place }
    }
}

// The number of the rule that an answer is refused by, 0 if it is not.
pub fn number_of<T>(answer: &Result<T, Refusal>) -> usize
    ensures { result ≡ (verdict_of answer.now).number }
{
    answer
        .as_ref()
        .err()
        .map_or(0, |refusal| refusal.rule.number())
}

// The place at which an answer is refused, 0 if it is not.
pub fn place_of<T>(answer: &Result<T, Refusal>) -> usize
    ensures { result ≡ (verdict_of answer.now).place }
{
    answer.as_ref().err().map_or(0, |refusal| refusal.place)
}
