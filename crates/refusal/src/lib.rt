// The refusals of documents 01 and 02, by name, in the order of its table, and what a call comes to. A refusal's place stands beside its name.
#![tactic(auto)]

ghost use Rattle.std.specs.Prelude.{◌≡◌};
ghost use Rattle.refusal.specs.Refusal.{number_of, refusal_at};

#[derive(Clone, Copy, PartialEq, Eq)]
pub enum Why {
    CutShort,
    NotShortest,
    WrongVersion,
    OutOfRange,
    SavingNotBelow,
    PowerBelowSavings,
    LinkNotAbove,
    BytesAfter,
    Looped,
    TooSlow,
    NoBoard,
    UnknownKind,
    LinkThere,
    LinkMissing,
    LinksFull,
    BufferShort,
    NoPart,
    TallyFull,
    OffCurve,
    NoLabel,
    NoKind,
    NoRule,
    NotVersion1,
}

// Why a call was refused, and the refusal's place.
#[derive(Clone, Copy, PartialEq, Eq)]
pub struct Refusal {
    pub why: Why,
    pub place: usize,
}

// What a call comes to: what it gives, or its refusal.
pub type Answer<T = ()> = Result<T, Refusal>;

impl Why {
    // Refused for this, at a place.
    pub fn at(self, place: usize) -> Refusal
        ensures { result ≡ refusal_at self place }
    {
        Refusal { why: self, place }
    }
}

// The paper's number of a refusal.
impl From<Why> for u8 {
    ghost from_gives = { λ w n. n ≡ number_of w };

    fn from(w: Why) -> u8 {
        match w {
            Why::CutShort => 1,
            Why::NotShortest => 2,
            Why::WrongVersion => 3,
            Why::OutOfRange => 4,
            Why::SavingNotBelow => 5,
            Why::PowerBelowSavings => 6,
            Why::LinkNotAbove => 7,
            Why::BytesAfter => 8,
            Why::Looped => 9,
            Why::TooSlow => 10,
            Why::NoBoard => 11,
            Why::UnknownKind => 12,
            Why::LinkThere => 13,
            Why::LinkMissing => 14,
            Why::LinksFull => 15,
            Why::BufferShort => 16,
            Why::NoPart => 17,
            Why::TallyFull => 18,
            Why::OffCurve => 19,
            Why::NoLabel => 20,
            Why::NoKind => 21,
            Why::NoRule => 22,
            Why::NotVersion1 => 23,
        }
    }
}
