// The papers' refusals: each a variant of one enum, with the papers' number for it. 8 is not used.
// The library's calls answer these; what C calls and what the programs print turns one into its number. Every number is a refusal's, so that
// what takes a refusal may be handed any number.
#![tactic(auto)]

ghost use Rattle.std.specs.Prelude.{◌≡◌};
ghost use Rattle.refusals.specs.Refusals.{number_of};

mod unlisted;

pub use unlisted::Unlisted;

// Why a call declines, or what is wrong with a journal.
#[derive(Clone, Copy, Debug, PartialEq, Eq)]
pub enum Refusal {
    Length,
    Form,
    Day,
    Name,
    Chance,
    Times,
    Limit,
    Room,
    Absent,
    Line,
    Many,
    OldForm,
    Index,
    IndexRoom,
    Torn,
    Even,
    Share,
    Profile,
    // a number that none of these has, and that no call answers
    Other(Unlisted),
}

impl Refusal {
    // The papers' number for it.
    pub fn number(self) -> u32
        ensures { result ≡ number_of self }
    {
        match self {
            Refusal::Length => 1,
            Refusal::Form => 2,
            Refusal::Day => 3,
            Refusal::Name => 4,
            Refusal::Chance => 5,
            Refusal::Times => 6,
            Refusal::Limit => 7,
            Refusal::Room => 9,
            Refusal::Absent => 10,
            Refusal::Line => 11,
            Refusal::Many => 12,
            Refusal::OldForm => 13,
            Refusal::Index => 14,
            Refusal::IndexRoom => 15,
            Refusal::Torn => 16,
            Refusal::Even => 17,
            Refusal::Share => 18,
            Refusal::Profile => 19,
            Refusal::Other(unlisted) => unlisted.number(),
        }
    }
}

impl From<Refusal> for u32 {
    ghost from_gives = { λ refusal number. number ≡ number_of refusal };

    fn from(refusal: Refusal) -> u32 {
        refusal.number()
    }
}

impl From<u32> for Refusal {
    ghost from_gives = { λ number refusal. number_of refusal ≡ number };

    fn from(number: u32) -> Refusal {
        match number {
            1 => Refusal::Length,
            2 => Refusal::Form,
            3 => Refusal::Day,
            4 => Refusal::Name,
            5 => Refusal::Chance,
            6 => Refusal::Times,
            7 => Refusal::Limit,
            9 => Refusal::Room,
            10 => Refusal::Absent,
            11 => Refusal::Line,
            12 => Refusal::Many,
            13 => Refusal::OldForm,
            14 => Refusal::Index,
            15 => Refusal::IndexRoom,
            16 => Refusal::Torn,
            17 => Refusal::Even,
            18 => Refusal::Share,
            19 => Refusal::Profile,
            _ => Refusal::Other(Unlisted { number }),
        }
    }
}
