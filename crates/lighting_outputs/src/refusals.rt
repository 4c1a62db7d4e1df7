ghost use Rattle.std.specs.Prelude.{◌≡◌};
ghost use Rattle.lighting_outputs.specs.Paper.Answers.{refusal_number};
ghost use Rattle.lighting_outputs.specs.declared.Answer.TheVariants.{Refused};

use crate::Answer;

// Why a start or a frame is refused. `refusal_number` of specs/Paper/Answers.antt has the papers' number of
// each, which is what an answer carries.
#[derive(Clone, Copy)]
pub enum Refusal {
    // the lent records are not as many as the set has, or break a rule
    BrokenRecords,
    // no byte, or an unknown kind
    UnknownKind,
    // another length than the kind's
    WrongLength,
    // a station that the set has not, or number 0
    UnknownStation,
    // an output that is not in the table
    UnknownOutput,
    // the station's last number with other bytes
    OtherBytes,
    // a number below the station's last
    PastNumber,
    // a time before panel time
    PastTime,
    // a property that is unknown, or not writable
    NotWritable,
    // priority 0, 6 or over 16
    BadPriority,
    // a REAL out of range
    RealOutOfRange,
    // a whole number out of range
    WholeOutOfRange,
    // Min over Max
    MinOverMax,
    // a length, tag, tag order, tag length or padding that is wrong, or an operation above 10
    BadTags,
    // a field in tags that is missing, foreign, or not in the fewest octets
    BadFields,
    // the relay's inactive value not below its active one
    RelayNotInOrder,
    // a start with a parameter out of range
    BadParameters,
    // a number that the papers do not have
    Other(u8),
}

impl Refusal {
    // Its number in the papers.
    pub fn number(self) -> u8
        ensures { result ≡ refusal_number self }
    {
        match self {
            Refusal::BrokenRecords => 1,
            Refusal::UnknownKind => 2,
            Refusal::WrongLength => 3,
            Refusal::UnknownStation => 4,
            Refusal::UnknownOutput => 5,
            Refusal::OtherBytes => 6,
            Refusal::PastNumber => 7,
            Refusal::PastTime => 8,
            Refusal::NotWritable => 9,
            Refusal::BadPriority => 10,
            Refusal::RealOutOfRange => 11,
            Refusal::WholeOutOfRange => 12,
            Refusal::MinOverMax => 13,
            Refusal::BadTags => 14,
            Refusal::BadFields => 15,
            Refusal::RelayNotInOrder => 16,
            Refusal::BadParameters => 17,
            Refusal::Other(number) => number,
        }
    }
}

// A refusal as it is answered: by its number.
impl From<Refusal> for Answer {
    ghost from_gives = { λ refusal answer. answer ≡ Refused (refusal_number refusal) };

    fn from(refusal: Refusal) -> Answer {
        Answer::Refused(refusal.number())
    }
}
