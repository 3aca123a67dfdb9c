// Why a call or an input line is refused: one enum for every layer, and the number that users know each cause by.
#![tactic(auto)]

ghost use Rattle.std.specs.Prelude.{◌≡◌};
ghost use Rattle.fault.specs.Number.{number};
ghost use Rattle.fault.specs.Name.{fault_name};
ghost use Rattle.fault.specs.declared.Failure.TheVariants.{Refused, OutOfMemory};

use std::alloc::{AllocError, AllocFailed as Unplaced};

// The causes of a refusal, in rising order of their numbers. 11 to 18 come from the input, 21 to 29 from the state.
#[derive(Clone, Copy, PartialEq, Eq, Debug)]
pub enum Fault {
    MalformedLine,
    UnknownFrame,
    ReadingOutOfRange,
    BadMark,
    BadShortest,
    BadPenalty,
    BadCount,
    BadStretch,
    TooManyReadings,
    SharedGap,
    TooManyMarks,
    NoSuchMark,
    NoAllowedDivision,
    ShortBuffer,
    TooHeavy,
    NoReading,
    WrongState,
}

impl Fault {
    // The number that users see.
    pub fn number(self) -> u8
        ensures { result ≡ number self }
    {
        match self {
            Fault::MalformedLine => 11,
            Fault::UnknownFrame => 12,
            Fault::ReadingOutOfRange => 13,
            Fault::BadMark => 14,
            Fault::BadShortest => 15,
            Fault::BadPenalty => 16,
            Fault::BadCount => 17,
            Fault::BadStretch => 18,
            Fault::TooManyReadings => 21,
            Fault::SharedGap => 22,
            Fault::TooManyMarks => 23,
            Fault::NoSuchMark => 24,
            Fault::NoAllowedDivision => 25,
            Fault::ShortBuffer => 26,
            Fault::TooHeavy => 27,
            Fault::NoReading => 28,
            Fault::WrongState => 29,
        }
    }

    // What a person reads. A text, and no Display: the contract says which.
    pub fn name(self) -> &'static str
        ensures { result.now ≡ fault_name self }
    {
        match self {
            Fault::MalformedLine => "malformed line",
            Fault::UnknownFrame => "unknown kind, or a length that does not fit it",
            Fault::ReadingOutOfRange => "reading outside its loss's range",
            Fault::BadMark => "mark that cannot stand on this line",
            Fault::BadShortest => "shortest stretch outside the line",
            Fault::BadPenalty => "penalty above 2^49",
            Fault::BadCount => "count above the number of gaps",
            Fault::BadStretch => "stretch outside the loss",
            Fault::TooManyReadings => "more than 512 readings",
            Fault::SharedGap => "mark shares a gap with a standing one",
            Fault::TooManyMarks => "64 marks stand already",
            Fault::NoSuchMark => "no mark begins there",
            Fault::NoAllowedDivision => "no allowed division",
            Fault::ShortBuffer => "buffer or list too short",
            Fault::TooHeavy => "loss too heavy",
            Fault::NoReading => "no reading",
            Fault::WrongState => "not a call of this state",
        }
    }
}

// What ends a call that allocates: a refusal, or want of memory.
#[derive(Clone, Copy, PartialEq, Eq, Debug)]
pub enum Failure {
    Refused(Fault),
    OutOfMemory,
}

impl From<Fault> for Failure {
    ghost from_gives = { λ f r. r ≡ Refused f };

    fn from(fault: Fault) -> Failure {
        Failure::Refused(fault)
    }
}

impl From<AllocError> for Failure {
    ghost from_gives = { λ _ r. r ≡ OutOfMemory };

    fn from(_error: AllocError) -> Failure {
        Failure::OutOfMemory
    }
}

impl<T: Drop> From<Unplaced<T>> for Failure {
    ghost from_gives = { λ _ r. r ≡ OutOfMemory };

    fn from(_error: Unplaced<T>) -> Failure {
        Failure::OutOfMemory
    }
}
