// The refusals of every call, and rules that refuse.
ghost use Rattle.std.specs.Prelude.{◌≡◌, MatchResult};
ghost use Rattle.entries.specs.Refusals.{refusal_number, refuse_if};

// One case for each of the documents' numbers.
#[derive(Clone, Copy, Debug, PartialEq, Eq)]
pub enum Refusal {
    UnknownKind = 1,
    UnknownNode = 2,
    UnknownAccount = 3,
    UnknownDay = 4,
    FieldOutOfRange = 5,
    SerialNotNew = 6,
    BookFull = 7,
    NotOnChain = 8,
    DepositState = 9,
    DayBefore = 10,
    Closed = 11,
    PeriodOver = 12,
    PeriodRunning = 13,
    OnePhase = 14,
    MetresExceeded = 15,
    CorrectedBefore = 16,
    ImageLength = 17,
    ImageHeader = 18,
    ImageCount = 19,
    NextIndex = 20,
    BufferShort = 21,
    ResultsShort = 22,
    PageBufferShort = 23,
    GuaranteeOpen = 24,
    ReductionEarly = 25,
    RetentionEarly = 26,
    CorrectionInRun = 27,
    RunState = 28,
    SaveInRun = 29,
    NoDaysServed = 30,
}

// The documents' number.
impl From<Refusal> for u8 {
    ghost from_gives = { λ refusal number. number ≡ refusal_number refusal };

    fn from(refusal: Refusal) -> u8 {
        refusal as u8
    }
}

// An answer's refusal number, 0 where it is accepted.
pub fn refusal_of<T>(answer: &Result<T, Refusal>) -> u8
    ensures { MatchResult answer.now (λ _. result ≡ 0) (λ refusal. result ≡ refusal_number refusal) }
{
    match answer {
        Ok(_) => 0,
        Err(refusal) => u8::from(*refusal),
    }
}

// A rule: its refusal where it is broken.
#[tactic(auto, unfolding(crate::specs::Refusals::refuse_if))]
pub fn refuse_if(broken: bool, refusal: Refusal) -> Result<(), Refusal>
    ensures { result ≡ refuse_if broken refusal }
{
    if broken { Err(refusal) } else { Ok(()) }
}
