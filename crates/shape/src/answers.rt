// Why a call is refused. A refused call leaves its buffers as they were, but for the cases that its own comment names. The numbers
// are those of specs/Refusal.antt.
ghost use Rattle.std.specs.Prelude.{◌≡◌};
ghost use Rattle.shape.specs.Refusal.{refusal_number, answer_number};

#[derive(Clone, Copy, Debug, PartialEq, Eq)]
pub enum Refusal {
    // 1: no axes, or more than four
    AxisCount,
    // 2: an axis of fewer than four points, or a buffer whose length disagrees
    DimensionMismatch,
    // 3: more than 16,777,216 points
    TooManyPoints,
    // 4: scratch is shorter than twice the longest axis
    ScratchTooSmall,
    // 5: a knot not above the one before it, or a step not above zero
    NotIncreasing,
    // 6: a query whose cell cannot be represented
    Unrepresentable,
    // 7: no such axis or line
    NoSuchLine,
    // 8: the line is solved already
    AlreadySolved,
    // 9: the line is not due yet
    NotDue,
}

impl Refusal {
    // Called by name and no `From`, so that it is plain which number is meant.
    pub fn number(self) -> u64
        ensures { result ≡ refusal_number self }
    {
        match self {
            Refusal::AxisCount => 1,
            Refusal::DimensionMismatch => 2,
            Refusal::TooManyPoints => 3,
            Refusal::ScratchTooSmall => 4,
            Refusal::NotIncreasing => 5,
            Refusal::Unrepresentable => 6,
            Refusal::NoSuchLine => 7,
            Refusal::AlreadySolved => 8,
            Refusal::NotDue => 9,
        }
    }
}

// The number that a call answers: 0 where it was accepted. A function, since neither type is this crate's.
pub fn answer_number(answer: Result<(), Refusal>) -> u64
    ensures { result ≡ answer_number answer }
{
    match answer {
        Ok(()) => 0,
        Err(refusal) => refusal.number(),
    }
}
