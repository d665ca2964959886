// What a call answers: the words that it drew, or why it was refused.
ghost use Rattle.std.specs.Prelude.{◌≡◌};
ghost use Rattle.slots.specs.Answers.{knob_number, buffer_number, reason_number, number_of, counts_of};

use noise::excitation::Counts;

// A knob, by 01's number.
#[derive(Clone, Copy)]
pub enum Knob {
    F0 = 9,
    Accent = 10,
    Structure = 11,
    Brightness = 12,
    Damping = 13,
}

// A buffer that is to have temp's length, by its number in the table.
#[derive(Clone, Copy)]
pub enum Buffer {
    Temp2 = 7,
    Out = 17,
    Aux = 18,
}

#[derive(Clone, Copy)]
pub enum Reason {
    Memory,
    NoSlot,
    Kind,
    SampleRate,
    Empty,
    NoReset,
    Length(Buffer),
    TooLong,
    OutOfRange(Knob),
    TooMany,
    OutOfOrder,
    PastEnd,
}

// What the table says of a call.
pub type Verdict = Result<(), Reason>;

pub type Answer = Result<Counts, Reason>;

// The counts of a call that draws nothing: a const has the name that the contracts say, which a `default()` has not.
pub const NO_COUNTS: Counts = Counts {
    burst: 0,
    dust: 0,
    dispersion: 0,
};

impl From<Knob> for u32 {
    ghost from_gives = { λ knob n. n ≡ knob_number knob };

    fn from(knob: Knob) -> u32 {
        knob as u32
    }
}

impl From<Buffer> for u32 {
    ghost from_gives = { λ buffer n. n ≡ buffer_number buffer };

    fn from(buffer: Buffer) -> u32 {
        buffer as u32
    }
}

impl From<Reason> for u32 {
    ghost from_gives = { λ reason n. n ≡ reason_number reason };

    fn from(reason: Reason) -> u32 {
        match reason {
            Reason::Memory => 1,
            Reason::NoSlot => 2,
            Reason::Kind => 3,
            Reason::SampleRate => 4,
            Reason::Empty => 5,
            Reason::NoReset => 6,
            Reason::Length(buffer) => u32::from(buffer),
            Reason::TooLong => 8,
            Reason::OutOfRange(knob) => u32::from(knob),
            Reason::TooMany => 14,
            Reason::OutOfOrder => 15,
            Reason::PastEnd => 16,
        }
    }
}

// 01's number: 0 where the call was accepted. An `Answer` is std's `Result`, which takes no `From` of this crate's own.
pub fn number_of(answer: Answer) -> u32
    ensures { result ≡ number_of answer }
{
    match answer {
        Ok(_) => 0,
        Err(reason) => u32::from(reason),
    }
}

// The three counts: zeros where the call was refused. It is no `From` for the same reason.
pub fn counts_of(answer: Answer) -> Counts
    ensures { result ≡ counts_of answer }
{
    answer.unwrap_or(NO_COUNTS)
}
