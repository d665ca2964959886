// The bank's state by value: eight slots, each with a voice of either kind.
ghost use Rattle.std.specs.Prelude.{◌≡◌, ◌<◌};
ghost use Rattle.ground.specs.F32.{c0};
ghost use Rattle.slots.specs.Slots.{Names, no_string, empty_slot, fresh_bank, slot_at, with_slot, opened};

use crate::answers::Reason;
use modal_voice::modal_voice::ModalVoice;
use string_voice::string_voice::StringVoice;
use waveguide::string::String;

// The kind of a voice, by 01's number.
#[derive(Clone, Copy)]
pub enum Kind {
    String = 1,
    Modal = 2,
}

impl TryFrom<u32> for Kind {
    type Error = Reason;

    ghost try_from_gives = { Names };

    fn try_from(kind: u32) -> Result<Kind, Reason> {
        match kind {
            1 => Ok(Kind::String),
            2 => Ok(Kind::Modal),
            _ => Err(Reason::Kind),
        }
    }
}

// A slot. Its kind is a number, for a bank may hold any: 0 is empty, and the table's numbers 1 and 3 tell which are no `Kind`.
#[derive(Clone, Copy)]
pub struct Slot {
    pub kind: u32,
    pub string: StringVoice,
    pub modal: ModalVoice,
}

#[derive(Clone, Copy)]
pub struct Bank {
    pub slots: [Slot; 8],
}

// A string whose every number is 0, and no `None`: a slot's memory has a string in it whatever the slot's kind.
#[tactic(auto, unfolding(crate::specs::Slots::no_string, string_voice::specs::StringVoice::voice_new, waveguide::specs::String::string_new))]
fn no_string() -> StringVoice
    ensures { result ≡ no_string }
{
    let voice = StringVoice::new();
    let string = String {
        sample_rate_hz: 0.0,
        ..voice.string
    };
    StringVoice { string, ..voice }
}

#[tactic(auto, unfolding(crate::specs::Slots::empty_slot))]
fn empty_slot() -> Slot
    ensures { result ≡ empty_slot }
{
    Slot {
        kind: 0,
        string: no_string(),
        modal: ModalVoice::new(),
    }
}

impl Bank {
    // Every slot is empty.
    #[tactic(auto, unfolding(crate::specs::Slots::fresh_bank))]
    pub fn fresh() -> Bank
        ensures { result ≡ fresh_bank }
    {
        let empty = empty_slot();
        Bank { slots: [empty; 8] }
    }

    // `slot < 8` is asked here and in the acts: a caller may hand any slot, and the table has looked at it.
    pub fn slot_at(self, slot: usize) -> Slot
        requires { slot < 8 }
        ensures { result ≡ slot_at self slot }
    {
        self.slots[slot]
    }

    // The kind of a slot; where there is no such slot, 0.
    #[tactic(auto, unfolding(crate::specs::Slots::empty_slot))]
    pub fn kind_at(self, slot: usize) -> u32
        ensures { result ≡ (slot_at self slot).kind }
    {
        self.slots.get(slot).map_or(0, |x| x.kind)
    }

    pub fn with_slot(self, slot: usize, x: Slot) -> Bank
        requires { slot < 8 }
        ensures { result ≡ with_slot self slot x }
    {
        let mut bank = self;
        bank.slots[slot] = x;
        bank
    }
}

// A slot opened with a string, its lines cleared.
#[tactic(auto, unfolding(string_voice::specs::StringVoice::voice_init))]
fn opened_string(sample_rate_hz: f32, lines: &mut [f32]) -> Slot
    ensures { (result, lines.new) ≡ opened 1 sample_rate_hz lines.old }
{
    Slot {
        kind: Kind::String as u32,
        string: StringVoice::new().init(sample_rate_hz, lines),
        modal: ModalVoice::new(),
    }
}

// A slot opened with a modal voice, its lines cleared too.
fn opened_modal(lines: &mut [f32]) -> Slot
    ensures { (result, lines.new) ≡ opened 2 c0 lines.old }
{
    utils::delay_line::reset(lines);
    Slot {
        kind: Kind::Modal as u32,
        string: no_string(),
        modal: ModalVoice::new().init(),
    }
}

// A slot opened with a voice of the kind, its lines cleared. `kind` may be any number past 0, as its definition tells of each.
pub fn opened(kind: u32, sample_rate_hz: f32, lines: &mut [f32]) -> Slot
    requires { 0 < kind }
    ensures { (result, lines.new) ≡ opened kind sample_rate_hz lines.old }
{
    match Kind::try_from(kind) {
        Ok(Kind::String) => opened_string(sample_rate_hz, lines),
        Ok(Kind::Modal) | Err(_) => opened_modal(lines),
    }
}
