// A render that the table accepts, on the bytes of its slot.
ghost use Rattle.std.specs.Prelude.{◌≡◌, ◌<◌, length, Float, List};
ghost use Rattle.noise.specs.Buffers.{held, IsAlike, IsSame};
ghost use Rattle.slots.specs.Answers.{number_of, counts_of};
ghost use Rattle.slots.specs.Slots.{slot_at};
ghost use Rattle.slots.specs.Calls.{render};
ghost use Rattle.bank.specs.World.{Ready};
ghost use Rattle.slot_bytes.specs.Layout.{decode_bank};
ghost use Rattle.bank_abi.specs.Crossing.{bad_bytes, Wrote, Gives};

use noise::buffers::Buffers;
use noise::excitation::{Knobs, Rendered};
use slots::answers::Answer;
use slots::slots::Kind;

// What a render gives beside the voice, which stands in the bytes.
pub type Drawn = Rendered<()>;

// A string's render: its voice alone is decoded.
// The bytes are a slice, as C hands them, so their length is asked here, in `render_modal` and in `render`.
// It and `render_modal` are no generic one: each decodes, lends and asks for something else. Each is a function of its own, whose loop has all registers.
#[inline(never)]
fn render_string(
    bytes: &mut [u8],
    lines: &mut [f32],
    word: u32,
    slot: usize,
    k: Knobs,
    b: &mut Buffers,
) -> Drawn
    requires { ((slot_at (decode_bank bytes.old) slot).kind ≡ 1) × Ready (slot_at (decode_bank bytes.old) slot) lines.old slot b.old.out.now
        × IsAlike b.old × (length bytes.old ≡ 3144) }
    ensures wrote { Wrote (record { bytes = bytes.old; word = word; mem = lines.old }) (record {
      slot = slot;
      act = render k (held b.old);
    }) (record {
      number = 0;
      counts = result.counts;
      after = record { bytes = bytes.new; word = result.word; mem = lines.new };
      bufs = held b.new;
    }) }
    ensures same { IsSame b.new b.old }
{
    let voice = slot_bytes::decode::string_nth(bytes, slot);
    let r = bank::acts::render_string(voice, lines, word, slot, k, b);
    slot_bytes::encode::put_nth(bytes, slot, r.voice);
    r.with(())
}

// A modal voice's render: its slot is decoded whole, the string's words being few beside its own.
#[inline(never)]
#[tactic(auto, using(crate::proofs::Crosses::wrote))]
fn render_modal(
    around: bool,
    bytes: &mut [u8],
    word: u32,
    slot: usize,
    k: Knobs,
    b: &mut Buffers,
) -> Drawn
    requires { ((slot_at (decode_bank bytes.old) slot).kind ≡ 2) × (slot < 8) × IsAlike b.old × (length bytes.old ≡ 3144) }
    ensures wrote { (mem : List Float) → Wrote (record { bytes = bytes.old; word = word; mem = mem }) (record {
      slot = slot;
      act = render k (held b.old);
    }) (record {
      number = 0;
      counts = result.counts;
      after = record { bytes = bytes.new; word = result.word; mem = mem };
      bufs = held b.new;
    }) }
    ensures same { IsSame b.new b.old }
{
    let x = slot_bytes::decode::nth(bytes, slot);
    let after = bank::acts::render_modal(around, x, word, slot, k, b);
    slot_bytes::encode::put_nth(bytes, slot, after.voice);
    after.with(())
}

// A render, by the slot's kind: the number in the slot's bytes, which may hold any, so it is no `Kind`.
pub fn render(
    around: bool,
    kind: u32,
    bytes: &mut [u8],
    lines: &mut [f32],
    word: u32,
    slot: usize,
    k: Knobs,
    b: &mut Buffers,
) -> Drawn
    requires { (kind ≡ (slot_at (decode_bank bytes.old) slot).kind) × Ready (slot_at (decode_bank bytes.old) slot) lines.old slot b.old.out.now
        × IsAlike b.old × (length bytes.old ≡ 3144) }
    ensures wrote { Wrote (record { bytes = bytes.old; word = word; mem = lines.old }) (record {
      slot = slot;
      act = render k (held b.old);
    }) (record {
      number = 0;
      counts = result.counts;
      after = record { bytes = bytes.new; word = result.word; mem = lines.new };
      bufs = held b.new;
    }) }
    ensures same { IsSame b.new b.old }
{
    if kind == Kind::String as u32 {
        return render_string(bytes, lines, word, slot, k, b);
    }
    render_modal(around, bytes, word, slot, k, b)
}

// A render's answer, and the generator's word behind it.
#[derive(Clone, Copy)]
pub struct Reply {
    pub word: u32,
    pub answer: Answer,
}

// A render, by the table's word; `bad` says whether number 1 applies.
// Inlined: as a call of its own it takes some 2 % of a string's render of 24 frames, its answer going through memory.
#[inline(always)]
pub fn answered(
    around: bool,
    bad: bool,
    bytes: &mut [u8],
    lines: &mut [f32],
    word: u32,
    slot: usize,
    k: Knobs,
    b: &mut Buffers,
) -> Reply
    requires { bad ≡ bad_bytes bytes.old lines.old }
    ensures gives { Gives (record { bytes = bytes.old; word = word; mem = lines.old }) (record {
      slot = slot;
      act = render k (held b.old);
    }) (record {
      number = number_of result.answer;
      counts = counts_of result.answer;
      after = record { bytes = bytes.new; word = result.word; mem = lines.new };
      bufs = held b.new;
    }) }
    ensures same { IsSame b.new b.old }
{
    let kind = crate::table::kind_at(bytes, slot);
    match slots::table::check_lent(bad, slot, kind, k, b) {
        Err(reason) => Reply {
            word,
            answer: Err(reason),
        },
        Ok(()) => {
            let r = render(around, kind, bytes, lines, word, slot, k, b);
            Reply {
                word: r.word,
                answer: Ok(r.counts),
            }
        }
    }
}
