// The calls of the bank: any bank, any lengths, any numbers.
ghost use Rattle.std.specs.Prelude.{◌≡◌, ℕ};
ghost use Rattle.noise.specs.Buffers.{held, IsSame};
ghost use Rattle.slots.specs.Calls.{opening, reset, render, InF32, lent};
ghost use Rattle.bank.specs.World.{left_of, call_def};

use noise::buffers::Buffers;
use noise::excitation::Knobs;
use slots::answers::{Answer, NO_COUNTS};
use slots::slots::Bank;

// The bank after an opening or a reset, and the answer. Neither draws anything, so it has no word and is no `Rendered`.
#[derive(Clone, Copy)]
pub struct Opened {
    pub bank: Bank,
    pub answer: Answer,
}

// The generator's word and the bank after a render, and the answer.
#[derive(Clone, Copy)]
pub struct Rendered {
    pub word: u32,
    pub bank: Bank,
    pub answer: Answer,
}

// A slot is opened with a voice of the kind, and its lines are cleared. A caller may hand any number for a kind, and the table tells.
#[tactic(auto, using(crate::proofs::Accepted::taken, crate::proofs::Moves::accepted_left))]
pub fn open(bank: Bank, lines: &mut [f32], slot: usize, kind: u32, sample_rate_hz: f32) -> Opened
    ensures { (w : ℕ) → left_of (call_def (record { bank = bank; word = w; mem = lines.old }) (record { slot = slot; act = opening kind sample_rate_hz }))
        ≡ record { answer = result.answer; after = record { bank = result.bank; word = w; mem = lines.new }; bufs = lent (opening kind sample_rate_hz) } }
{
    let bad = slots::table::bad(bank, lines);
    match slots::table::check_open(bad, slot, kind, sample_rate_hz) {
        Err(reason) => Opened {
            bank,
            answer: Err(reason),
        },
        Ok(()) => {
            let x = crate::acts::open(lines, slot, kind, sample_rate_hz);
            Opened {
                bank: bank.with_slot(slot, x),
                answer: Ok(NO_COUNTS),
            }
        }
    }
}

// A string slot is reset, and its lines are cleared.
#[tactic(auto, using(crate::proofs::Accepted::taken, crate::proofs::Moves::accepted_left))]
pub fn reset(bank: Bank, lines: &mut [f32], slot: usize) -> Opened
    ensures { (w : ℕ) → left_of (call_def (record { bank = bank; word = w; mem = lines.old }) (record { slot = slot; act = reset }))
        ≡ record { answer = result.answer; after = record { bank = result.bank; word = w; mem = lines.new }; bufs = lent reset } }
{
    let bad = slots::table::bad(bank, lines);
    let held = bank.kind_at(slot);
    match slots::table::check_reset(bad, slot, held) {
        Err(reason) => Opened {
            bank,
            answer: Err(reason),
        },
        Ok(()) => {
            let x = bank.slot_at(slot);
            let y = crate::acts::reset(x, lines, slot);
            Opened {
                bank: bank.with_slot(slot, y),
                answer: Ok(NO_COUNTS),
            }
        }
    }
}

// A block of a slot's voice into the buffers.
#[tactic(auto, using(crate::proofs::Accepted::taken, crate::proofs::Moves::accepted_left))]
pub fn render(
    bank: Bank,
    lines: &mut [f32],
    word: u32,
    slot: usize,
    k: Knobs,
    b: &mut Buffers,
) -> Rendered
    ensures left { left_of (call_def (record { bank = bank; word = word; mem = lines.old }) (record {
      slot = slot;
      act = render k (held b.old);
    })) ≡ record {
      answer = result.answer;
      after = record { bank = result.bank; word = result.word; mem = lines.new };
      bufs = held b.new;
    } }
    ensures given { InF32 (render k (held b.old)) }
    ensures same { IsSame b.new b.old }
{
    let bad = slots::table::bad(bank, lines);
    let held = bank.kind_at(slot);
    match slots::table::check_lent(bad, slot, held, k, b) {
        Err(reason) => Rendered {
            bank,
            word,
            answer: Err(reason),
        },
        Ok(()) => {
            let x = bank.slot_at(slot);
            let r = crate::acts::render(true, x, lines, word, slot, k, b);
            let after = bank.with_slot(slot, r.voice);
            Rendered {
                bank: after,
                word: r.word,
                answer: Ok(r.counts),
            }
        }
    }
}
