// The bank's calls with C linkage. The bank crosses as bytes, by the layout of docs/ABI.md; the answer is 01's number, returned, and three counts.
#![tactic(auto)]

ghost use Rattle.std.specs.Prelude.{◌≡◌, ℕ, length};
ghost use Rattle.slots.specs.Slots.{fresh_bank};
ghost use Rattle.slots.specs.Answers.{no_counts};
ghost use Rattle.slots.specs.Calls.{opening, reset, render, lent};
ghost use Rattle.slot_bytes.specs.Layout.{encode_bank};
ghost use Rattle.bank_abi.specs.Crossing.{fresh_def, Gives};
ghost use Rattle.bank_abi.specs.Sheets.{GivesSheet};

pub mod sheets;
pub mod table;
pub mod voices;

use noise::buffers::Buffers;
use noise::excitation::Knobs;
use player::play::{Told, refuse, tell_all, told_of};
use player::sheet::{Event, check_sheet};
use slots::answers::{NO_COUNTS, Reason, counts_of, number_of};

// The length of a bank in bytes.
#[tactic(auto, using(crate::proofs::Zeros::fresh_zeros))]
#[unsafe(no_mangle)]
pub extern "C" fn bleidhvan_bank_bytes() -> usize
    ensures { result ≡ length (encode_bank fresh_bank) }
{
    3144
}

// The bytes become a fresh bank, every slot of it empty; bytes of another length stay as they are, and the answer is 1.
#[tactic(auto, unfolding(crate::specs::Crossing::fresh_def), using(crate::proofs::Zeros::made_fresh))]
#[unsafe(no_mangle)]
pub extern "C" fn bleidhvan_fresh(bytes: &mut [u8]) -> u32
    ensures { (result, bytes.new) ≡ fresh_def bytes.old }
{
    if bytes.len() != 3144 {
        return u32::from(Reason::Memory);
    }
    bytes.fill(0);
    0
}

// A slot is opened with a voice of the kind, and its lines are cleared. An opening draws nothing: its counts are 0.
// A caller in C may hand any number for a kind, and the table tells.
#[unsafe(no_mangle)]
pub extern "C" fn bleidhvan_open(
    bytes: &mut [u8],
    lines: &mut [f32],
    slot: usize,
    kind: u32,
    sample_rate_hz: f32,
) -> u32
    ensures { (w : ℕ) → Gives (record { bytes = bytes.old; word = w; mem = lines.old }) (record { slot = slot; act = opening kind sample_rate_hz }) (record {
      number = result;
      counts = no_counts;
      after = record { bytes = bytes.new; word = w; mem = lines.new };
      bufs = lent (opening kind sample_rate_hz);
    }) }
{
    let bad = crate::table::bad(bytes, lines);
    match slots::table::check_open(bad, slot, kind, sample_rate_hz) {
        Err(reason) => u32::from(reason),
        Ok(()) => {
            let x = bank::acts::open(lines, slot, kind, sample_rate_hz);
            slot_bytes::encode::put_nth(bytes, slot, x);
            0
        }
    }
}

// A string slot is reset, and its lines are cleared. A reset draws nothing: its counts are 0.
#[unsafe(no_mangle)]
pub extern "C" fn bleidhvan_reset(bytes: &mut [u8], lines: &mut [f32], slot: usize) -> u32
    ensures { (w : ℕ) → Gives (record { bytes = bytes.old; word = w; mem = lines.old }) (record { slot = slot; act = reset }) (record {
      number = result;
      counts = no_counts;
      after = record { bytes = bytes.new; word = w; mem = lines.new };
      bufs = lent reset;
    }) }
{
    let bad = crate::table::bad(bytes, lines);
    let kind = crate::table::kind_at(bytes, slot);
    match slots::table::check_reset(bad, slot, kind) {
        Err(reason) => u32::from(reason),
        Ok(()) => {
            let voice = slot_bytes::decode::string_nth(bytes, slot);
            let after = bank::acts::reset_string(voice, lines, slot);
            slot_bytes::encode::put_nth(bytes, slot, after);
            0
        }
    }
}

// A block of a slot's voice into the buffers; the generator's word is lent, and the counts are written.
// `slow_subnormals` says whether the processor takes long over subnormal numbers, and changes no bit.
// Knobs, buffers and counts go one by one, as C passes them.
#[unsafe(no_mangle)]
pub extern "C" fn bleidhvan_render(
    bytes: &mut [u8],
    lines: &mut [f32],
    word: &mut u32,
    slot: usize,
    sustain: bool,
    trigger: bool,
    accent: f32,
    f0: f32,
    structure: f32,
    brightness: f32,
    damping: f32,
    temp: &mut [f32],
    temp_2: &mut [f32],
    out: &mut [f32],
    aux: &mut [f32],
    burst: &mut usize,
    dust: &mut usize,
    dispersion: &mut usize,
    slow_subnormals: bool,
) -> u32
    ensures { Gives (record { bytes = bytes.old; word = word.old; mem = lines.old }) (record {
      slot = slot;
      act = render
          (record { sustain = sustain; trigger = trigger; accent = accent; f0 = f0; structure = structure; brightness = brightness; damping = damping })
          (record { temp = temp.old; temp2 = temp_2.old; out = out.old; aux = aux.old });
    }) (record {
      number = result;
      counts = record { burst = burst.new; dust = dust.new; dispersion = dispersion.new };
      after = record { bytes = bytes.new; word = word.new; mem = lines.new };
      bufs = record { temp = temp.new; temp2 = temp_2.new; out = out.new; aux = aux.new };
    }) }
{
    let k = Knobs {
        sustain,
        trigger,
        accent,
        f0,
        structure,
        brightness,
        damping,
    };
    let mut b = Buffers {
        temp,
        temp_2,
        out,
        aux,
    };
    let bad = crate::table::bad(bytes, lines);
    let r = crate::voices::answered(slow_subnormals, bad, bytes, lines, *word, slot, k, &mut b);
    let counts = counts_of(r.answer);
    *word = r.word;
    *burst = counts.burst;
    *dust = counts.dust;
    *dispersion = counts.dispersion;
    number_of(r.answer)
}

// A sheet of events into the buffers: each event's render, in the sheet's order; the generator's word is lent, and the answers are written.
// Number 1 is asked once for the sheet, and only the slots that events name are decoded.
#[unsafe(no_mangle)]
pub extern "C" fn bleidhvan_play(
    bytes: &mut [u8],
    lines: &mut [f32],
    word: &mut u32,
    sheet: &[Event],
    answers: &mut [Told],
    temp: &mut [f32],
    temp_2: &mut [f32],
    out: &mut [f32],
    aux: &mut [f32],
    slow_subnormals: bool,
) -> u32
    ensures { GivesSheet (record {
      world = record { bytes = bytes.old; word = word.old; mem = lines.old };
      bufs = record { temp = temp.old; temp2 = temp_2.old; out = out.old; aux = aux.old };
      answers = answers.old;
    }) sheet.now (
      result,
      record {
        world = record { bytes = bytes.new; word = word.new; mem = lines.new };
        bufs = record { temp = temp.new; temp2 = temp_2.new; out = out.new; aux = aux.new };
        answers = answers.new;
      },
    ) }
{
    let mut b = Buffers {
        temp,
        temp_2,
        out,
        aux,
    };
    let bad = crate::table::bad(bytes, lines);
    match check_sheet(bad, sheet, answers.len(), &b) {
        Err(reason) => {
            refuse(reason, answers);
            u32::from(reason)
        }
        Ok(()) => {
            tell_all(told_of(Ok(NO_COUNTS)), answers);
            *word = crate::sheets::play_all(
                slow_subnormals,
                bytes,
                lines,
                *word,
                sheet,
                answers,
                &mut b,
            );
            0
        }
    }
}
