// A sheet on the bytes of a bank.
ghost use Rattle.std.specs.Prelude.{◌≡◌, ℕ, ◌≤◌, List, length, Ok, set, false};
ghost use Rattle.noise.specs.Excitation.{Alike};
ghost use Rattle.noise.specs.Buffers.{held, IsSame};
ghost use Rattle.slots.specs.Answers.{number_of, counts_of};
ghost use Rattle.slots.specs.Calls.{render};
ghost use Rattle.player.specs.declared.play.Told.{Told};
ghost use Rattle.player.specs.Sheet.{AreF32, cue_of, sheet_verdict};
ghost use Rattle.player.specs.Play.{told_of};
ghost use Rattle.bank_abi.specs.Crossing.{bad_bytes, Gives};
ghost use Rattle.bank_abi.specs.Sheets.{Turned, AllTurned};

use crate::voices::Reply;
use noise::buffers::Buffers;
use noise::excitation::Knobs;
use player::play::{Told, told_of};
use player::sheet::{Event, knobs_of, until};

// A render into four buffers that are lent one by one, where number 1 does not apply: what is cut out of a slice goes back from a variable alone.
fn render_into(
    around: bool,
    bytes: &mut [u8],
    lines: &mut [f32],
    word: u32,
    slot: usize,
    k: Knobs,
    temp: &mut [f32],
    temp_2: &mut [f32],
    out: &mut [f32],
    aux: &mut [f32],
) -> Reply
    requires { bad_bytes bytes.old lines.old ≡ false }
    ensures { Gives (record { bytes = bytes.old; word = word; mem = lines.old }) (record {
      slot = slot;
      act = render k (record { temp = temp.old; temp2 = temp_2.old; out = out.old; aux = aux.old });
    }) (record {
      number = number_of result.answer;
      counts = counts_of result.answer;
      after = record { bytes = bytes.new; word = result.word; mem = lines.new };
      bufs = record { temp = temp.new; temp2 = temp_2.new; out = out.new; aux = aux.new };
    }) }
{
    let mut b = Buffers {
        temp,
        temp_2,
        out,
        aux,
    };
    crate::voices::answered(around, false, bytes, lines, word, slot, k, &mut b)
}

// An event's render, on its frames of four buffers.
fn render_in(
    around: bool,
    bytes: &mut [u8],
    lines: &mut [f32],
    word: u32,
    e: Event,
    to: usize,
    temp: &mut [f32],
    temp_2: &mut [f32],
    out: &mut [f32],
    aux: &mut [f32],
) -> Reply
    requires { (bad_bytes bytes.old lines.old ≡ false) × (e.frame ≤ to) × (to ≤ length temp.old) × Alike temp.old temp_2.old out.old aux.old }
    ensures turned { (place : ℕ) (ts : List Told) → Turned (record {
      world = record { bytes = bytes.old; word = word; mem = lines.old };
      bufs = record { temp = temp.old; temp2 = temp_2.old; out = out.old; aux = aux.old };
      answers = ts;
    }) (cue_of place e to) (record {
      world = record { bytes = bytes.new; word = result.word; mem = lines.new };
      bufs = record { temp = temp.new; temp2 = temp_2.new; out = out.new; aux = aux.new };
      answers = set ts place (told_of result.answer);
    }) }
    ensures given { AreF32 e }
{
    let from = e.frame as usize;
    render_into(
        around,
        bytes,
        lines,
        word,
        e.slot as usize,
        knobs_of(e),
        &mut temp[from..to],
        &mut temp_2[from..to],
        &mut out[from..to],
        &mut aux[from..to],
    )
}

// The events' turns, on bytes that are good; it gives the generator's word.
#[inline(never)]
pub fn play_all(
    around: bool,
    bytes: &mut [u8],
    lines: &mut [f32],
    word: u32,
    sheet: &[Event],
    answers: &mut [Told],
    b: &mut Buffers,
) -> u32
    requires { (sheet_verdict false sheet.now (length answers.old) (held b.old) ≡ Ok tt) × (bad_bytes bytes.old lines.old ≡ false) }
    ensures turned { AllTurned (record {
      world = record { bytes = bytes.old; word = word; mem = lines.old };
      bufs = held b.old;
      answers = answers.old;
    }) sheet.now (record {
      world = record { bytes = bytes.new; word = result; mem = lines.new };
      bufs = held b.new;
      answers = answers.new;
    }) }
    ensures same { IsSame b.new b.old }
{
    let n = b.temp.len();
    let mut word = word;
    for i in 0..sheet.len() {
        let e = sheet[i];
        let to = until(n, e.slot, &sheet[i + 1..]);
        let r = render_in(
            around, bytes, lines, word, e, to, b.temp, b.temp_2, b.out, b.aux,
        );
        answers[i] = told_of(r.answer);
        word = r.word;
    }
    word
}
