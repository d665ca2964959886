// A sheet played on a bank.
ghost use Rattle.std.specs.Float.{binary32};
ghost use Rattle.std.specs.Float.Ieee.{fits};
ghost use Rattle.std.specs.Prelude.{T, ◌≡◌, ℕ, ◌≤◌, List, length, Ok, set, replicate, false};
ghost use Rattle.ground.specs.Each.{Each};
ghost use Rattle.ground.specs.Frames.{over};
ghost use Rattle.noise.specs.Excitation.{Alike};
ghost use Rattle.noise.specs.Buffers.{held, IsSame};
ghost use Rattle.slots.specs.Calls.{render};
ghost use Rattle.slots.specs.Table.{bad};
ghost use Rattle.bank.specs.World.{left_of, call_def};
ghost use Rattle.player.specs.Sheet.{AreF32, cue_of, cues, sheet_verdict};
ghost use Rattle.player.specs.Play.{told_of, refused_answers, turn, play_def, bank_move};

use crate::sheet::{Event, check_sheet, knobs_of, until};
use bank::calls::Rendered;
use noise::buffers::Buffers;
use noise::excitation::Knobs;
use slots::answers::{Answer, NO_COUNTS, Reason, counts_of, number_of};
use slots::slots::Bank;

// An event's answer, as C has it: the number and the counts of its render.
#[repr(C)]
#[derive(Clone, Copy)]
pub struct Told {
    pub number: u32,
    pub burst: usize,
    pub dust: usize,
    pub dispersion: usize,
}

// The generator's word and the bank after a sheet, and the sheet's number.
#[derive(Clone, Copy)]
pub struct Played {
    pub number: u32,
    pub word: u32,
    pub bank: Bank,
}

pub fn told_of(answer: Answer) -> Told
    ensures { result ≡ told_of answer }
{
    let c = counts_of(answer);
    Told {
        number: number_of(answer),
        burst: c.burst,
        dust: c.dust,
        dispersion: c.dispersion,
    }
}

// One answer in all places.
pub fn tell_all(t: Told, answers: &mut [Told])
    ensures { answers.new ≡ replicate (length answers.old) t }
{
    answers.fill(t);
}

// Where a sheet is refused whole, each answer is its number.
pub fn refuse(reason: Reason, answers: &mut [Told])
    ensures { answers.new ≡ refused_answers reason answers.old }
{
    if answers.len() == 64 {
        tell_all(told_of(Err(reason)), answers);
    }
}

// `bank::calls::render` into four buffers that are lent one by one: what is cut out of a slice goes back from a variable alone.
fn render_into(
    bank: Bank,
    lines: &mut [f32],
    word: u32,
    slot: usize,
    k: Knobs,
    temp: &mut [f32],
    temp_2: &mut [f32],
    out: &mut [f32],
    aux: &mut [f32],
) -> Rendered
    ensures left { left_of (call_def (record { bank = bank; word = word; mem = lines.old }) (record {
      slot = slot;
      act = render k (record { temp = temp.old; temp2 = temp_2.old; out = out.old; aux = aux.old });
    })) ≡ record {
      answer = result.answer;
      after = record { bank = result.bank; word = result.word; mem = lines.new };
      bufs = record { temp = temp.new; temp2 = temp_2.new; out = out.new; aux = aux.new };
    } }
    ensures given { T (fits binary32 k.structure) }
{
    let mut b = Buffers {
        temp,
        temp_2,
        out,
        aux,
    };
    bank::calls::render(bank, lines, word, slot, k, &mut b)
}

// An event's render, on its frames of four buffers.
fn render_in(
    bank: Bank,
    lines: &mut [f32],
    word: u32,
    e: Event,
    to: usize,
    temp: &mut [f32],
    temp_2: &mut [f32],
    out: &mut [f32],
    aux: &mut [f32],
) -> Rendered
    requires { (e.frame ≤ to) × (to ≤ length temp.old) × Alike temp.old temp_2.old out.old aux.old }
    ensures turned { (place : ℕ) (ts : List Told) → turn bank_move (record {
      world = record { bank = bank; word = word; mem = lines.old };
      bufs = record { temp = temp.old; temp2 = temp_2.old; out = out.old; aux = aux.old };
      answers = ts;
    }) (cue_of place e to) ≡ record {
      world = record { bank = result.bank; word = result.word; mem = lines.new };
      bufs = record { temp = temp.new; temp2 = temp_2.new; out = out.new; aux = aux.new };
      answers = set ts place (told_of result.answer);
    } }
    ensures given { AreF32 e }
{
    let from = e.frame as usize;
    render_into(
        bank,
        lines,
        word,
        e.slot as usize,
        knobs_of(e),
        &mut temp[from..to],
        &mut temp_2[from..to],
        &mut out[from..to],
        &mut aux[from..to],
    )
}

// The events' turns, on answers that are all 0.
fn play_all(
    bank: Bank,
    lines: &mut [f32],
    word: u32,
    sheet: &[Event],
    answers: &mut [Told],
    b: &mut Buffers,
) -> Played
    requires { sheet_verdict false sheet.now (length answers.old) (held b.old) ≡ Ok tt }
    ensures turned { over (turn bank_move) (record {
      world = record { bank = bank; word = word; mem = lines.old };
      bufs = held b.old;
      answers = answers.old;
    }) (cues (length b.old.temp.now) sheet.now) ≡ record {
      world = record { bank = result.bank; word = result.word; mem = lines.new };
      bufs = held b.new;
      answers = answers.new;
    } }
    ensures number { result.number ≡ 0 }
    ensures given { Each AreF32 sheet.now }
    ensures same { IsSame b.new b.old }
{
    let n = b.temp.len();
    let mut bank = bank;
    let mut word = word;
    for i in 0..sheet.len() {
        let e = sheet[i];
        let to = until(n, e.slot, &sheet[i + 1..]);
        let r = render_in(bank, lines, word, e, to, b.temp, b.temp_2, b.out, b.aux);
        answers[i] = told_of(r.answer);
        bank = r.bank;
        word = r.word;
    }
    Played {
        number: 0,
        word,
        bank,
    }
}

// A sheet is played, or refused whole.
pub fn play(
    bank: Bank,
    lines: &mut [f32],
    word: u32,
    sheet: &[Event],
    answers: &mut [Told],
    b: &mut Buffers,
) -> Played
    ensures left { play_def bank_move (bad bank lines.old) sheet.now (record {
      world = record { bank = bank; word = word; mem = lines.old };
      bufs = held b.old;
      answers = answers.old;
    }) ≡ (
      result.number,
      record {
        world = record { bank = result.bank; word = result.word; mem = lines.new };
        bufs = held b.new;
        answers = answers.new;
      },
    ) }
    ensures given { result.number ≡ 0 → Each AreF32 sheet.now }
    ensures same { IsSame b.new b.old }
{
    let bad = slots::table::bad(bank, lines);
    match check_sheet(bad, sheet, answers.len(), b) {
        Err(reason) => {
            refuse(reason, answers);
            Played {
                number: u32::from(reason),
                word,
                bank,
            }
        }
        Ok(()) => {
            tell_all(told_of(Ok(NO_COUNTS)), answers);
            play_all(bank, lines, word, sheet, answers, b)
        }
    }
}
