// An accepted call on one slot: the slot goes in and comes back by value, its lines are a part of the whole line memory lent.
ghost use Rattle.std.specs.Prelude.{◌≡◌, ℕ, ◌<◌, List, length, Float};
ghost use Rattle.slots.specs.Answers.{no_counts};
ghost use Rattle.slots.specs.Calls.{opening, reset, render, lent};
ghost use Rattle.noise.specs.Buffers.{held, IsAlike, IsSame};
ghost use Rattle.bank.specs.World.{acted, Ready, ReadyString};

use noise::buffers::Buffers;
use noise::excitation::{Knobs, Rendered};
use slots::slots::{Kind, Slot};
use string_voice::string_voice::StringVoice;

// The line memory of a slot. Its part is cut at each call, since a function that lent it on could say what it leaves only by a starred clause.
const LINES: usize = 1280;

// An opening, whatever the slot held. A caller may hand any number past 0 for `kind`, and a `Kind` would ask more.
// Slot, kind and rate are told apart by the definition, as `opening kind` and a slot: a struct of them would be made in every caller for one call.
// Lines are a slice whose length is asked, as C hands them, and belong to no slot alone.
pub fn open(lines: &mut [f32], slot: usize, kind: u32, sample_rate_hz: f32) -> Slot
    requires { (slot < 8) × (length lines.old ≡ 10240) × (0 < kind) }
    ensures { (x : Slot) (w : ℕ) → acted (opening kind sample_rate_hz) slot x w lines.old
        ≡ record { slot = result; word = w; mem = lines.new; bufs = lent (opening kind sample_rate_hz); counts = no_counts } }
{
    slots::slots::opened(
        kind,
        sample_rate_hz,
        &mut lines[LINES * slot..LINES * slot + LINES],
    )
}

// A reset of a string's voice.
pub fn reset_string(voice: StringVoice, lines: &mut [f32], slot: usize) -> StringVoice
    requires { (slot < 8) × (length lines.old ≡ 10240) }
    ensures { (x : Slot) (w : ℕ) → x.string ≡ voice → acted reset slot x w lines.old
        ≡ record { slot = record x { string = result }; word = w; mem = lines.new; bufs = lent reset; counts = no_counts } }
{
    voice.reset(&mut lines[LINES * slot..LINES * slot + LINES])
}

// A reset of a string.
pub fn reset(x: Slot, lines: &mut [f32], slot: usize) -> Slot
    requires { (slot < 8) × (length lines.old ≡ 10240) }
    ensures { (w : ℕ) → acted reset slot x w lines.old
        ≡ record { slot = result; word = w; mem = lines.new; bufs = lent reset; counts = no_counts } }
{
    Slot {
        string: reset_string(x.string, lines, slot),
        ..x
    }
}

// A render of a string's voice. `IsAlike` is no invariant of `Buffers`, since a call may lend buffers of any lengths.
// Word, slot and knobs are told apart by the definition, as `render k`, a slot and a word: a struct of them would be made in every caller for one call.
// They go beside the buffers, since a proof does not follow a struct that holds a loan and is passed on whole.
#[tactic(auto, using(crate::proofs::Places::good_part))]
pub fn render_string(
    voice: StringVoice,
    lines: &mut [f32],
    word: u32,
    slot: usize,
    k: Knobs,
    b: &mut Buffers,
) -> Rendered<StringVoice>
    requires { ReadyString voice lines.old slot b.old.out.now × IsAlike b.old }
    ensures moved { (x : Slot) → x.kind ≡ 1 → x.string ≡ voice → acted (render k (held b.old)) slot x word lines.old ≡ record {
      slot = record x { string = result.voice };
      word = result.word;
      mem = lines.new;
      bufs = held b.new;
      counts = result.counts;
    } }
    ensures same { IsSame b.new b.old }
{
    let part = &mut lines[LINES * slot..LINES * slot + LINES];
    voice.render(k, part, b, word)
}

// A render of a modal voice, which has no lines; `around` subnormal products or not.
pub fn render_modal(
    around: bool,
    x: Slot,
    word: u32,
    slot: usize,
    k: Knobs,
    b: &mut Buffers,
) -> Rendered<Slot>
    requires { (x.kind ≡ 2) × IsAlike b.old }
    ensures moved { (mem : List Float) → acted (render k (held b.old)) slot x word mem ≡ record {
      slot = result.voice;
      word = result.word;
      mem = mem;
      bufs = held b.new;
      counts = result.counts;
    } }
    ensures same { IsSame b.new b.old }
{
    let m = x.modal.render(around, k, b, word);
    m.with(Slot {
        modal: m.voice,
        ..x
    })
}

// A render, by the slot's kind.
pub fn render(
    around: bool,
    x: Slot,
    lines: &mut [f32],
    word: u32,
    slot: usize,
    k: Knobs,
    b: &mut Buffers,
) -> Rendered<Slot>
    requires { Ready x lines.old slot b.old.out.now × IsAlike b.old }
    ensures moved { acted (render k (held b.old)) slot x word lines.old ≡ record {
      slot = result.voice;
      word = result.word;
      mem = lines.new;
      bufs = held b.new;
      counts = result.counts;
    } }
    ensures same { IsSame b.new b.old }
{
    if x.kind != Kind::String as u32 {
        return render_modal(around, x, word, slot, k, b);
    }
    let s = render_string(x.string, lines, word, slot, k, b);
    s.with(Slot {
        string: s.voice,
        ..x
    })
}
