// Blocks of each voice, one after the other.
#![tactic(auto)]

ghost use Rattle.std.specs.Prelude.{◌≡◌};
ghost use Rattle.ground.specs.Draw.{run, Ran};
ghost use Rattle.noise.specs.Buffers.{IsAlike};
ghost use Rattle.modal_voice.specs.OneLoop.{Renders};
ghost use Rattle.voices_abi.specs.Blocks.{alike_sizes};
ghost use Rattle.voices_abi.specs.Strings.{sizes_fit, blocks_of};
ghost use Rattle.voices_abi.specs.Modals.{modal_blocks};

use modal_voice::modal_voice::ModalVoice;
use noise::buffers::Buffers;
use noise::excitation::{Knobs, Rendered};
use string_voice::string_voice::StringVoice;

// Whether buffers have one length, which the bank accepts; no crate of the bank stands below this one.
// It is told lengths and no slices: C hands them beside each pointer, and the definition speaks of sizes alone.
fn alike(temp: usize, temp_2: usize, out: usize, aux: usize) -> bool
    ensures { result ≡ alike_sizes temp temp_2 out aux }
{
    (temp == out) & (temp_2 == out) & (aux == out) & (out < 4097)
}

// Whether lines and buffers have a string voice's sizes; it is told lengths for the same reason.
fn fits(lines: usize, temp: usize, temp_2: usize, out: usize, aux: usize) -> bool
    ensures { result ≡ sizes_fit lines temp temp_2 out aux }
{
    (lines == 1280) & alike(temp, temp_2, out, aux)
}

// A new string voice renders the same buffers over and over; gives the generator's word after them.
// Lines and buffers of other sizes than a voice's are left alone. Knobs and buffers go one by one, as C passes them.
#[tactic(auto, using(crate::proofs::Strings::refused))]
#[unsafe(no_mangle)]
pub extern "C" fn strings_render(
    sample_rate_hz: f32,
    sustain: bool,
    trigger: bool,
    accent: f32,
    f0: f32,
    structure: f32,
    brightness: f32,
    damping: f32,
    blocks: usize,
    lines: &mut [f32],
    temp: &mut [f32],
    temp_2: &mut [f32],
    out: &mut [f32],
    aux: &mut [f32],
    word: u32,
) -> u32
    ensures { run (blocks_of sample_rate_hz (record {
      sustain = sustain;
      trigger = trigger;
      accent = accent;
      f0 = f0;
      structure = structure;
      brightness = brightness;
      damping = damping;
    }) blocks lines.old (record { temp = temp.old; temp2 = temp_2.old; out = out.old; aux = aux.old })) word ≡ record {
      value = (lines.new, record { temp = temp.new; temp2 = temp_2.new; out = out.new; aux = aux.new });
      word = result;
    } }
{
    if !fits(lines.len(), temp.len(), temp_2.len(), out.len(), aux.len()) {
        return word;
    }
    let k = Knobs {
        sustain,
        trigger,
        accent,
        f0,
        structure,
        brightness,
        damping,
    };
    let mut b = Buffers {
        temp,
        temp_2,
        out,
        aux,
    };
    let mut voice = StringVoice::new().init(sample_rate_hz, lines);
    let mut drawn = word;
    for _ in 0..blocks {
        let r = voice.render(k, lines, &mut b, drawn);
        voice = r.voice;
        drawn = r.word;
    }
    drawn
}

// A block of a modal voice. It is a function of its own, whose loop has all registers: in the loop over the blocks it takes up to twice as long.
#[inline(never)]
fn modal_block(
    voice: &mut ModalVoice,
    around: bool,
    k: Knobs,
    b: &mut Buffers,
    word: u32,
) -> Rendered<()>
    requires { IsAlike b.old }
    ensures { Renders k voice.old b.old word (record { voice = voice.new; word = result.word; counts = result.counts }) b.new }
{
    let r = voice.render(around, k, b, word);
    *voice = r.voice;
    r.with(())
}

// The same of a new modal voice. A generic loop for both would need a trait with a law of what a block leaves, with lines for one voice and none for the other.
#[tactic(auto, using(crate::proofs::Modals::refused))]
#[unsafe(no_mangle)]
pub extern "C" fn modals_render(
    sustain: bool,
    trigger: bool,
    accent: f32,
    f0: f32,
    structure: f32,
    brightness: f32,
    damping: f32,
    blocks: usize,
    temp: &mut [f32],
    temp_2: &mut [f32],
    out: &mut [f32],
    aux: &mut [f32],
    word: u32,
    slow_subnormals: bool,
) -> u32
    ensures { run (modal_blocks (record {
      sustain = sustain;
      trigger = trigger;
      accent = accent;
      f0 = f0;
      structure = structure;
      brightness = brightness;
      damping = damping;
    }) blocks (record { temp = temp.old; temp2 = temp_2.old; out = out.old; aux = aux.old })) word ≡ record {
      value = record { temp = temp.new; temp2 = temp_2.new; out = out.new; aux = aux.new };
      word = result;
    } }
{
    if !alike(temp.len(), temp_2.len(), out.len(), aux.len()) {
        return word;
    }
    let k = Knobs {
        sustain,
        trigger,
        accent,
        f0,
        structure,
        brightness,
        damping,
    };
    let mut b = Buffers {
        temp,
        temp_2,
        out,
        aux,
    };
    let mut voice = ModalVoice::new().init();
    let mut drawn = word;
    for _ in 0..blocks {
        drawn = modal_block(&mut voice, slow_subnormals, k, &mut b, drawn).word;
    }
    drawn
}
