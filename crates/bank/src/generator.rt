// The one generator, lent to whichever voice is rendering.
ghost use Rattle.std.specs.Prelude.{◌≡◌};
ghost use Rattle.ground.specs.Random.{get_word};
ghost use Rattle.noise.specs.Buffers.{held, IsSame};
ghost use Rattle.slots.specs.Calls.{render};
ghost use Rattle.slots.specs.Table.{Call};
ghost use Rattle.bank.specs.World.{World, Left, left_of, call_def};

use crate::calls::Rendered;
use noise::buffers::Buffers;
use noise::excitation::Knobs;
use slots::slots::Bank;

#[derive(Drop)]
pub struct Generator {
    pub word: u32,
}

// A draw moves the word, and gives it.
pub fn draw(generator: &mut Generator) -> u32
    ensures { (result ≡ get_word generator.old.word) × (generator.new.word ≡ get_word generator.old.word) }
{
    let w = ground::random::get_word(generator.word);
    generator.word = w;
    w
}

// `render`, with the generator lent.
pub fn render_lent(
    bank: Bank,
    lines: &mut [f32],
    generator: &mut Generator,
    slot: usize,
    k: Knobs,
    b: &mut Buffers,
) -> Rendered
    ensures left { left_of (call_def (record { bank = bank; word = generator.old.word; mem = lines.old }) (record {
      slot = slot;
      act = render k (held b.old);
    })) ≡ record {
      answer = result.answer;
      after = record { bank = result.bank; word = result.word; mem = lines.new };
      bufs = held b.new;
    } }
    ensures word { generator.new.word ≡ result.word }
    ensures same { IsSame b.new b.old }
{
    let w = generator.word;
    let r = crate::calls::render(bank, lines, w, slot, k, b);
    generator.word = r.word;
    r
}
