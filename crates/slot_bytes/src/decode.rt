// A slot from its 393 bytes.
ghost use Rattle.std.specs.Prelude.{◌≡◌, ◌/◌, ◌+◌, ◌*◌, ◌≤◌, ◌<◌, eqb, length, get_or};
ghost use Rattle.slots.specs.Slots.{slot_at};
ghost use Rattle.slot_bytes.specs.Layout.{string_in, voice_in, modal_in, decode_slot, parts, decode_bank};
ghost use Rattle.slot_bytes.specs.Words.{words_in};

use crate::record::{Record, read_all};
use crate::words::word_at;
use modal_voice::modal_voice::ModalVoice;
use modes::resonator::{Batch, Resonator, ResonatorSvf};
use slots::slots::Slot;
use string_voice::string_voice::StringVoice;
use utils::filter::{DcBlocker, Svf};
use waveguide::string::String;

#[tactic(auto, unfolding(crate::specs::Layout::string_in))]
fn string_at(b: &[u8; 393]) -> String
    ensures { result ≡ string_in (words_in b.now) }
{
    String {
        string: word_at(b, 6) as usize,
        stretch: word_at(b, 7) as usize,
        iir_damping_filter: Svf::read(b, 8),
        dc_blocker: DcBlocker::read(b, 13),
        delay: f32::read(b, 16),
        dispersion_noise: f32::read(b, 17),
        curved_bridge: f32::read(b, 18),
        src_phase: f32::read(b, 19),
        out_sample_0: f32::read(b, 20),
        out_sample_1: f32::read(b, 21),
        sample_rate_hz: f32::read(b, 22),
    }
}

#[tactic(auto, unfolding(crate::specs::Layout::voice_in))]
fn voice_at(b: &[u8; 393]) -> StringVoice
    ensures { result ≡ voice_in (words_in b.now) }
{
    StringVoice {
        excitation_filter: Svf::read(b, 1),
        string: string_at(b),
        remaining_noise_samples: word_at(b, 23) as usize,
    }
}

#[tactic(auto, unfolding(crate::specs::Layout::modal_in))]
pub fn modal_at(b: &[u8]) -> ModalVoice
    requires { length b.now ≡ 393 }
    ensures { result ≡ modal_in (words_in b.now) (eqb (get_or b.now 392 0) 1) }
{
    ModalVoice {
        excitation_filter: ResonatorSvf::read(b, 24),
        resonator: Resonator {
            mode_amplitude: read_all::<f32, 24>(b, 26),
            mode_filters: read_all::<Batch, 6>(b, 50),
        },
        held: b[392] == 1,
    }
}

#[tactic(auto, unfolding(crate::specs::Layout::decode_slot, crate::specs::Layout::slot_in))]
fn slot_at(b: &[u8; 393]) -> Slot
    ensures { result ≡ decode_slot b.now }
{
    Slot {
        kind: word_at(b, 0),
        string: voice_at(b),
        modal: modal_at(b),
    }
}

// The bytes of each slot of a bank, and of bytes of another length as many as there are whole.
#[tactic(auto, using(crate::proofs::Parts::parts_are))]
pub fn slots_of(bytes: &[u8]) -> &[[u8; 393]]
    ensures all { result.now ≡ parts (length bytes.now / 393) bytes.now }
    ensures parts { length bytes.now ≡ 3144 → result.now ≡ parts 8 bytes.now }
    ensures eight { length bytes.now ≡ 3144 → length result.now ≡ 8 }
{
    let (slots, _) = bytes.as_chunks::<393>();
    slots
}

// A slot of a bank. The bytes are a slice, as C hands them, so their length is asked here, in `string_nth` and in `put_nth`.
#[tactic(auto, using(crate::proofs::Parts::slot_of))]
pub fn nth(bytes: &[u8], slot: usize) -> Slot
    requires { (slot < 8) × (length bytes.now ≡ 3144) }
    ensures { result ≡ slot_at (decode_bank bytes.now) slot }
{
    slot_at(&slots_of(bytes)[slot])
}

// The string's voice of a slot of a bank.
pub fn string_nth(bytes: &[u8], slot: usize) -> StringVoice
    requires { (slot < 8) × (length bytes.now ≡ 3144) }
    ensures { result ≡ (slot_at (decode_bank bytes.now) slot).string }
{
    voice_at(&slots_of(bytes)[slot])
}
