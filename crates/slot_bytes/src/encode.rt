// A slot into its 393 bytes.
ghost use Rattle.std.specs.Prelude.{◌≡◌, ◌<◌, length};
ghost use Rattle.slots.specs.declared.slots.Slot.{Slot};
ghost use Rattle.slots.specs.Slots.{slot_at};
ghost use Rattle.slot_bytes.specs.Words.{put_words};
ghost use Rattle.slot_bytes.specs.Layout.{decode_slot, decode_bank, StringF32, VoiceF32, ModalF32, SlotF32, string_words, voice_words, modal_words};
ghost use Rattle.slot_bytes.specs.Layout.{encode_slot, with_bytes};

use crate::record::{Record, write_all};
use crate::words::{floats_stand, put_word, word_at};
use modal_voice::modal_voice::ModalVoice;
use slots::slots::Slot;
use string_voice::string_voice::StringVoice;
use waveguide::string::String;

fn put_string(b: &mut [u8; 393], s: String)
    ensures { (b.new ≡ put_words 6 (string_words s) b.old) × StringF32 s }
{
    put_word(b, 6, s.string);
    put_word(b, 7, s.stretch);
    s.iir_damping_filter.write(b, 8);
    s.dc_blocker.write(b, 13);
    s.delay.write(b, 16);
    s.dispersion_noise.write(b, 17);
    s.curved_bridge.write(b, 18);
    s.src_phase.write(b, 19);
    s.out_sample_0.write(b, 20);
    s.out_sample_1.write(b, 21);
    s.sample_rate_hz.write(b, 22);
}

fn put_voice(b: &mut [u8; 393], v: StringVoice)
    ensures { (b.new ≡ put_words 1 (voice_words v) b.old) × VoiceF32 v }
{
    v.excitation_filter.write(b, 1);
    put_string(b, v.string);
    put_word(b, 23, v.remaining_noise_samples);
}

#[tactic(auto, using(crate::proofs::Little::modal_wrote))]
fn put_modal(b: &mut [u8; 393], m: ModalVoice)
    ensures { (b.new ≡ put_words 24 (modal_words m) b.old) × ModalF32 m }
{
    m.excitation_filter.write(b, 24);
    write_all(m.resonator.mode_amplitude, b, 26);
    write_all(m.resonator.mode_filters, b, 50);
}

// A modal voice at rest is written again, which changes bytes only where it holds a NaN.
#[tactic(auto, unfolding(crate::specs::Layout::decode_slot, crate::specs::Layout::slot_in))]
fn put_modal_again(b: &mut [u8; 393])
    ensures { (b.new ≡ put_words 24 (modal_words (decode_slot b.old).modal) b.old) × ModalF32 (decode_slot b.old).modal }
{
    if floats_stand(b, 24, 74) {
        return;
    }
    let m = crate::decode::modal_at(b);
    put_modal(b, m);
}

// What is put into a slot's bytes: a slot, or a string's voice alone.
pub trait Put: Copy {
    // The slot that the bytes hold after it, of the slot that they held.
    ghost after: { Self → Slot → Slot };

    fn put(self, b: &mut [u8; 393])
        ensures { (b.new ≡ encode_slot (after self (decode_slot b.old))) × SlotF32 (after self (decode_slot b.old)) };
}

impl Put for Slot {
    ghost after = { λ x s. x };

    #[tactic(auto, using(crate::proofs::Little::flag_is, crate::proofs::Little::slot_wrote))]
    fn put(self, b: &mut [u8; 393]) {
        put_word(b, 0, self.kind as usize);
        put_voice(b, self.string);
        put_modal(b, self.modal);
        b[392] = u8::from(self.modal.held);
    }
}

impl Put for StringVoice {
    ghost after = { λ v s. record s { string = v } };

    // The kind and the modal voice are written again.
    fn put(self, b: &mut [u8; 393]) {
        let kind = word_at(b, 0);
        let held = b[392] == 1;
        put_modal_again(b);
        put_voice(b, self);
        put_word(b, 0, kind as usize);
        b[392] = u8::from(held);
    }
}

fn put_part<T: Put>(part: &mut [u8], x: T)
    requires { length part.old ≡ 393 }
    ensures { (part.new ≡ encode_slot (T.after x (decode_slot part.old))) × SlotF32 (T.after x (decode_slot part.old)) }
{
    let Some(b) = part.as_mut_array() else {
        unreachable!()
    };
    x.put(b)
}

// A slot of a bank is written, whole or its string's voice alone, and the others are kept.
// Its part is cut here, since a function that lent it on could say what it leaves only by a starred clause.
#[tactic(auto, using(crate::proofs::Parts::slot_cut, crate::proofs::Parts::put_cut))]
pub fn put_nth<T: Put>(bytes: &mut [u8], slot: usize, x: T)
    requires { (slot < 8) × (length bytes.old ≡ 3144) }
    ensures { (bytes.new ≡ with_bytes slot (encode_slot (T.after x (slot_at (decode_bank bytes.old) slot))) bytes.old)
        × SlotF32 (T.after x (slot_at (decode_bank bytes.old) slot)) }
{
    let from = 393 * slot;
    let to = from + 393;
    put_part(&mut bytes[from..to], x);
}
