// Number 1 and a slot's kind, read off the bytes.
ghost use Rattle.std.specs.Prelude.{◌≡◌, ◌||◌, length, map};
ghost use Rattle.slots.specs.Table.{bad_slot, bad_slots};
ghost use Rattle.slot_bytes.specs.Layout.{decode_slot, parts, decode_bank};
ghost use Rattle.bank_abi.specs.Crossing.{bad_flag, bad_flags, kind_in, bad_bytes};

use slot_bytes::decode::slots_of;
use slot_bytes::words::word_at;

// Whether a slot's kind, places, left or flag is bad.
// Its limits are those of `slots::table`, which asks a decoded slot: they are read here from the bytes, and no slot is decoded.
#[tactic(auto, unfolding(slots::specs::Table::bad_slot, slot_bytes::specs::Layout::decode_slot, slot_bytes::specs::Layout::slot_in, slot_bytes::specs::Layout::voice_in, slot_bytes::specs::Layout::string_in,),)]
fn bad_slot(b: &[u8; 393]) -> bool
    ensures { result ≡ bad_slot (decode_slot b.now) || bad_flag b.now }
{
    let kind = word_at(b, 0);
    let string = word_at(b, 6);
    let stretch = word_at(b, 7);
    let left = word_at(b, 23);
    let flag = b[392];
    (kind > 2) | (string >= 1024) | (stretch >= 256) | (left > 1048576) | (flag > 1)
}

// Whether some slot of those is bad.
fn any_bad(slots: &[[u8; 393]]) -> bool
    ensures { result ≡ bad_slots (map decode_slot slots.now) || bad_flags slots.now }
{
    slots.iter().any(|b| bad_slot(b))
}

// Whether a slot of the eight is bad. The bytes are a slice, as C hands them, so their length is asked here and in `kind_at`.
#[tactic(auto, unfolding(slot_bytes::specs::Layout::decode_bank))]
fn bad_slots(bytes: &[u8]) -> bool
    requires { length bytes.now ≡ 3144 }
    ensures { result ≡ bad_slots (decode_bank bytes.now).slots || bad_flags (parts 8 bytes.now) }
{
    any_bad(slots_of(bytes))
}

// Whether number 1 applies.
#[tactic(auto, unfolding(crate::specs::Crossing::bad_bytes, crate::specs::Crossing::is_bank, slots::specs::Table::bad))]
pub fn bad(bytes: &[u8], lines: &[f32]) -> bool
    ensures { result ≡ bad_bytes bytes.now lines.now }
{
    bytes.len() != 3144 || lines.len() != 10240 || bad_slots(bytes)
}

// The kind of a slot of a bank; of bytes of another length, and where there is no such slot, 0 and no `None`: 0 is an empty slot's number, which the definition
// gives for no slot.
#[tactic(auto, unfolding(crate::specs::Crossing::kind_in, slot_bytes::specs::Layout::decode_slot, slot_bytes::specs::Layout::slot_in), using(slot_bytes::proofs::Parts::slot_of, slot_bytes::proofs::Parts::slot_none),)]
pub fn kind_at(bytes: &[u8], slot: usize) -> u32
    ensures { result ≡ kind_in bytes.now slot }
{
    if bytes.len() != 3144 {
        return 0;
    }
    slots_of(bytes).get(slot).map_or(0, |b| word_at(b, 0))
}
