// The table of refusals, 01's with 02's numbers: the checks of each call, in its order.
ghost use Rattle.std.specs.Prelude.{◌≡◌, ℕ, [], ◌∷◌};
ghost use Rattle.noise.specs.Buffers.{held};
ghost use Rattle.slots.specs.Calls.{opening, reset, render};
ghost use Rattle.slots.specs.Table.{first, ◌⇐◌, in_range, buffer_checks, knob_checks, verdict, bad_slot, bad_slots, bad};

use crate::answers::{Buffer, Knob, Reason, Verdict};
use crate::slots::{Bank, Kind, Slot};
use noise::buffers::Buffers;
use noise::excitation::Knobs;

#[tactic(auto, unfolding(crate::specs::Table::bad_slot))]
fn bad_slot(x: Slot) -> bool
    ensures { result ≡ bad_slot x }
{
    let string = x.string.string;
    x.kind > 2
        || string.string >= 1024
        || string.stretch >= 256
        || x.string.remaining_noise_samples > 1048576
}

// Whether a slot of the eight is bad.
fn bad_slots(bank: Bank) -> bool
    ensures { result ≡ bad_slots bank.slots }
{
    bank.slots.iter().any(|x| bad_slot(*x))
}

// Whether number 1 applies.
#[tactic(auto, unfolding(crate::specs::Table::bad))]
pub fn bad(bank: Bank, lines: &[f32]) -> bool
    ensures { result ≡ bad bank lines.now }
{
    lines.len() != 10240 || bad_slots(bank)
}

// A NaN is in no range.
#[tactic(auto, unfolding(crate::specs::Table::in_range))]
fn within(lo: f32, hi: f32, x: f32) -> bool
    ensures { result ≡ in_range lo hi x }
{
    lo <= x && x <= hi
}

// A row of the table: the flag is what the row tests, and `?` leaves at the first that applies.
#[tactic(auto, unfolding(crate::specs::Table::first))]
pub fn refuse_if(applies: bool, reason: Reason) -> Verdict
    ensures { result ≡ first (reason ⇐ applies ∷ []) }
{
    if applies { Err(reason) } else { Ok(()) }
}

// Numbers 7, 17, 18 and 8; `!=` of slices would compare what stands in them.
#[tactic(auto, unfolding(crate::specs::Table::first))]
pub fn check_buffers(temp: &[f32], temp_2: &[f32], out: &[f32], aux: &[f32]) -> Verdict
    ensures { result ≡ first (buffer_checks (record { temp = temp.now; temp2 = temp_2.now; out = out.now; aux = aux.now })) }
{
    let n = temp.len();
    refuse_if(temp_2.len() != n, Reason::Length(Buffer::Temp2))?;
    refuse_if(out.len() != n, Reason::Length(Buffer::Out))?;
    refuse_if(aux.len() != n, Reason::Length(Buffer::Aux))?;
    refuse_if(n > 4096, Reason::TooLong)
}

// Numbers 9 to 13.
#[tactic(auto, unfolding(crate::specs::Table::first))]
fn check_knobs(k: Knobs) -> Verdict
    ensures { result ≡ first (knob_checks k) }
{
    refuse_if(
        !within(0.00000095367431640625, 0.5, k.f0),
        Reason::OutOfRange(Knob::F0),
    )?;
    refuse_if(
        !within(0.0, 1.0, k.accent),
        Reason::OutOfRange(Knob::Accent),
    )?;
    refuse_if(
        !within(0.0, 1.0, k.structure),
        Reason::OutOfRange(Knob::Structure),
    )?;
    refuse_if(
        !within(0.0, 1.0, k.brightness),
        Reason::OutOfRange(Knob::Brightness),
    )?;
    refuse_if(
        !within(0.0, 1.0, k.damping),
        Reason::OutOfRange(Knob::Damping),
    )
}

// The checks of each call: whether number 1 applies, the slot named, and its kind where the table asks for it.
// `kind` is the caller's number, which may be any; a caller has `bad`, `slot` and `kind` from three places, and no struct of them.
#[tactic(auto, unfolding(crate::specs::Table::verdict, crate::specs::Table::checks, crate::specs::Table::first))]
pub fn check_open(bad: bool, slot: usize, kind: u32, sample_rate_hz: f32) -> Verdict
    ensures { (n : ℕ) → result ≡ verdict bad n (record { slot = slot; act = opening kind sample_rate_hz }) }
{
    refuse_if(bad, Reason::Memory)?;
    refuse_if(slot > 7, Reason::NoSlot)?;
    let _ = Kind::try_from(kind)?;
    refuse_if(
        !within(8000.0, 192000.0, sample_rate_hz),
        Reason::SampleRate,
    )
}

// `kind` is what the slot's memory holds, which may be any number: 0 is an empty slot.
#[tactic(auto, unfolding(crate::specs::Table::verdict, crate::specs::Table::checks, crate::specs::Table::first))]
pub fn check_reset(bad: bool, slot: usize, kind: u32) -> Verdict
    ensures { result ≡ verdict bad kind (record { slot = slot; act = reset }) }
{
    refuse_if(bad, Reason::Memory)?;
    refuse_if(slot > 7, Reason::NoSlot)?;
    refuse_if(kind == 0, Reason::Empty)?;
    refuse_if(kind == 2, Reason::NoReset)
}

// `kind` is what the slot's memory holds, which may be any number: 0 is an empty slot.
#[tactic(auto, unfolding(crate::specs::Table::verdict, crate::specs::Table::checks, crate::specs::Table::first))]
pub fn check_render(
    bad: bool,
    slot: usize,
    kind: u32,
    k: Knobs,
    temp: &[f32],
    temp_2: &[f32],
    out: &[f32],
    aux: &[f32],
) -> Verdict
    ensures { result ≡ verdict bad kind (record {
      slot = slot;
      act = render k (record { temp = temp.now; temp2 = temp_2.now; out = out.now; aux = aux.now });
    }) }
{
    refuse_if(bad, Reason::Memory)?;
    refuse_if(slot > 7, Reason::NoSlot)?;
    refuse_if(kind == 0, Reason::Empty)?;
    check_buffers(temp, temp_2, out, aux)?;
    check_knobs(k)
}

// The checks of a render into the four buffers that it is lent, of a slot whose memory may hold any number for a kind.
pub fn check_lent(bad: bool, slot: usize, kind: u32, k: Knobs, b: &Buffers) -> Verdict
    ensures { result ≡ verdict bad kind (record {
      slot = slot;
      act = render k (held b.now);
    }) }
{
    check_render(bad, slot, kind, k, b.temp, b.temp_2, b.out, b.aux)
}
