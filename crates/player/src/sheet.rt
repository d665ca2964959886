// A sheet: the events of one block, what the table says of it, and where each event's render ends.
ghost use Rattle.std.specs.Prelude.{◌≡◌, ◌||◌};
ghost use Rattle.std.specs.List.{list_any, list_all};
ghost use Rattle.noise.specs.Buffers.{held};
ghost use Rattle.player.specs.Sheet.{knobs_of, until, bad_flag, rises, before_end, sheet_verdict};

use noise::buffers::Buffers;
use noise::excitation::Knobs;
use slots::answers::{Reason, Verdict};
use slots::table::{check_buffers, refuse_if};

// An event: its frame in the block, the slot that it plays, and a render's knobs. It crosses as C has it, so a flag may hold any number.
#[repr(C)]
#[derive(Clone, Copy)]
pub struct Event {
    pub frame: u32,
    pub slot: u32,
    pub trigger: u32,
    pub sustain: u32,
    pub f0: f32,
    pub accent: f32,
    pub structure: f32,
    pub brightness: f32,
    pub damping: f32,
}

// The knobs of an event's render.
pub fn knobs_of(e: Event) -> Knobs
    ensures { result ≡ knobs_of e }
{
    Knobs {
        sustain: e.sustain != 0,
        trigger: e.trigger != 0,
        accent: e.accent,
        f0: e.f0,
        structure: e.structure,
        brightness: e.brightness,
        damping: e.damping,
    }
}

// Where a render of the slot ends: at its first event among those that follow, or at the block's end n.
pub fn until(n: usize, slot: u32, following: &[Event]) -> usize
    ensures { result ≡ until n slot following.now }
{
    for e in following {
        if e.slot == slot {
            return e.frame as usize;
        }
    }
    n
}

// Whether a flag of an event is neither 0 nor 1.
fn bad_flag(e: Event) -> bool
    ensures { result ≡ bad_flag e }
{
    e.trigger > 1 || e.sustain > 1
}

fn bad_flags(sheet: &[Event]) -> bool
    ensures { result ≡ list_any bad_flag sheet.now }
{
    sheet.iter().any(|e| bad_flag(*e))
}

// Whether an event is before the block's end n.
fn before_end(n: usize, e: Event) -> bool
    ensures { result ≡ before_end n e }
{
    (e.frame as usize) < n
}

fn all_before_end(n: usize, sheet: &[Event]) -> bool
    ensures { result ≡ list_all (before_end n) sheet.now }
{
    sheet.iter().all(|e| before_end(n, *e))
}

// Whether no frame goes down.
fn rises(sheet: &[Event]) -> bool
    ensures { result ≡ rises 0 sheet.now }
{
    let mut last = 0;
    for e in sheet {
        if e.frame < last {
            return false;
        }
        last = e.frame;
    }
    true
}

// The checks of a whole sheet, into the four buffers and as many answers: `bad` says whether number 1 applies to bank and line memory.
#[tactic(auto, unfolding(crate::specs::Sheet::sheet_verdict, slots::specs::Table::first))]
pub fn check_sheet(bad: bool, sheet: &[Event], answers: usize, b: &Buffers) -> Verdict
    ensures { result ≡ sheet_verdict bad sheet.now answers (held b.now) }
{
    refuse_if(bad || bad_flags(sheet) || answers != 64, Reason::Memory)?;
    check_buffers(b.temp, b.temp_2, b.out, b.aux)?;
    refuse_if(sheet.len() > 64, Reason::TooMany)?;
    refuse_if(!rises(sheet), Reason::OutOfOrder)?;
    refuse_if(!all_before_end(b.temp.len(), sheet), Reason::PastEnd)
}
