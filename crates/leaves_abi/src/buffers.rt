// The leaves whose speed is compared with the Rust's, each over a buffer, for a host to call.
ghost use Rattle.std.specs.Prelude.{◌≡◌};
ghost use Rattle.ground.specs.Draw.{run, Ran};
ghost use Rattle.leaves_abi.specs.Buffers.{filtered, drawn_floats, ratios_of, hermites_of};

use utils::filter::Svf;

// Svf::process_buffer at the low pass, over a filter set to f and q; gives its second memory.
#[unsafe(no_mangle)]
pub extern "C" fn leaves_process_buffer(f: f32, q: f32, in_: &[f32], out: &mut [f32]) -> f32
    ensures { (result, out.new) ≡ filtered f q in_.now out.old }
{
    let svf = Svf::new().set_f_q(f, q, utils::filter::FrequencyApproximation::Dirty);
    let after = svf.process_buffer(in_, out);
    after.state_2
}

// get_float, drawn for each frame; gives the generator's word after them.
#[unsafe(no_mangle)]
pub extern "C" fn leaves_get_floats(word: u32, out: &mut [f32]) -> u32
    ensures { run (drawn_floats out.old) word ≡ record { value = out.new; word = result } }
{
    let mut drawn = word;
    for u in out.iter_mut() {
        drawn = ground::random::get_word(drawn);
        *u = ground::random::get_float(drawn);
    }
    drawn
}

// semitones_to_ratio of each number of semitones.
#[unsafe(no_mangle)]
pub extern "C" fn leaves_semitones_to_ratio(semitones: &[f32], out: &mut [f32])
    ensures { out.new ≡ ratios_of semitones.now out.old }
{
    let n = semitones.len().min(out.len());
    // by index: a proof knows nothing of what a zip with `iter_mut` wrote
    for i in 0..n {
        out[i] = utils::units::semitones_to_ratio(semitones[i]);
    }
}

// read_hermite at each delay, from a place in a line of 1,024; where line or place are short of that, nothing.
#[unsafe(no_mangle)]
pub extern "C" fn leaves_read_hermites(
    line: &[f32],
    write_ptr: usize,
    delays: &[f32],
    out: &mut [f32],
)
    ensures { out.new ≡ hermites_of line.now write_ptr delays.now out.old }
{
    if line.len() < 1024 {
        return;
    }
    if 1024 <= write_ptr {
        return;
    }
    let n = delays.len().min(out.len());
    // by index: a proof knows nothing of what a zip with `iter_mut` wrote
    for i in 0..n {
        out[i] = utils::delay_line::read_hermite(&line[..1024], write_ptr, delays[i]);
    }
}
