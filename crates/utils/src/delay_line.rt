// Delay line: a lent slice, whose length is MAX_DELAY, and the place that is written next.
// The two are parameters and no struct, and each call asks that the place lies in the slice: the string keeps its place as a number and is lent its lines for a
// call, so a struct of them would be made before each read and taken apart behind each write.
ghost use Rattle.std.specs.Prelude.{◌≡◌, ◌<◌, ◌%◌, length};
ghost use Rattle.utils.specs.DelayLine.{line_reset, tap, line_write, cubic_of, allpass, read_with_delay_frac, read_hermite};

// What the all-pass gives, and the next place. By name: of a pair its callers would have to know which number is the sample.
#[derive(Clone, Copy)]
pub struct AllpassOut {
    pub out: f32,
    pub write_ptr: usize,
}

// Clears the line, and gives the place to begin at.
pub fn reset(line: &mut [f32]) -> usize
    ensures { (result, line.new) ≡ line_reset line.old }
{
    line.fill(0.0);
    0
}

// What stands at an index taken round the line.
#[tactic(auto, unfolding(crate::specs::DelayLine::tap))]
fn read(line: &[f32], t: usize) -> f32
    requires { 0 < length line.now }
    ensures { result ≡ tap line.now t }
{
    line[t % line.len()]
}

// Stores the sample at the place, and gives the next place, one down.
pub fn write(line: &mut [f32], write_ptr: usize, sample: f32) -> usize
    requires { write_ptr < length line.old }
    ensures { (result, line.new) ≡ line_write line.old write_ptr sample }
{
    let n = line.len();
    line[write_ptr] = sample;
    (write_ptr + n - 1) % n
}

pub fn allpass(
    line: &mut [f32],
    write_ptr: usize,
    sample: f32,
    delay: usize,
    coefficient: f32,
) -> AllpassOut
    requires { write_ptr < length line.old }
    ensures { (result, line.new) ≡ allpass line.old write_ptr sample delay coefficient }
{
    let t = write_ptr + delay % line.len();
    let tapped = read(line, t);
    let wr = sample + coefficient * tapped;
    let next = write(line, write_ptr, wr);
    AllpassOut {
        out: -wr * coefficient + tapped,
        write_ptr: next,
    }
}

// The cubic through four neighbours.
#[tactic(auto, unfolding(crate::specs::DelayLine::cubic_of))]
fn cubic(xm1: f32, x0: f32, x1: f32, x2: f32, f: f32) -> f32
    ensures { result ≡ cubic_of xm1 x0 x1 x2 f }
{
    let c = (x1 - xm1) * 0.5;
    let v = x0 - x1;
    let w = c + v;
    let a = w + v + (x2 - x0) * 0.5;
    let b_neg = w + a;
    ((a * f - b_neg) * f + c) * f + x0
}

pub fn read_with_delay_frac(line: &[f32], write_ptr: usize, delay: f32) -> f32
    requires { write_ptr < length line.now }
    ensures { result ≡ read_with_delay_frac line.now write_ptr delay }
{
    let delayed = ground::floats::split(delay);
    let t = write_ptr + delayed.integral % line.len();
    crate::crossfade(read(line, t), read(line, t + 1), delayed.fractional)
}

// `read_hermite`, where the delay's whole part was guessed. As a call it takes a sustained string a tenth longer.
#[inline(always)]
pub fn read_hermite_near(line: &[f32], write_ptr: usize, delay: f32, guess: usize) -> f32
    requires { write_ptr < length line.now }
    ensures { result ≡ read_hermite line.now write_ptr delay }
{
    let n = line.len();
    let delayed = ground::floats::split_near(delay, guess);
    let t = write_ptr + delayed.integral % n + n;
    cubic(
        read(line, t - 1),
        read(line, t),
        read(line, t + 1),
        read(line, t + 2),
        delayed.fractional,
    )
}

pub fn read_hermite(line: &[f32], write_ptr: usize, delay: f32) -> f32
    requires { write_ptr < length line.now }
    ensures { result ≡ read_hermite line.now write_ptr delay }
{
    read_hermite_near(line, write_ptr, delay, 0)
}
