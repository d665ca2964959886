// What the excitation of both voices has in common.
ghost use Rattle.std.specs.Prelude.{◌≡◌};
ghost use Rattle.ground.specs.Draw.{run, Ran};
ghost use Rattle.noise.specs.Excitation.{raised, dust_frequency, dusted, added};

// What a render is given beside its buffers. `sustain` and `trigger` are knobs of two positions: neither says that a value is absent.
#[derive(Clone, Copy)]
pub struct Knobs {
    pub sustain: bool,
    pub trigger: bool,
    pub accent: f32,
    pub f0: f32,
    pub structure: f32,
    pub brightness: f32,
    pub damping: f32,
}

// How many words a call drew, by what.
#[derive(Clone, Copy)]
pub struct Counts {
    pub burst: usize,
    pub dust: usize,
    pub dispersion: usize,
}

// A voice after a render or a half of one, the generator's word, and the words drawn.
#[derive(Clone, Copy)]
pub struct Rendered<V> {
    pub voice: V,
    pub word: u32,
    pub counts: Counts,
}

impl<V: Copy> Rendered<V> {
    // The same beside another voice. Field by field, since a struct update cannot change the voice's type.
    pub fn with<W>(self, voice: W) -> Rendered<W>
        ensures { result ≡ record { voice = voice; word = self.word; counts = self.counts } }
    {
        Rendered {
            voice,
            word: self.word,
            counts: self.counts,
        }
    }
}

// x moved a quarter of the way to 1, as far as the accent says.
#[tactic(auto, unfolding(crate::specs::Excitation::raised))]
pub fn raise(accent: f32, x: f32) -> f32
    ensures { result ≡ raised accent x }
{
    x + 0.25 * accent * (1.0 - x)
}

#[tactic(auto, unfolding(crate::specs::Excitation::dust_frequency))]
pub fn dust_frequency(brightness: f32) -> f32
    ensures { result ≡ dust_frequency brightness }
{
    let density = brightness * brightness;
    0.00005 + 0.99995 * density * density
}

// Dust of frequency f in every frame, at a gain.
pub fn fill_dust(f: f32, gain: f32, accent: f32, temp: &mut [f32], word: u32) -> u32
    ensures { run (dusted f gain accent temp.old) word ≡ record { value = temp.new; word = result } }
{
    let mut w = word;
    for sample in temp.iter_mut() {
        let (u, after) = crate::dust::dust(f, w);
        *sample = u * gain * accent;
        w = after;
    }
    w
}

// A buffer added into another.
pub fn add_into(in_: &[f32], out: &mut [f32])
    ensures { out.new ≡ added in_.now out.old }
{
    let n = in_.len().min(out.len());
    // by index: a proof knows nothing of what a zip with `iter_mut` wrote
    for i in 0..n {
        out[i] += in_[i];
    }
}
