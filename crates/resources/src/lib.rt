// The tables of the Rust, each read by a function from an index to its entry.
#![tactic(auto)]

ghost use Rattle.std.specs.Prelude.{◌≡◌};
ghost use Rattle.resources.specs.Table.{entry};

pub mod pitch;
pub mod stiffness;
pub mod svf;

// What stands at i of a table; 0.0 past its end.
fn read<const N: usize>(table: &[f32; N], i: usize) -> f32
    ensures { result ≡ entry table.now i }
{
    if i < N { table[i] } else { 0.0 }
}
