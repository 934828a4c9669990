// What the writing walk does at one sample: writes it, and asks whether the counting stopped there.
#![tactic(auto)]

ghost use Rattle.std.specs.Prelude.{◌≡◌, [], ◌∷◌, ◌&&◌, ◌≤◌, ◌+◌, ◌^◌, ltb, eqb, length, get_or};
ghost use Rattle.curve_walk.specs.Asks.{Written};

use curve_walk::Place;

// Writes the words of p from `from` on, and returns the place after them.
fn put_point(p: &[f64], out: &mut [u64], from: usize) -> usize
    requires { from + length p.now ≤ length out.old }
    ensures { Written out.old from (p.now ∷ []) result out.new }
{
    for (k, x) in p.iter().enumerate() {
        out[from + k] = floats::bits(*x);
    }
    from + p.len()
}

// Writes the words of p, as one sample.
pub fn put_sample(p: &[f64], out: &mut [u64], at: Place) -> Place
    requires { (at.word + length p.now ≤ length out.old) × (at.sample + 1 ≤ 2 ^ 60) }
    ensures { Written out.old at.word (p.now ∷ []) result.word out.new × (result.sample ≡ at.sample + 1) }
{
    Place {
        word: put_point(p, out, at.word),
        sample: at.sample + 1,
    }
}

// Whether the memory has it that the walk stopped at the sample c with `left` halvings left.
pub fn is_remembered(lefts: &[u8], c: usize, left: usize) -> bool
    ensures { result ≡ (ltb c (length lefts.now) && eqb (get_or lefts.now c 0) left) }
{
    c < lefts.len() && lefts[c] as usize == left
}
