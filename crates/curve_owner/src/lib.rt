// What the counting walk does at one sample: counts it for its owner, and remembers the halvings left.
#![tactic(auto)]

ghost use Rattle.std.specs.Prelude.{◌≡◌, ◌≤◌, ◌+◌, ◌^◌, set};
ghost use Rattle.curve_metric.specs.Walk.{depth};
ghost use Rattle.curve_walk.specs.Walks.{own_of};
ghost use Rattle.curve_walk.specs.Asks.{Owners, Bumped, Counts};

use curve_walk::{Form, Reached, Shape};

// The owner of a sample at t, where the one before it belongs to o.
fn owner_at(s: Shape, ks: &[f64], o: usize, t: f64) -> usize
    requires { Owners s ks.now o }
    ensures { result ≡ own_of s ks.now o t }
{
    match s.form {
        Form::Basis(degree) => bspline_owner::advance(ks, degree, s.n - 1, o, t),
        Form::Fit(_) => o,
    }
}

// Counts a sample at t for its owner.
fn count_one(s: Shape, ks: &[f64], o: usize, t: f64, counts: &mut [usize]) -> usize
    requires owners { Owners s ks.now o }
    requires counts { Counts s o 0 counts.old }
    ensures { Bumped (own_of s ks.now) o t counts.old result counts.new }
{
    let owner = owner_at(s, ks, o, t);
    let i = owner - 1;
    counts[i] += 1;
    owner
}

// Remembers that `left` halvings were left at the sample c, where the memory reaches.
pub fn remember(lefts: &mut [u8], c: usize, left: usize)
    requires { left ≤ depth }
    ensures { lefts.new ≡ set lefts.old c left }
{
    if c < lefts.len() {
        lefts[c] = left as u8;
    }
}

// Counts a sample at t for its owner, and remembers the halvings left.
pub fn count_sample(
    s: Shape,
    left: usize,
    t: f64,
    ks: &[f64],
    at: Reached,
    counts: &mut [usize],
    lefts: &mut [u8],
) -> Reached
    requires owners { Owners s ks.now at.owner }
    requires counts { Counts s at.owner 0 counts.old × ((left ≤ depth) × (at.sample + 1 ≤ 2 ^ 60)) }
    ensures bumped { Bumped (own_of s ks.now) at.owner t counts.old result.owner counts.new }
    ensures sample_value { (result.sample ≡ at.sample + 1) × (lefts.new ≡ set lefts.old at.sample left) }
{
    remember(lefts, at.sample, left);
    Reached {
        owner: count_one(s, ks, at.owner, t, counts),
        sample: at.sample + 1,
    }
}
