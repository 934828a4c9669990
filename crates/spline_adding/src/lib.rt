// The channels of a spline, written in order of first programming.
#![tactic(auto)]

ghost use Rattle.std.specs.Prelude.{◌≡◌, [], ◌∷◌, ◌+◌, ◌*◌, ◌≤◌, length, take};
ghost use Rattle.floats.specs.Lists.{keep};
ghost use Rattle.layout.specs.Layout.{row_words, axis_codes};
ghost use Rattle.spline_channels.specs.Gathers.{Appended, Once, is_new, ChannelsPut};

use layout::{R_PRESENT, ROW_WORDS};
use spline_channels::{is_listed, programs};

// Whether code k is a geometric axis that the block programs and no block before it did.
fn is_new(present: u64, known: &[u64], k: u64) -> bool
    ensures { result ≡ is_new present known.now k }
{
    programs(present, k) && !is_listed(known, k)
}

// Writes code k behind the m channels, where it is new beside the first n.
fn add_channel(present: u64, chans: &mut [u64], n: usize, m: usize, k: u64) -> usize
    requires { (n ≤ length chans.old) × (m + length (keep (is_new present (take n chans.old)) (k ∷ [])) ≤ length chans.old) }
    ensures { Appended (keep (is_new present (take n chans.old)) (k ∷ [])) m chans.old chans.new result }
{
    if is_new(present, &chans[..n], k) {
        chans[m] = k;
        return m + 1;
    }
    m
}

// Writes behind the n channels those that a block programs first, in the list's order.
fn add_channels(axes: &[u64], present: u64, chans: &mut [u64], n: usize) -> usize
    requires { n + length (keep (is_new present (take n chans.old)) axes.now) ≤ length chans.old }
    ensures { Appended (keep (is_new present (take n chans.old)) axes.now) n chans.old chans.new result }
{
    let mut m = n;
    for k in axes {
        m = add_channel(present, chans, n, m, *k);
    }
    m
}

// Writes the channels of the held blocks, and says how many there are.
pub fn channels_of(axes: &[u64], store: &[u64], held: usize, chans: &mut [u64]) -> usize
    requires { (Once axes.now) × ((held * row_words ≤ length store.now) × (axis_codes ≤ length chans.old)) }
    ensures { ChannelsPut axes.now store.now held chans.old chans.new result }
{
    let mut n: usize = 0;
    for i in 0..held {
        n = add_channels(axes, store[i * ROW_WORDS + R_PRESENT], chans, n);
    }
    n
}
