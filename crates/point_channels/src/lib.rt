// A point's numbers, one a channel, in the array that a point stands in.
#![tactic(auto)]

ghost use Rattle.std.specs.Prelude.{◌≡◌, ℕ, ◌≤◌, ◌<◌, replicate, Float};
ghost use Rattle.floats.specs.Numbers.{f0};
ghost use Rattle.floats.specs.Lists.{filled};
ghost use Rattle.curve_metric.specs.Widest.{widest};

use curve_metric::WIDEST;

// The number of channel c; 0 where there is none.
fn number_at<F: Fn(usize) -> f64>(number: &F, ch: usize, c: usize) -> f64
    requires called { c < ch → F.pre number.now c }
    ensures inside { c < ch → F.post number.now c result }
    ensures outside { ch ≤ c → result ≡ f0 }
{
    if c < ch {
        return number(c);
    }
    0.0
}

// The numbers of ch channels, and zeros past them. Written out, each goes straight to its place, where an array filled by
// index is copied once more.
pub fn each_channel<F: Fn(usize) -> f64>(ch: usize, number: F) -> [f64; WIDEST]
    requires narrow { ch ≤ widest }
    requires called { (c : ℕ) → c < ch → F.pre number c }
    ensures { (f : ℕ → Float) → ((c : ℕ) (x : Float) → c < ch → F.post number c x → x ≡ f c) → result ≡ filled f ch (replicate widest f0) }
{
    [
        number_at(&number, ch, 0),
        number_at(&number, ch, 1),
        number_at(&number, ch, 2),
        number_at(&number, ch, 3),
        number_at(&number, ch, 4),
        number_at(&number, ch, 5),
        number_at(&number, ch, 6),
        number_at(&number, ch, 7),
        number_at(&number, ch, 8),
        number_at(&number, ch, 9),
        number_at(&number, ch, 10),
        number_at(&number, ch, 11),
        number_at(&number, ch, 12),
        number_at(&number, ch, 13),
        number_at(&number, ch, 14),
        number_at(&number, ch, 15),
    ]
}
