// The places of the channels that deviation and chords sum.
#![tactic(auto)]

ghost use Rattle.std.specs.Prelude.{[], ◌∷◌, ℕ, ◌+◌, ◌≤◌, ◌<◌, length};
ghost use Rattle.floats.specs.Lists.{upto, keep};
ghost use Rattle.spline_metric.specs.Metric.{metric_of};
ghost use Rattle.spline_channels.specs.Gathers.{Appended};
ghost use Rattle.spline_metric.specs.Xyz.{is_xyz, xyz_of};

// X, Y and Z are the codes up to this one.
const LAST_XYZ: u64 = 2;

// Writes place i behind the m places, where its channel is X, Y or Z.
fn add_place(chans: &[u64], i: usize, places: &mut [usize], m: usize) -> usize
    requires { (i < length chans.now) × (m < length places.old) }
    ensures { Appended (keep (is_xyz chans.now) (i ∷ [])) m places.old places.new result }
{
    if chans[i] <= LAST_XYZ {
        places[m] = i;
        return m + 1;
    }
    m
}

// Writes the places of the X, Y and Z channels.
fn xyz_places(chans: &[u64], places: &mut [usize]) -> usize
    requires { length chans.now ≤ length places.old }
    ensures { Appended (xyz_of chans.now) 0 places.old places.new result }
{
    let mut m: usize = 0;
    for i in 0..chans.len() {
        m = add_place(chans, i, places, m);
    }
    m
}

// Writes the places 0 to n - 1.
fn all_places(n: usize, places: &mut [usize]) -> usize
    requires { n ≤ length places.old }
    ensures { Appended (upto (λ (i : ℕ). i) n) 0 places.old places.new result }
{
    for i in 0..n {
        places[i] = i;
    }
    n
}

// Writes the places of the metric's channels, and says how many there are.
pub fn metric_of(chans: &[u64], places: &mut [usize]) -> usize
    requires { length chans.now ≤ length places.old }
    ensures { Appended (metric_of chans.now) 0 places.old places.new result }
{
    let m = xyz_places(chans, places);
    if m == 0 {
        return all_places(chans.len(), places);
    }
    m
}
