// What every row of an emission needs to know, and a channel's place in a sample.
ghost use Rattle.std.specs.Prelude.{◌≡◌, ℕ, ◌≤◌, length};
ghost use Rattle.floats.specs.Lists.{filled};
ghost use Rattle.layout.specs.Layout.{axis_codes};
ghost use Rattle.spline_channels.specs.Channels.{place_of};

use layout::AXIS_CODES;
use spline_channels::place_of;

#[derive(Clone, Copy)]
pub struct Frame {
    // masks of the geometric axes and of the channels
    pub axes: u64,
    pub mask: u64,
    // words of a sample
    pub ch: usize,
    // whether the curve is a B-spline, and its blocks with a point
    pub basis: bool,
    pub points: usize,
}

// Writes the place of each axis among the channels.
pub fn places_of(chans: &[u64], places: &mut [usize])
    requires { axis_codes ≤ length places.old }
    ensures { places.new ≡ filled (λ (k : ℕ). place_of k chans.now) axis_codes places.old }
{
    for k in 0..AXIS_CODES {
        places[k] = place_of(chans, k as u64);
    }
}
