// Four numbers of de Boor's triangle raised at once.
#![tactic(auto)]

ghost use Rattle.std.specs.Prelude.{◌<◌, ◌+◌, length};
ghost use Rattle.bspline_raise.specs.Climb.{Raised};

// Four numbers of a row at the next level. All are read before the first is written, so that they go in pairs.
pub fn raise_four(d: &mut [f64], i: usize, wide: usize, share: f64)
    requires { i + wide + 3 < length d.old }
    ensures { Raised d.old d.new i 4 wide share }
{
    let rest = 1.0 - share;
    let e = i + wide;
    let x0 = rest * d[e] + share * d[i];
    let x1 = rest * d[e + 1] + share * d[i + 1];
    let x2 = rest * d[e + 2] + share * d[i + 2];
    let x3 = rest * d[e + 3] + share * d[i + 3];
    d[i] = x0;
    d[i + 1] = x1;
    d[i + 2] = x2;
    d[i + 3] = x3;
}
