// A B-spline's tables, put together.
#![tactic(auto)]

ghost use Rattle.std.specs.Prelude.{◌≤◌, ◌+◌, ◌*◌, ◌-◌, length};
ghost use Rattle.layout.specs.Layout.{axis_codes, most_points};
ghost use Rattle.bspline_tables.specs.Tables.{BasisIs};

use bspline_tables::{degree_of, fill_controls, fill_knots};

// Fills the tables of n control points, of ch numbers each, and returns the degree in force.
pub fn prepare_basis(
    pts: &[f64],
    ws: &[f64],
    n: usize,
    ch: usize,
    degree: usize,
    ks: &mut [f64],
    cw: &mut [f64],
) -> usize
    requires le_n { (2 ≤ n) × ((n ≤ most_points) × (ch ≤ axis_codes)) }
    requires ch_in_bounds { (n * ch ≤ length pts.now) × (n ≤ length ws.now) }
    requires n_in_bounds { (2 * n ≤ length ks.old) × ((ch + 1) * n ≤ length cw.old) }
    ensures { BasisIs degree n ch pts.now ws.now result ks.new cw.new }
{
    let p = degree_of(degree, n);
    fill_knots(p, n - p, n + p + 1, ks);
    fill_controls(pts, ws, ch, n, cw);
    p
}
