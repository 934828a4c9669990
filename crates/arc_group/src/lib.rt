// The group of an arc block: what it comes to at the positions before it, and its rows written.
#![tactic(auto)]

ghost use Rattle.std.specs.Prelude.{◌≡◌};
ghost use Rattle.floats.specs.Lists.{spliced};
ghost use Rattle.row_cells.specs.Row.{shown, axes_of};
ghost use Rattle.arc_rows.specs.Plan.{BlockOf, plan_out, PlanOf, WriteOf};

// What an arc block comes to. gs is the mask of the geometric axes, known that of the positions at hand.
pub fn plan_arc(
    row: &[u64],
    gs: u64,
    plane: u64,
    cw: bool,
    known: u64,
    at: &[u64],
    tol: f64,
) -> arc_rows::Plan
    requires { BlockOf row.now gs at.now }
    ensures { PlanOf tol (axes_of gs) plane cw (shown known at.now) row.now result }
{
    let u = arc_words::plane_u(plane);
    let v = arc_words::plane_v(plane);
    if arc_block::is_silent(row, gs, u, v) {
        return arc_rows::passing(0);
    }
    if !row_cells::has_bit(known, u as u64) {
        return arc_rows::passing(1);
    }
    if !row_cells::has_bit(known, v as u64) {
        return arc_rows::passing(1);
    }
    let e = arc_ends::ends(row, at, u, v);
    let f = arc_sample::Setting { gs, plane, known };
    arc_rows::from_centre(row, f, cw, tol, e, arc_ends::seek_centre(row, cw, e, u, v))
}

// Writes the rows of a planned block from word `from` on.
pub fn write_arc(
    rows: &mut [u64],
    from: usize,
    row: &[u64],
    gs: u64,
    plane: u64,
    known: u64,
    at: &[u64],
    plan: arc_rows::Plan,
)
    requires { BlockOf row.now gs at.now × WriteOf (axes_of gs) plane (shown known at.now) row.now rows.old from plan }
    ensures { rows.new ≡ spliced rows.old from (plan_out (axes_of gs) plane (shown known at.now) row.now plan) }
{
    match plan.way {
        None => row_put::put_row(rows, from, row),
        Some((e, c)) => {
            let f = arc_sample::Setting { gs, plane, known };
            arc_sample::draw(rows, from, row, at, f, e, c, plan.count)
        }
    }
}
