// The rows of a block of its own, written.
#![tactic(auto)]

ghost use Rattle.std.specs.Prelude.{◌≡◌, ◌<◌};
ghost use Rattle.floats.specs.Lists.{flatten, spliced};
ghost use Rattle.push_rows.specs.Own.{Writes, own_rows};

use arc_group::write_arc;
use arc_rows::Plan;
use layout::W_KNOWN;
use push_resolve::Resolved;
use push_rows::{POSITIONS, POSITIONS_END};
use row_put::put_row;

fn write_turn(rows: &mut [u64], from: usize, state: &[u64], row: &[u64], b: Resolved, plan: Plan)
    requires { (Writes state.now row.now b plan rows.old from) × (0 < plan.count) }
    ensures { rows.new ≡ spliced rows.old from (flatten (own_rows state.now row.now plan)) }
{
    write_arc(
        rows,
        from,
        row,
        b.axes,
        b.plane,
        state[W_KNOWN],
        &state[POSITIONS..POSITIONS_END],
        plan,
    );
}

// A row that passes is written without asking what an arc needs.
fn write_some(rows: &mut [u64], from: usize, state: &[u64], row: &[u64], b: Resolved, plan: Plan)
    requires { (Writes state.now row.now b plan rows.old from) × (0 < plan.count) }
    ensures { rows.new ≡ spliced rows.old from (flatten (own_rows state.now row.now plan)) }
{
    match plan.way {
        None => put_row(rows, from, row),
        Some(_) => write_turn(rows, from, state, row, b, plan),
    }
}

// Writes a planned block's rows from word `from` on.
pub fn write_own(rows: &mut [u64], from: usize, state: &[u64], row: &[u64], b: Resolved, plan: Plan)
    requires { Writes state.now row.now b plan rows.old from }
    ensures { rows.new ≡ spliced rows.old from (flatten (own_rows state.now row.now plan)) }
{
    if plan.count > 0 {
        write_some(rows, from, state, row, b, plan);
    }
}
