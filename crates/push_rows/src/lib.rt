// What a block's own rows come to at the positions before it.
#![tactic(auto)]

ghost use Rattle.std.specs.Prelude.{◌≡◌};
ghost use Rattle.arc_rows.specs.Plan.{pass_plan};
ghost use Rattle.push_rows.specs.Own.{Ready, none_plan, OwnPlanned, TurnPlanned};

use arc_group::plan_arc;
use arc_rows::Plan;
use floats::of_bits;
use layout::{AXIS_CODES, W_KNOWN, W_TOLERANCE};
use motion::Kind;
use push_resolve::Resolved;

// The words of the positions.
pub const POSITIONS: usize = W_KNOWN + 1;

pub const POSITIONS_END: usize = POSITIONS + AXIS_CODES;

fn pass_plan() -> Plan
    ensures { result ≡ pass_plan 0 }
{
    Plan {
        count: 1,
        warning: 0,
        wanted: 0,
        held: 0,
        way: None,
    }
}

fn none_plan() -> Plan
    ensures { result ≡ none_plan }
{
    Plan {
        count: 0,
        warning: 0,
        wanted: 0,
        held: 0,
        way: None,
    }
}

fn plan_turn(state: &[u64], row: &[u64], b: Resolved, cw: bool) -> Plan
    requires { Ready state.now row.now b }
    ensures { TurnPlanned state.now row.now cw result }
{
    let tol = of_bits(state[W_TOLERANCE]);
    plan_arc(
        row,
        b.axes,
        b.plane,
        cw,
        state[W_KNOWN],
        &state[POSITIONS..POSITIONS_END],
        tol,
    )
}

// What a block itself comes to: a block of a spline has no row yet.
pub fn plan_own(state: &[u64], row: &[u64], b: Resolved) -> Plan
    requires { Ready state.now row.now b }
    ensures { OwnPlanned state.now row.now result }
{
    let kind = b.kind;
    match kind {
        Kind::Same => pass_plan(),
        Kind::Linear => pass_plan(),
        Kind::Clockwise => plan_turn(state, row, b, true),
        Kind::Counter => plan_turn(state, row, b, false),
        Kind::Akima => none_plan(),
        Kind::Basis => none_plan(),
        Kind::Cubic => none_plan(),
        Kind::Other => pass_plan(),
        Kind::Refused => pass_plan(),
    }
}
