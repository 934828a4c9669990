// What an arc block comes to by its centre: the number of its rows, a warning, and how they come about.
#![tactic(auto)]

ghost use Rattle.std.specs.Prelude.{◌≡◌, ◌<◌, length};
ghost use Rattle.layout.specs.Layout.{axis_masks, row_words};
ghost use Rattle.arc_centre.specs.Types.{centre_is, ends_is, warning_of};
ghost use Rattle.arc_rows.specs.Plan.{pass_plan, along_plan, PlannedFrom};

use arc_centre::{Centre, Ends, Fault};
use arc_numbers::Arc;

// What a block comes to: its rows' number, the warning, with warning 6 the wanted count, the held axes, and the arc that
// it goes along with its ends. A block with no arc passes unchanged.
#[derive(Clone, Copy)]
pub struct Plan {
    pub count: usize,
    pub warning: u64,
    pub wanted: u64,
    pub held: u64,
    pub way: Option<(Ends, Arc)>,
}

// The warning of a block with no centre.
fn warning_of(fault: Fault) -> u64
    ensures { result ≡ warning_of fault }
{
    match fault {
        Fault::Coincident => 2,
        Fault::Short => 3,
        Fault::Missing => 4,
        Fault::Small => 5,
    }
}

// A block that passes unchanged.
pub fn passing(warning: u64) -> Plan
    ensures { result ≡ pass_plan warning }
{
    Plan {
        count: 1,
        warning,
        wanted: 0,
        held: 0,
        way: None,
    }
}

fn along(e: Ends, c: Arc, held: u64) -> Plan
    ensures { result ≡ along_plan e c held }
{
    let wanted = arc_steps::wanted(c);
    let count = arc_steps::count(wanted) as usize;
    if arc_steps::MOST_ROWS < wanted {
        Plan {
            count,
            warning: 6,
            wanted,
            held,
            way: Some((e, c)),
        }
    } else {
        Plan {
            count,
            warning: 0,
            wanted: 0,
            held,
            way: Some((e, c)),
        }
    }
}

// What an arc block from e's start to its end comes to by its centre.
pub fn from_centre(
    row: &[u64],
    f: arc_sample::Setting,
    cw: bool,
    tol: f64,
    e: Ends,
    centre: Result<Centre, Fault>,
) -> Plan
    requires { (length row.now ≡ row_words) × (f.gs < axis_masks) }
    ensures { PlannedFrom tol cw f row.now (ends_is e) (centre_is centre) result }
{
    match centre {
        Ok(m) => {
            let turn = arc_ends::cell_number(row, layout::C_TURN);
            let c = arc_numbers::arc_of(tol, cw, e, m.u, m.v, turn);
            let u = arc_words::plane_u(f.plane);
            let v = arc_words::plane_v(f.plane);
            along(e, c, arc_block::held_axes(row, f.gs, f.known, u, v))
        }
        Err(fault) => passing(warning_of(fault)),
    }
}
