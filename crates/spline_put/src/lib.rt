// The emission of the spline that a state and its store hold.
#![tactic(auto)]

ghost use Rattle.std.specs.Prelude.{◌≡◌, ◌≤◌};
ghost use Rattle.spline_write.specs.Emits.{most_own};
ghost use Rattle.saved_state.specs.State.{saved_check};
ghost use Rattle.spline_answer.specs.Held.{emission};
ghost use Rattle.spline_put.specs.Emitted.{Put};

use floats::of_bits;
use layout::{AXIS_CODES, W_AXES, W_AXIS_COUNT, W_DEGREE, W_HELD, W_MOTION, W_START, W_TOLERANCE};
use spline_emit::emit_within;
use spline_job::Job;

// The words of the curve start.
const START: usize = W_START + 1;

const START_END: usize = START + AXIS_CODES;

// Counts the rows of the emission of the held spline and, where they and `own` more have room, writes them to the front
// of `rows`.
pub fn put_emission(state: &[u64], store: &[u64], rows: &mut [u64], own: usize) -> usize
    requires { (saved_check state.now store.now ≡ 0) × (own ≤ most_own) }
    ensures { Put own (emission state.now store.now) rows.old result rows.new }
{
    let e = W_AXES + state[W_AXIS_COUNT] as usize;
    let job = Job {
        motion: state[W_MOTION],
        degree: state[W_DEGREE],
        tol: of_bits(state[W_TOLERANCE]),
        start: state[W_START],
        held: state[W_HELD] as usize,
        own,
    };
    emit_within(
        job,
        &state[W_AXES..e],
        &state[START..START_END],
        store,
        rows,
    ) as usize
}
