// Flattens the row text of standard input: axes X Y Z, tolerance 0.1, no seed, a full spline store, room for 256 rows.
// Memory is of a fixed size and is all here; csv_run has the run.
#![tactic(auto)]

ghost use Rattle.csv_run.specs.Run.{Ran};

use csv_ending::Ending;
use csv_io::{ERR_ROOM, OUT_ROOM};
use csv_run::{INPUT, ROWS, STORE, whole_run};
use csv_start::start;
use csv_status::{report, tell};
use layout::STATE_WORDS;

// What failed, if anything did, and the status: of a run that was made, with its last bytes in the two buffers.
fn told(rt: HostRuntime, end: Ending, out: &[u8; OUT_ROOM], err: &[u8; ERR_ROOM])
    requires { Ran end out.now err.now }
{
    let mut errors = rt.stderr();
    tell(b"flatcsv", end.over, &mut errors);
    report(&rt, end.over, end.refused);
}

fn main(rt: HostRuntime) {
    let mut buf = [0u8; INPUT];
    let mut state = [0u64; STATE_WORDS];
    let mut store = [0u64; STORE];
    let mut rows = [0u64; ROWS];
    let mut out = [0u8; OUT_ROOM];
    let mut err = [0u8; ERR_ROOM];
    start(&mut state);
    let mut input = rt.stdin();
    let mut output = rt.stdout();
    let mut errors = rt.stderr();
    let end = whole_run(
        &mut buf,
        &mut state,
        &mut store,
        &mut rows,
        &mut out,
        &mut err,
        &mut input,
        &mut output,
        &mut errors,
    );
    told(rt, end, &out, &err);
}
