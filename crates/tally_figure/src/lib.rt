// What a told call adds to each figure of its job.
#![tactic(auto)]

ghost use Rattle.std.specs.Prelude.{◌≡◌, ◌<◌};
ghost use Rattle.tally_call.specs.Calls.{if_done, figure};

use tally_call::{Call, K_PUSH};
use tally_words::{W_BLOCKS, W_MARKED, W_ROWS, W_TURNED, number_of};

// x where the call was accepted, 0 where not.
fn if_accepted(c: Call, x: u64) -> u64
    ensures { result ≡ if_done c x }
{
    if c.code == 0 { x } else { 0 }
}

// What a call adds to the figure in word k of its job's slot (9.7 to 9.10).
#[tactic(auto, unfolding(tally_call::specs::Calls::figure))]
pub fn figure_of(c: Call, k: usize) -> u64
    requires { 0 < k }
    ensures { result ≡ figure c k }
{
    match k {
        W_BLOCKS => if_accepted(c, number_of(c.kind == K_PUSH)),
        W_ROWS => if_accepted(c, c.count),
        W_MARKED => if_accepted(c, c.marked),
        0..=W_TURNED => number_of(c.warning == (k - W_MARKED) as u64),
        _ => number_of(c.code == (k - W_TURNED) as u64),
    }
}
