// What a call answered, as lines.
#![tactic(auto)]

use call_reply::Reply;
use replay_output::Waiting;
use std::fmt::Write as _;
use std::io::Write;

// What was said with the rows of an answer.
fn put_said(r: Reply, text: &mut Waiting) {
    if r.warning != 0 {
        let _ = writeln!(text, "warn {} {}", r.warning, r.wanted);
    }
    if r.held != 0 {
        let _ = writeln!(text, "held {:x}", r.held);
    }
}

fn put_refusal(r: Reply, untouched: bool, text: &mut Waiting) {
    let _ = writeln!(text, "refused {}", r.code);
    if !untouched {
        let _ = writeln!(text, "changed");
    }
}

// The lines of an answer: its rows and what was said with them, or its refusal.
pub fn put_answer<W: Write>(
    r: Reply,
    untouched: bool,
    rows: &[u64],
    text: &mut Waiting,
    output: &mut W,
) {
    text.flush_in_time(output);
    if r.code == 0 {
        text.put_rows(rows, r.count, output);
        put_said(r, text);
    } else {
        put_refusal(r, untouched, text);
    }
    let _ = writeln!(text, "done {}", r.count);
}
