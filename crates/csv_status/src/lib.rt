// How a run of a row text program stands: whether it may end or goes on, its status, and one line for what failed.
#![tactic(auto)]

ghost use Rattle.std.specs.Prelude.{◌⊎◌, ◌≡◌, ◌≤◌, ◌<◌};
ghost use Rattle.csv_status.specs.Status.{goes_on, is_over, may_end, status_of};

use std::fs::{Files, OpenOptions};
use std::io::Write;

// The descriptor of the status, as a file.
const STATUS_FILE: &str = "/dev/fd/3";

// The run goes on; it has ended; standard input, output or error failed.
pub const GOES_ON: u64 = 0;

pub const ENDED: u64 = 1;

pub const NO_INPUT: u64 = 2;

pub const NO_OUTPUT: u64 = 3;

pub const NO_ERROR: u64 = 4;

// Whether the input may end: behind its last line, and not before its header.
#[tactic(auto, unfolding(crate::specs::Status::may_end))]
pub fn may_end(left: usize, physical: u64) -> bool
    ensures { result ≡ may_end left physical }
{
    if left != 0 {
        return false;
    }
    if physical == 1 { false } else { true }
}

// Whether a run is over: no turn is made behind that.
#[tactic(auto, unfolding(crate::specs::Status::is_over))]
pub fn is_over(over: u64) -> bool
    ensures { result ≡ is_over over }
{
    over != GOES_ON
}

// The turns that are left: none once the run is over.
#[tactic(auto, unfolding(crate::specs::Status::is_over))]
pub fn turns_left(turns: u64, over: u64) -> u64
    requires { 0 < turns }
    ensures { (result < turns) × ((over ≡ goes_on) ⊎ (result ≡ 0)) }
{
    if is_over(over) { 0 } else { turns - 1 }
}

// Whether all of the bytes could be written.
pub fn is_written<W: Write>(to: &mut W, bytes: &[u8]) -> bool {
    match to.write_all(bytes) {
        Ok(()) => true,
        Err(_) => false,
    }
}

// What failed, in the words that stand behind the program's name.
fn words_of<E: Write>(over: u64, errors: &mut E) -> bool {
    match over {
        NO_INPUT => is_written(errors, b": standard input could not be read\n"),
        NO_OUTPUT => is_written(errors, b": standard output could not be written\n"),
        _ => true,
    }
}

// One plain line by which the program of this name says what failed. Nothing is said where standard error did.
pub fn tell<E: Write>(name: &[u8], over: u64, errors: &mut E) -> bool {
    if over < NO_INPUT {
        return true;
    }
    if over > NO_OUTPUT {
        return true;
    }
    if is_written(errors, name) {
        return words_of(over, errors);
    }
    false
}

// 0 done, 1 refused, 2 could not read or write, or did not come to the end.
#[tactic(auto, unfolding(crate::specs::Status::status_of))]
fn status_of(over: u64, refused: bool) -> u8
    ensures { (result ≡ status_of over refused) × (result ≤ 2) }
{
    if over != ENDED {
        return 2;
    }
    if refused { 1 } else { 0 }
}

// The status, as one digit.
pub fn report<F: Files>(files: &F, over: u64, refused: bool) -> bool {
    let digit = [b'0' + status_of(over, refused)];
    match OpenOptions::new().append(true).open(files, STATUS_FILE) {
        Ok(file) => {
            let mut to = file;
            is_written(&mut to, &digit)
        }
        Err(_) => false,
    }
}
