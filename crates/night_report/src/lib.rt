// The lines that a night prints at its end, as bytes.
#![tactic(auto)]

ghost use Rattle.std.specs.Prelude.{◌≡◌, ◌+◌, ◌≤◌, length};
ghost use Rattle.night_columns.specs.Columns.{columns};

use csv_figures::put_whole;
use csv_line::put_bytes;
use night_columns::{C_LINE, C_REFUSAL, C_WARNINGS};

// The refusal and the warning that depend on the tolerance, the latter by its place among the warnings, which are numbered from 1.
const TOO_FEW_PLACES: u64 = 7;

const TOO_FINE: usize = 5;

const WARNINGS: usize = 15;

// The digits of a number.
fn number(out: &mut [u8], n: usize, v: u64) -> usize
    requires { n + 10 ≤ length out.old }
    ensures { result ≤ n + 10 }
{
    put_whole(out, n, v)
}

fn word(out: &mut [u8], n: usize, s: &[u8]) -> usize
    requires { n + length s.now ≤ length out.old }
    ensures { result ≡ n + length s.now }
{
    put_bytes(out, n, s)
}

// Jobs are at most so many.
const MOST_JOBS: u64 = 65536;

// a of b in tenths of a percent, rounded down; of none it is not asked.
fn tenths(a: u64, b: u64) -> u64 {
    if a >= b {
        1000
    } else if b > MOST_JOBS {
        0
    } else {
        a * 1000 / b
    }
}

// `24 of 29`
fn put_of(out: &mut [u8], n: usize, a: u64, b: u64) -> usize
    requires { n + 24 ≤ length out.old }
    ensures { result ≤ n + 24 }
{
    let x = number(out, n, a);
    let y = word(out, x, b" of ");
    number(out, y, b)
}

// `first tries passed 24 of 29, 82.7 percent`
pub fn put_rate(out: &mut [u8], what: &[u8], a: u64, b: u64) -> usize
    requires { (length what.now ≤ 32) × (128 ≤ length out.old) }
    ensures { result ≤ 128 }
{
    let x = word(out, 0, what);
    let y = put_of(out, x, a, b);
    if b == 0 {
        return word(out, y, b"\n");
    }
    put_percent(out, y, tenths(a, b))
}

// `, 82.7 percent`, of tenths.
fn put_percent(out: &mut [u8], n: usize, t: u64) -> usize
    requires { n + 40 ≤ length out.old }
    ensures { result ≤ n + 40 }
{
    let v = word(out, n, b", ");
    let w = number(out, v, t / 10);
    let p = word(out, w, b".");
    let q = number(out, p, t % 10);
    word(out, q, b" percent\n")
}

// `jobs 30`
pub fn put_count(out: &mut [u8], what: &[u8], a: u64) -> usize
    requires { (length what.now ≤ 32) × (128 ≤ length out.old) }
    ensures { result ≤ 128 }
{
    let x = word(out, 0, what);
    let y = number(out, x, a);
    word(out, y, b"\n")
}

// Whether any warning but that of too fine a tolerance was given.
fn other_warning(numbers: &[u64]) -> bool
    requires { length numbers.now ≡ columns }
{
    numbers[C_WARNINGS..C_WARNINGS + WARNINGS]
        .iter()
        .enumerate()
        .any(|(w, calls)| w != TOO_FINE && *calls != 0)
}

// Whether a coarser tolerance could help a try: nothing else is among its reasons.
pub fn could_help(numbers: &[u64]) -> bool
    requires { length numbers.now ≡ columns }
{
    !other_warning(numbers) && matches!(numbers[C_REFUSAL], 0 | TOO_FEW_PLACES)
}

// A warning behind a space, where calls had it.
fn put_warning(out: &mut [u8], n: usize, warning: u64, calls: u64) -> usize
    requires { n + 11 ≤ length out.old }
    ensures { result ≤ n + 11 }
{
    if calls == 0 {
        return n;
    }
    let a = word(out, n, b" ");
    number(out, a, warning)
}

// The warnings that a try was given.
fn put_warnings(out: &mut [u8], n: usize, numbers: &[u64]) -> usize
    requires { (length numbers.now ≡ 28) × (n + 165 ≤ length out.old) }
    ensures { result ≤ n + 165 }
{
    let mut at = n;
    for w in 0..WARNINGS {
        at = put_warning(out, at, w as u64 + 1, numbers[C_WARNINGS + w]);
    }
    at
}

// Its refusal, if there was one.
fn put_refusal(out: &mut [u8], n: usize, numbers: &[u64]) -> usize
    requires { (length numbers.now ≡ 28) × (n + 48 ≤ length out.old) }
    ensures { result ≤ n + 48 }
{
    let refusal = numbers[C_REFUSAL];
    if refusal == 0 {
        return n;
    }
    let a = word(out, n, b" refused by ");
    let b = number(out, a, refusal);
    let c = word(out, b, b" at line ");
    let d = number(out, c, numbers[C_LINE]);
    word(out, d, b",")
}

// Why a try did not pass, and whether a coarser tolerance could help.
pub fn put_reasons(out: &mut [u8], n: usize, numbers: &[u64]) -> usize
    requires { (length numbers.now ≡ 28) × (n + 280 ≤ length out.old) }
    ensures { result ≤ n + 280 }
{
    let a = put_refusal(out, n, numbers);
    let b = put_warned(out, a, numbers);
    if could_help(numbers) {
        return word(out, b, b" a coarser tolerance could help\n");
    }
    word(out, b, b" a coarser tolerance cannot help\n")
}

// The warnings, if there were any.
fn put_warned(out: &mut [u8], n: usize, numbers: &[u64]) -> usize
    requires { (length numbers.now ≡ 28) × (n + 180 ≤ length out.old) }
    ensures { result ≤ n + 180 }
{
    let a = word(out, n, b" warnings");
    let b = put_warnings(out, a, numbers);
    if b == a {
        return n;
    }
    word(out, b, b",")
}

// ` tried at 1 of 2 tolerances`
pub fn put_tried(out: &mut [u8], n: usize, tries: u64, tolerances: u64) -> usize
    requires { n + 64 ≤ length out.old }
    ensures { result ≤ n + 64 }
{
    let a = word(out, n, b" tried at ");
    let b = put_of(out, a, tries, tolerances);
    word(out, b, b" tolerances\n")
}

// How many of how many jobs are done, over what stands in the line already.
pub fn put_done(out: &mut [u8], done: u64, files: u64) -> usize
    requires { 64 ≤ length out.old }
    ensures { result ≤ 64 }
{
    let a = word(out, 0, b"\rnight: ");
    let b = put_of(out, a, done, files);
    word(out, b, b" jobs done")
}
