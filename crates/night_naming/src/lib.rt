// The line that names a block that stays curved.
#![tactic(auto)]

ghost use Rattle.std.specs.Prelude.{[], ◌∷◌, ◌++◌, ◌+◌, ◌≤◌, ◌<◌, length};
ghost use Rattle.csv_figures.specs.Write.{whole_text};
ghost use Rattle.csv_words.specs.Words.{word_at};
ghost use Rattle.csv_line.specs.LineText.{comma, crlf};
ghost use Rattle.night_naming.specs.Naming.{listed_room, number_or_none, listed_line};
ghost use Rattle.night_naming.specs.Pieces.{motion_words, number_room, word_room, PutIn};

use csv_figures::{put_byte, put_whole};
use csv_line::put_crlf;
use csv_words::put_motion;

// A number and the comma behind it.
fn put_field(out: &mut [u8], n: usize, v: u64) -> usize
    requires { n + number_room ≤ length out.old }
    ensures { PutIn number_room (whole_text v ++ (comma ∷ [])) out.old n out.new result }
{
    let a = put_whole(out, n, v);
    put_byte(out, a, b',')
}

// A motion's word and the comma behind it.
fn put_word(out: &mut [u8], n: usize, motion: u64) -> usize
    requires { (n + word_room ≤ length out.old) × (motion < motion_words) }
    ensures { PutIn word_room (word_at motion ++ (comma ∷ [])) out.old n out.new result }
{
    let a = put_motion(out, n, motion as usize);
    put_byte(out, a, b',')
}

// A warning, and the end of the line.
fn put_last(out: &mut [u8], n: usize, warning: u64) -> usize
    requires { n + number_room ≤ length out.old }
    ensures { PutIn number_room (number_or_none warning ++ crlf) out.old n out.new result }
{
    if warning == 0 {
        return put_crlf(out, n);
    }
    let a = put_whole(out, n, warning);
    put_crlf(out, a)
}

// The line that names a block.
pub fn put_line(
    job: u64,
    number: u64,
    line: u64,
    motion: u64,
    warning: u64,
    out: &mut [u8],
    n: usize,
) -> usize
    requires { (n + listed_room ≤ length out.old) × (motion < motion_words) }
    ensures { PutIn listed_room (listed_line job number line motion warning) out.old n out.new result }
{
    let a = put_field(out, n, job);
    let b = put_field(out, a, number);
    let c = put_field(out, b, line);
    let d = put_word(out, c, motion);
    put_last(out, d, warning)
}
