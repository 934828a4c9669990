// A line of a night's table of tries: its text, and reading one back.
#![tactic(auto)]

ghost use Rattle.std.specs.Prelude.{◌≡◌, ◌+◌, ◌≤◌, length};
ghost use Rattle.night_columns.specs.Columns.{columns};
ghost use Rattle.night_table.specs.Lines.{line_room, PutLine, Taken};

use csv_cells::field_end;
use night_columns::read_column;
use night_pieces::put_front;
use night_rest::put_rest;

// The line of a try: its numbers by their columns, and its two texts.
pub fn put_line(out: &mut [u8], n: usize, numbers: &[u64], file: &[u8], tolerance: &[u8]) -> usize
    requires { (length numbers.now ≡ columns) × (n + length file.now + length tolerance.now + line_room ≤ length out.old) }
    ensures { PutLine numbers.now file.now tolerance.now out.old n out.new result }
{
    let a = put_front(out, n, numbers, file, tolerance);
    put_rest(out, a, numbers)
}

// The numbers of a line, without its end, by their columns, and whether it is the line of a try.
pub fn read_line(text: &[u8], numbers: &mut [u64]) -> bool
    requires { length numbers.old ≡ columns }
    ensures { Taken text.now numbers.new result }
{
    let mut at: usize = 0;
    for (k, number) in numbers.iter_mut().enumerate() {
        if at > text.len() {
            return false;
        }
        let end = field_end(text, at);
        let Some(v) = read_column(&text[at..end], k) else {
            return false;
        };
        *number = v;
        at = end + 1;
    }
    at > text.len()
}
