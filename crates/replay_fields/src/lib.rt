// The numbers in the fields of a line.
#![tactic(auto)]

ghost use Rattle.std.specs.Prelude.{◌≡◌, ◌≤◌, length, IfSome, OnSome};

use std::str::Split;

// A number has no more digits.
const MOST_DIGITS: usize = 16;

// The number that a text is: digits and nothing else, so the plus that the library reads is not read here.
fn number(text: &str, radix: u32) -> Option<u64>
    requires { (2 ≤ radix) × (radix ≤ 36) }
    ensures { OnSome result (length text.now ≤ 16) }
{
    if text.len() > MOST_DIGITS || text.starts_with('+') {
        return None;
    }
    u64::from_str_radix(text, radix).ok()
}

pub fn decimal(text: &str) -> Option<u64>
    ensures { OnSome result (length text.now ≤ 16) }
{
    number(text, 10)
}

pub fn hex(text: &str) -> Option<u64>
    ensures { OnSome result (length text.now ≤ 16) }
{
    number(text, 16)
}

// The numbers of the present cells, in code order, into `cells`; absent ones are zero.
pub fn cells(fields: &mut Split<'_, char>, present: u64, cells: &mut [u64]) -> Option<()>
    ensures { length cells.new ≡ length cells.old }
{
    let mut left = present;
    for cell in cells {
        *cell = if left % 2 == 1 {
            hex(fields.next()?)?
        } else {
            0
        };
        left = left / 2;
    }
    Some(())
}

// The numbers of the fields that are left, as many as `words` holds at most: how many there are.
pub fn numbers<F: Fn(&str) -> Option<u64>>(
    fields: &mut Split<'_, char>,
    read: F,
    words: &mut [u64],
) -> Option<usize>
    requires { F.IsAlwaysCallable read }
    ensures { (length words.new ≡ length words.old) × IfSome result (λ n. n ≤ length words.old) }
{
    for (count, word) in words.iter_mut().enumerate() {
        let Some(field) = fields.next() else {
            return Some(count);
        };
        *word = read(field)?;
    }
    Some(words.len())
}

// Codes with commas, or a lone minus, which is an empty list: how many there are.
pub fn axis_list(text: &str, codes: &mut [u64]) -> Option<usize>
    ensures { (length codes.new ≡ length codes.old) × IfSome result (λ n. n ≤ length codes.old) }
{
    if text == "-" {
        return Some(0);
    }
    let mut parts = text.split(',');
    let count = numbers(&mut parts, decimal, codes)?;
    parts.next().is_none().then_some(count)
}
