// The columns of a night's table of tries, and reading the field of one.
#![tactic(auto)]

ghost use Rattle.std.specs.Prelude.{◌≡◌};
ghost use Rattle.night_columns.specs.Columns.{is_text, may_lack};
ghost use Rattle.night_columns.specs.Read.{whole_of, empty_at, column_of};

use csv_fields::scan;

// The columns; those of warnings are one behind another.
pub const C_JOB: usize = 0;

pub const C_FILE: usize = 1;

pub const C_CHECKSUM: usize = 2;

pub const C_TRY: usize = 3;

pub const C_TOLERANCE: usize = 4;

pub const C_CLOSED: usize = 5;

pub const C_BLOCKS: usize = 6;

pub const C_ROWS: usize = 7;

pub const C_MARKED: usize = 8;

pub const C_REFUSAL: usize = 9;

pub const C_LINE: usize = 10;

pub const C_WARNINGS: usize = 11;

pub const C_CURVED: usize = 26;

pub const C_PASSED: usize = 27;

pub const COLUMNS: usize = 28;

// Digits of a whole number, at most.
const DIGITS: usize = 10;

// The whole number that a field is, of at most ten digits.
#[tactic(auto, unfolding(crate::specs::Read::whole_of))]
pub fn read_whole(field: &[u8]) -> Option<u64>
    ensures { result ≡ whole_of field.now }
{
    let digits = scan(field, DIGITS, 0);
    (digits.count != 0 && digits.count == field.len()).then_some(digits.n)
}

// Whether a column has a text and no number.
#[tactic(auto, unfolding(crate::specs::Columns::is_text))]
fn is_text(k: usize) -> bool
    ensures { result ≡ is_text k }
{
    k == C_FILE || k == C_TOLERANCE
}

// Whether the field of a column may be empty.
#[tactic(auto, unfolding(crate::specs::Columns::may_lack))]
fn may_lack(k: usize) -> bool
    ensures { result ≡ may_lack k }
{
    k == C_REFUSAL || k == C_LINE
}

// The number of an empty field.
#[tactic(auto, unfolding(crate::specs::Read::empty_at))]
fn read_empty(k: usize) -> Option<u64>
    ensures { result ≡ empty_at k }
{
    may_lack(k).then_some(0)
}

// What column k is read as: a text as how long it is.
#[tactic(auto, unfolding(crate::specs::Read::column_of))]
pub fn read_column(field: &[u8], k: usize) -> Option<u64>
    ensures { result ≡ column_of field.now k }
{
    if is_text(k) {
        Some(field.len() as u64)
    } else if field.is_empty() {
        read_empty(k)
    } else {
        read_whole(field)
    }
}
