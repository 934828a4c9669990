// The pieces of a picture's text: a text, and a number behind it, stored from n on.
#![tactic(auto)]

ghost use Rattle.std.specs.Prelude.{◌+◌, ◌≤◌, ◌<◌, length};
ghost use Rattle.picture_place.specs.Place.{place_room};
ghost use Rattle.picture_fit.specs.Fit.{most_scale};
ghost use Rattle.picture_piece.specs.Grew.{count_room, parts_room, scale_room, Grew};

use csv_figures::{put_millionths, put_whole};
use picture_fit::Scale;
use picture_place::put_place;

pub fn put_text(out: &mut [u8], n: usize, s: &[u8]) -> usize
    requires { n + length s.now ≤ length out.old }
    ensures { Grew out.old n (length s.now) out.new result }
{
    csv_line::put_bytes(out, n, s)
}

fn put_letter(out: &mut [u8], n: usize, letter: u8) -> usize
    requires { n + 1 ≤ length out.old }
    ensures { Grew out.old n 1 out.new result }
{
    csv_figures::put_byte(out, n, letter)
}

fn put_count(out: &mut [u8], n: usize, v: u64) -> usize
    requires { n + count_room ≤ length out.old }
    ensures { Grew out.old n count_room out.new result }
{
    put_whole(out, n, v)
}

fn put_length(out: &mut [u8], n: usize, p: u64) -> usize
    requires { n + place_room ≤ length out.old }
    ensures { Grew out.old n place_room out.new result }
{
    put_place(out, n, p)
}

fn put_parts(out: &mut [u8], n: usize, v: u64) -> usize
    requires { (n + parts_room ≤ length out.old) × (v < most_scale) }
    ensures { Grew out.old n parts_room out.new result }
{
    put_millionths(out, n, v)
}

fn put_scale(out: &mut [u8], n: usize, scale: Scale) -> usize
    requires { (n + scale_room ≤ length out.old) × (scale.millionths < most_scale) }
    ensures { Grew out.old n scale_room out.new result }
{
    let a = put_parts(out, n, scale.millionths);
    if scale.fine {
        return put_text(out, a, b"e-4");
    }
    a
}

// The letter of an axis.
fn axis_letter(code: usize) -> u8 {
    match code {
        0 => b'X',
        1 => b'Y',
        _ => b'Z',
    }
}

// ---- a text, and behind it a number
pub fn then_count(out: &mut [u8], n: usize, s: &[u8], v: u64) -> usize
    requires { n + (length s.now + count_room) ≤ length out.old }
    ensures { Grew out.old n (length s.now + count_room) out.new result }
{
    let a = put_text(out, n, s);
    put_count(out, a, v)
}

pub fn then_length(out: &mut [u8], n: usize, s: &[u8], p: u64) -> usize
    requires { n + (length s.now + place_room) ≤ length out.old }
    ensures { Grew out.old n (length s.now + place_room) out.new result }
{
    let a = put_text(out, n, s);
    put_length(out, a, p)
}

pub fn then_axis(out: &mut [u8], n: usize, s: &[u8], code: usize) -> usize
    requires { n + (length s.now + 1) ≤ length out.old }
    ensures { Grew out.old n (length s.now + 1) out.new result }
{
    let a = put_text(out, n, s);
    put_letter(out, a, axis_letter(code))
}

pub fn then_scale(out: &mut [u8], n: usize, s: &[u8], scale: Scale) -> usize
    requires { (n + (length s.now + scale_room) ≤ length out.old) × (scale.millionths < most_scale) }
    ensures { Grew out.old n (length s.now + scale_room) out.new result }
{
    let a = put_text(out, n, s);
    put_scale(out, a, scale)
}
