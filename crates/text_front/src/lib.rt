// Unread bytes moved to the front of a buffer, and more read behind them.
#![tactic(auto)]

ghost use Rattle.std.specs.Prelude.{◌≤◌, length};
ghost use Rattle.text_front.specs.Front.{More, AtFront, came};

use std::io::{Error, Read};

// Moves the bytes from `at` up to `end` to the front of buf, and answers how many there are.
pub fn to_front(buf: &mut [u8], at: usize, end: usize) -> usize
    requires { (at ≤ end) × (end ≤ length buf.old) }
    ensures { AtFront buf.old at end buf.new result }
{
    buf.copy_within(at..end, 0);
    end - at
}

// Reads into buf behind its first n bytes, and answers how many it has then.
pub fn read_more<R: Read>(input: &mut R, buf: &mut [u8], n: usize) -> Result<usize, Error>
    requires { n ≤ length buf.old }
    ensures { More buf.old n buf.new (came n result) }
{
    let part = &mut buf[n..];
    let got = input.read(part)?;
    Ok(n + got)
}
