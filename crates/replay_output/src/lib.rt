// Answers, put into a buffer; what does not fit is left out, and the callers flush in time.
#![tactic(auto)]

ghost use Rattle.std.specs.Prelude.{◌≡◌, ◌<◌, ◌≤◌, length};
ghost use Rattle.layout.specs.Layout.{r_cells};

use layout::{R_CARRY, R_CELLS, R_LINE, R_MARK, R_MOTION, R_PLANE, R_PRESENT, ROW_WORDS};
use std::fmt;
use std::fmt::Write as _;
use std::io::Write;

// The output is flushed once it passes this place: the longest line fits behind it.
const FLUSH_AT: usize = 32768;

// Text that waits to be written: the bytes of `out` up to `at`.
#[derive(Drop)]
pub struct Waiting<'a> {
    out: &'a mut [u8],
    at: usize,
}

impl fmt::Write for Waiting<'_> {
    fn write_str(&mut self, s: &str) -> fmt::Result {
        if let Some(room) = self.out.get_mut(self.at..) {
            let n = room.len().min(s.len());
            room[..n].copy_from_slice(&s.as_bytes()[..n]);
            self.at += n;
        }
        Ok(())
    }
}

impl<'a> Waiting<'a> {
    // Nothing waits.
    pub fn new(out: &'a mut [u8]) -> Waiting<'a>
        ensures { result.at ≡ 0 }
    {
        Waiting { out, at: 0 }
    }

    // What cannot be written is lost, and the run goes on.
    pub fn flush<W: Write>(&mut self, output: &mut W)
        ensures { self.new.at ≡ 0 }
    {
        let n = self.at.min(self.out.len());
        let _ = output.write_all(&self.out[..n]);
        self.at = 0;
    }

    // Makes room for a line.
    pub fn flush_in_time<W: Write>(&mut self, output: &mut W)
        ensures { self.new.at < 32768 }
    {
        if self.at >= FLUSH_AT {
            self.flush(output);
        }
    }

    // The numbers of the present cells, each behind a blank.
    fn put_cells(&mut self, present: u64, cells: &[u64]) {
        let mut left = present;
        for cell in cells {
            if left % 2 == 1 {
                let _ = write!(self, " {cell:016x}");
            }
            left = left / 2;
        }
    }

    // A row that was written, as a line.
    pub fn put_row(&mut self, row: &[u64])
        requires { r_cells ≤ length row.now }
    {
        let _ = write!(
            self,
            "row {} {} {} {} {:x} {:x}",
            row[R_LINE], row[R_MOTION], row[R_PLANE], row[R_MARK], row[R_CARRY], row[R_PRESENT]
        );
        self.put_cells(row[R_PRESENT], &row[R_CELLS..]);
        let _ = writeln!(self);
    }

    // The first `count` rows, a line each.
    pub fn put_rows<W: Write>(&mut self, rows: &[u64], count: u64, output: &mut W) {
        for row in rows.chunks_exact(ROW_WORDS).take(count as usize) {
            self.flush_in_time(output);
            self.put_row(row);
        }
    }
}
