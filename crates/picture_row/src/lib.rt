// A row of the picture program's input: it is drawn, and its bytes wait behind those that do.
#![tactic(auto)]

ghost use Rattle.std.specs.Prelude.{◌≡◌, length};
ghost use Rattle.layout.specs.Layout.{row_words};
ghost use Rattle.picture_pen.specs.Drawing.{PlaneOk};
ghost use Rattle.picture_row.specs.Room.{Room, Kept};

use csv_io::OUT_ROOM;
use csv_out::Run;
use picture_pen::{Pen, draw};
use picture_span::Plane;

// How the lines so far stand, and the pen behind them.
#[derive(Clone, Copy)]
pub struct Sheet {
    pub run: Run,
    pub pen: Pen,
}

// A row.
pub fn row_line(run: Run, pen: Pen, plane: Plane, row: &[u64], out: &mut [u8; OUT_ROOM]) -> Sheet
    requires { (length row.now ≡ row_words) × (PlaneOk plane × Room run) }
    ensures { Kept run result.run }
{
    let drawn = draw(pen, row, plane, out, run.out);
    Sheet {
        run: Run {
            out: drawn.at,
            ..run
        },
        pen: drawn.pen,
    }
}
