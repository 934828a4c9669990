// What a row of flattened rows is drawn as.
#![tactic(auto)]

ghost use Rattle.std.specs.Prelude.{◌≡◌, length};
ghost use Rattle.layout.specs.Layout.{row_words};
ghost use Rattle.picture_class.specs.Class.{straight_of, class_of, letter_of};

use layout::R_MARK;
use motion::is_rapid;
use still_curved::still_curved;

// A rapid move, a move at feed, a sample that was computed for a curve, and a row that still is a curve.
#[derive(Clone, Copy)]
pub enum Class {
    Rapid,
    Feed,
    Sample,
    Curved,
}

// The class of a row, and the motion that is in force behind it.
#[derive(Clone, Copy)]
pub struct Judged {
    pub motion: u64,
    pub class: Class,
}

// The class of a row that is not curved.
#[tactic(auto, unfolding(crate::specs::Class::straight_of))]
fn straight(marked: bool, motion: u64) -> Class
    ensures { result ≡ straight_of marked motion }
{
    match (marked, is_rapid(motion)) {
        (true, _) => Class::Sample,
        (false, true) => Class::Rapid,
        (false, false) => Class::Feed,
    }
}

// A row under the motion in force before it.
#[tactic(auto, unfolding(crate::specs::Class::class_of, still_curved::specs::Curved::seen_of))]
pub fn class_of(row: &[u64], motion: u64) -> Judged
    requires { length row.now ≡ row_words }
    ensures { result ≡ class_of motion row.now }
{
    let seen = still_curved(row, motion);
    let class = if seen.curved {
        Class::Curved
    } else {
        straight(row[R_MARK] != 0, seen.motion)
    };
    Judged {
        motion: seen.motion,
        class,
    }
}

// The letter that a class has in a picture.
pub fn letter(class: Class) -> u8
    ensures { result ≡ letter_of class }
{
    match class {
        Class::Rapid => b'r',
        Class::Feed => b'f',
        Class::Sample => b's',
        Class::Curved => b'c',
    }
}
