// A refusal in a try of a night: the first of a try is kept, and how the try stands behind it.
#![tactic(auto)]

ghost use Rattle.std.specs.Prelude.{◌≡◌};
ghost use Rattle.night_refusal.specs.Refusal.{stands_then, turned_down};

use csv_count::BAD_TEXT;
use night_course::{Course, LEFT, REFUSED};
use tally_call::{K_CLOSE, TOO_FEW_PLACES};

// How a try stands behind a refusal.
#[tactic(auto, unfolding(crate::specs::Refusal::stands_then))]
fn stands_then(kind: u64, code: u64) -> u64
    ensures { result ≡ stands_then kind code }
{
    if code == TOO_FEW_PLACES || code != BAD_TEXT && kind == K_CLOSE {
        LEFT
    } else {
        REFUSED
    }
}

// A refusal at a line: the first of a try is kept.
#[tactic(auto, unfolding(crate::specs::Refusal::turned_down))]
pub fn turned_down(course: Course, kind: u64, code: u64, line: u64) -> Course
    ensures { result ≡ turned_down course kind code line }
{
    let stands = stands_then(kind, code);
    if course.refusal == 0 {
        Course {
            refusal: code,
            line,
            stands,
            ..course
        }
    } else {
        Course { stands, ..course }
    }
}
