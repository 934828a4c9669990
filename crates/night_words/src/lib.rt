// An argument of the program, lent as bytes to what is made of it.
#![tactic(auto)]

ghost use Rattle.std.specs.Prelude.{◌≤◌, ℕ, List, length};
ghost use Rattle.std.specs.Fn.{FnOnceReturnsAt};
ghost use Rattle.night_words.specs.Room.{most_room};

use night_path::argument;

// What is made of argument i where it has N bytes at most; of no bytes where it has more or is not there.
pub fn with_argument<const N: usize, T, F: FnOnce(&[u8]) -> T>(
    rt: &HostRuntime,
    i: usize,
    made: F,
) -> T
    requires room { N ≤ most_room }
    requires callable { F.IsAlwaysCallable made }
    ensures { (text : List ℕ) × (length text ≤ N) × FnOnceReturnsAt F.FnOnce made text result }
{
    let mut text = [0u8; N];
    let n = argument(rt, i, &mut text);
    made(&text[..n])
}
