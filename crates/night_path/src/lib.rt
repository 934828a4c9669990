// An argument of the program, and the name of a FILE: its path's last part without `.csv`.
#![tactic(auto)]

ghost use Rattle.std.specs.Prelude.{◌≡◌, ◌≤◌, length};
ghost use Rattle.night_path.specs.Names.{start_upto, ends_csv, name_of};

use std::rt::Env;

// The bytes of a path, at most. One that has so many cannot be opened.
pub const MOST_PATH: usize = 4096;

// Puts argument i of the program at the start of buf, and answers how many bytes it has: 0 where it has no room or is not there.
pub fn argument(rt: &HostRuntime, i: usize, buf: &mut [u8]) -> usize
    ensures { result ≤ length buf.new }
{
    match rt.arg(i, buf) {
        Ok(n) => n,
        Err(_) => 0,
    }
}

// How many bytes `.csv` has.
const ENDING: usize = 4;

// A path has the name of its file from one place up to another.
#[derive(Clone, Copy)]
pub struct Name {
    pub from: usize,
    pub upto: usize,
}

// The place behind the last slash.
#[tactic(auto, using(crate::proofs::Naming::start_hit, crate::proofs::Naming::start_on, crate::proofs::Naming::start_none))]
fn name_start(path: &[u8]) -> usize
    ensures { (result ≡ start_upto path.now (length path.now)) × (result ≤ length path.now) }
{
    for k in (0..path.len()).rev() {
        if path[k] == b'/' {
            return k + 1;
        }
    }
    0
}

// Whether the bytes from `from` on end in `.csv`.
fn ends_csv(path: &[u8], from: usize) -> bool
    requires { from ≤ length path.now }
    ensures { result ≡ ends_csv path.now from }
{
    path[from..].ends_with(b".csv")
}

// The name of a file: its last part without `.csv`.
pub fn name_of(path: &[u8]) -> Name
    ensures { (result ≡ name_of path.now) × ((result.from ≤ result.upto) × (result.upto ≤ length path.now)) }
{
    let from = name_start(path);
    if ends_csv(path, from) {
        return Name {
            from,
            upto: path.len() - ENDING,
        };
    }
    Name {
        from,
        upto: path.len(),
    }
}
