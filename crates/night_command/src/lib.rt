// What the arguments of a night ask for, by their places: nothing of them is kept but numbers.
#![tactic(auto)]

ghost use Rattle.std.specs.Prelude.{◌<◌, ◌≤◌};
ghost use Rattle.night_command.specs.Files.{most_files};

use csv_digits::wide;
use night_args::{count_of, field_at};
use night_names::is_ours;
use night_path::{MOST_PATH, Name, name_of};
use night_stands::may_stand;
use night_words::with_argument;
use std::env::FillError;
use std::rt::Env;

// At most so many files.
pub const MOST_FILES: usize = 65536;

// Room for the list of tolerances: at most 16 of at most 17 bytes, with a comma each.
pub const LIST_ROOM: usize = 288;

// The places of the list of tolerances, of DIR and of the first FILE among the arguments, and how many there are.
#[derive(Clone, Copy)]
pub struct Command {
    pub list: usize,
    pub tolerances: usize,
    pub dir: usize,
    pub first: usize,
    pub files: usize,
}

// Why the arguments ask for no night, with the place of the one that is at fault where it is named.
#[derive(Clone, Copy, PartialEq, Eq, Debug)]
pub enum Reason {
    BadForm,
    BadTolerances(usize),
    // DIR is empty or too long
    BadDir(usize),
    TooMany,
    // a FILE's name may not stand
    BadName,
    // a FILE before it has the same NAME
    SameName(usize),
    // it has the name of something that a night writes
    OurName(usize),
}

#[derive(Clone, Copy, PartialEq, Eq)]
enum Choice {
    Tolerances,
    Out,
}

// Arguments before the first FILE: the program, and two options with a value each.
const FIRST: usize = 5;

// The option that argument i is.
fn option_at(rt: &HostRuntime, i: usize) -> Option<Choice> {
    with_argument::<32, _, _>(rt, i, |word| match word {
        b"--tolerances" => Some(Choice::Tolerances),
        b"--out" => Some(Choice::Out),
        _ => None,
    })
}

// How many tolerances argument i lists, if it is a list of them.
fn tolerances_at(rt: &HostRuntime, i: usize) -> Option<usize> {
    with_argument::<LIST_ROOM, _, _>(rt, i, |list| count_of(list))
}

// Whether argument i has bytes, and no more than a path may have.
fn is_whole(rt: &HostRuntime, i: usize) -> bool {
    with_argument::<MOST_PATH, _, _>(rt, i, |path| !path.is_empty())
}

// The NAME of a FILE.
fn name_in(path: &[u8]) -> &[u8] {
    let Name { from, upto } = name_of(path);
    &path[from..upto]
}

// Whether an argument is a FILE's: it is no option, and it has a NAME.
fn names_file(path: &[u8]) -> bool {
    !path.is_empty() && !path.starts_with(b"-") && may_stand(path) && !name_in(path).is_empty()
}

// A path that may be no FILE is refused, where it is argument i.
fn file_named(path: &[u8], i: usize) -> Result<(), Reason> {
    if !names_file(path) {
        return Err(Reason::BadName);
    }
    if is_ours(path) {
        return Err(Reason::OurName(i));
    }
    Ok(())
}

// Each of so many FILES may be one.
fn files_named(rt: &HostRuntime, files: usize) -> Result<(), Reason>
    requires { files ≤ most_files }
{
    for i in FIRST..FIRST + files {
        with_argument::<MOST_PATH, _, _>(rt, i, |path| file_named(path, i))?;
    }
    Ok(())
}

// Slots of a table of names, of which at most half are taken; a prime.
const SLOTS: usize = 131071;

// A slot for a name.
fn slot_of(name: &[u8]) -> usize
    ensures { result < 131071 }
{
    let mut h: u64 = 0;
    for b in name {
        h = (h * 257 + wide(*b)) % 131071;
    }
    h as usize
}

// The slot for the NAME of argument i.
fn slot_at(rt: &HostRuntime, i: usize) -> usize
    ensures { result < 131071 }
{
    with_argument::<MOST_PATH, _, _>(rt, i, |path| slot_of(name_in(path)))
}

// Whether two arguments have the same NAME.
fn are_twins(rt: &HostRuntime, i: usize, j: usize) -> bool {
    with_argument::<MOST_PATH, _, _>(rt, i, |path| {
        with_argument::<MOST_PATH, _, _>(rt, j, |other| name_in(path) == name_in(other))
    })
}

// Puts argument i into the table, or finds one of the same NAME there: the answer then is true.
fn has_twin(rt: &HostRuntime, slots: &mut [usize; SLOTS], i: usize) -> bool {
    let first = slot_at(rt, i);
    for step in 0..SLOTS {
        let at = (first + step) % SLOTS;
        let there = slots[at];
        if there == 0 {
            slots[at] = i;
            return false;
        }
        if are_twins(rt, there, i) {
            return true;
        }
    }
    true
}

// None of so many FILES has the NAME of another before it.
fn files_apart(rt: &HostRuntime, files: usize) -> Result<(), Reason>
    requires { files ≤ most_files }
{
    let mut slots = [0usize; SLOTS];
    for i in FIRST..FIRST + files {
        if has_twin(rt, &mut slots, i) {
            return Err(Reason::SameName(i));
        }
    }
    Ok(())
}

// The night of so many FILES, with the values of the options at their places.
fn with_values(rt: &HostRuntime, list: usize, dir: usize, files: usize) -> Result<Command, Reason> {
    let tolerances = tolerances_at(rt, list).ok_or(Reason::BadTolerances(list))?;
    if !is_whole(rt, dir) {
        return Err(Reason::BadDir(dir));
    }
    if files > MOST_FILES {
        return Err(Reason::TooMany);
    }
    files_named(rt, files)?;
    files_apart(rt, files)?;
    Ok(Command {
        list,
        tolerances,
        dir,
        first: FIRST,
        files,
    })
}

// Whether there is an argument i, however long it is.
fn is_there(rt: &HostRuntime, i: usize) -> bool {
    let mut first = [0u8; 1];
    !matches!(rt.arg(i, &mut first), Err(FillError::NotPresent))
}

// So many arguments are more than a night may have.
const TOO_MANY_ARGUMENTS: usize = FIRST + MOST_FILES + 1;

// How many arguments there are; of so many that they are too many, no more are counted.
fn argument_count(rt: &HostRuntime) -> usize {
    (0..TOO_MANY_ARGUMENTS)
        .position(|i| !is_there(rt, i))
        .unwrap_or(TOO_MANY_ARGUMENTS)
}

// What the arguments ask for.
pub fn command_of(rt: &HostRuntime) -> Result<Command, Reason> {
    let count = argument_count(rt);
    if count <= FIRST {
        return Err(Reason::BadForm);
    }
    let files = count - FIRST;
    match (option_at(rt, 1), option_at(rt, 3)) {
        (Some(Choice::Tolerances), Some(Choice::Out)) => with_values(rt, 2, 4, files),
        (Some(Choice::Out), Some(Choice::Tolerances)) => with_values(rt, 4, 2, files),
        _ => Err(Reason::BadForm),
    }
}

// Whether tolerance i of a command is this text.
pub fn is_tolerance_text(rt: &HostRuntime, command: Command, i: usize, text: &[u8]) -> bool {
    with_argument::<LIST_ROOM, _, _>(rt, command.list, |list| field_at(list, i) == Some(text))
}

// Whether argument i is this text.
pub fn is_argument(rt: &HostRuntime, i: usize, text: &[u8]) -> bool {
    with_argument::<MOST_PATH, _, _>(rt, i, |path| path == text)
}
