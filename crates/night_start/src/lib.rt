// The start of a night: whether its stack is large enough, its two tables, what stands in them already, and why it cannot start.
#![tactic(auto)]

ghost use Rattle.std.specs.Prelude.{◌≤◌, length};

use night_columns::read_whole;
use night_command::{Command, Reason};
use night_files::{How, cut_at, headed, is_torn, make_dir, open_in, open_path};
use night_header::{put_curved_header, put_tries_header};
use night_known::Jobs;
use night_lines::{cut_curved, take_lines};
use night_path::MOST_PATH;
use night_steps::{Night, complain, say};
use std::fs::File;
use std::io::Read;

// The bytes of stack that a try's memory and the rest of the program stay below.
const NEEDED: u64 = 134217728;

// What stands behind the name of the stack's limit in a text.
fn behind_name(text: &[u8]) -> Option<&[u8]> {
    for i in 0..text.len() {
        let rest = text[i..].strip_prefix(b"Max stack size");
        if rest.is_some() {
            return rest;
        }
    }
    None
}

// The first word of a text, between blanks.
fn first_word(text: &[u8]) -> Option<&[u8]> {
    text.split(|b| *b == b' ').find(|word| !word.is_empty())
}

// Whether the limits of a process, as the system tells them, leave room for a try's memory. A limit that is no number is none.
fn leaves_room(limits: &[u8]) -> bool {
    let word = behind_name(limits).and_then(|rest| first_word(rest));
    read_whole(word.unwrap_or(b"")).is_none_or(|limit| limit >= NEEDED)
}

// One reading of a file, and how many bytes came: none at its end, or where it cannot be read.
fn read_some(file: &File, buf: &mut [u8]) -> usize
    ensures { result ≤ length buf.new }
{
    let mut from = file;
    from.read(buf).unwrap_or(0)
}

// Reads a file until buf is full, the file ends or it cannot be read, and answers how many bytes came.
fn read_full(file: &File, buf: &mut [u8]) -> usize
    ensures { result ≤ length buf.new }
{
    let mut done: usize = 0;
    // No `for` is plainer: how many bytes a reading brings, and so how many readings there are, only the file tells.
    while done < buf.len() {
        let n = read_some(file, &mut buf[done..]);
        if n == 0 {
            return done;
        }
        done += n;
    }
    done
}

// Whether this process has room for a try's memory on its stack.
pub fn has_room(rt: &HostRuntime) -> bool {
    let Some(file) = open_path(rt, b"/proc/self/limits", How::Read) else {
        return true;
    };
    let mut limits = [0u8; MOST_PATH];
    let n = read_full(&file, &mut limits);
    leaves_room(&limits[..n])
}

// Says why the arguments make no sense.
pub fn explain(rt: &HostRuntime, reason: Reason) {
    match reason {
        Reason::BadForm => say(
            rt,
            b"usage: night --tolerances T[,T..] --out DIR FILE..    (night --help, night --version)\n",
        ),
        Reason::BadTolerances(i) => complain(
            rt,
            i,
            b": not 1 to 16 numbers above zero, with commas between them\n",
        ),
        Reason::BadDir(i) => complain(rt, i, b": no name of a folder\n"),
        Reason::TooMany => say(rt, b"night: more than 65,536 files\n"),
        // which is not printed: it may have an LF
        Reason::BadName => say(
            rt,
            b"night: a FILE is no name of a file, or has a comma, a quote or a byte below 32\n",
        ),
        Reason::SameName(i) => complain(rt, i, b": a file before it has the same name\n"),
        Reason::OurName(i) => complain(rt, i, b": this is a name of what night writes\n"),
    }
}

// The two tables.
#[derive(Clone, Copy)]
enum Table {
    Tries,
    Curved,
}

impl Table {
    fn name(self) -> &'static [u8] {
        match self {
            Table::Tries => b"tries.csv",
            Table::Curved => b"curved.csv",
        }
    }

    fn put_header(self, out: &mut [u8; 512]) -> usize
        ensures { result ≤ 512 }
    {
        match self {
            Table::Tries => put_tries_header(out, 0),
            Table::Curved => put_curved_header(out, 0),
        }
    }
}

// Opens a table for reading and writing, and makes it where it is not there.
fn open_table(rt: &HostRuntime, dir: usize, table: Table) -> Option<File> {
    let there = open_in(rt, dir, table.name(), How::Update);
    if there.is_some() {
        return there;
    }
    drop(open_in(rt, dir, table.name(), How::Create)?);
    open_in(rt, dir, table.name(), How::Update)
}

// Sees to a table's header, and answers how long it is; nothing where the table begins with something else, or it could not be
// read or written.
fn with_header(file: &File, table: Table) -> Option<u64> {
    let mut header = [0u8; 512];
    let n = table.put_header(&mut header);
    headed(file, &header[..n]).then_some(n as u64)
}

// A night that has begun, and where the lines of its tries begin.
#[derive(Drop)]
pub struct Began {
    pub night: Night,
    pub from: u64,
}

// The night, or what is said of DIR where it cannot be begun or go on behind the tries that are counted already.
fn started(rt: &HostRuntime, command: Command, jobs: &mut Jobs) -> Result<Began, &'static [u8]> {
    let dir = command.dir;
    make_dir(rt, dir);
    let Some(tries) = open_table(rt, dir, Table::Tries) else {
        return Err(b": tries.csv could not be opened\n");
    };
    let Some(from) = with_header(&tries, Table::Tries) else {
        return Err(b": tries.csv has another header, or it could not be read or written\n");
    };
    let Some(stood) = take_lines(rt, &tries, from, command, jobs) else {
        return Err(b": tries.csv has a line that is not of this night\n");
    };
    if !is_torn(&tries, stood.at) {
        return Err(b": tries.csv could not be read to its end\n");
    }
    if !cut_at(&tries, stood.at) {
        return Err(b": tries.csv could not be written\n");
    }
    let curved = curved_table(rt, dir, stood.curved)?;
    let night = Night {
        command,
        tries,
        curved,
    };
    Ok(Began { night, from })
}

// The table of blocks is opened and cut behind the lines of the tries that are counted.
fn curved_table(rt: &HostRuntime, dir: usize, lines: u64) -> Result<File, &'static [u8]> {
    let Some(curved) = open_table(rt, dir, Table::Curved) else {
        return Err(b": curved.csv could not be opened\n");
    };
    let Some(from) = with_header(&curved, Table::Curved) else {
        return Err(b": curved.csv has another header, or it could not be read or written\n");
    };
    if !cut_curved(&curved, from, lines) {
        return Err(b": curved.csv has not the lines that tries.csv counts\n");
    }
    Ok(curved)
}

// The night is begun, or goes on behind the tries that are counted already; where it cannot, this is said.
pub fn begun(rt: &HostRuntime, command: Command, jobs: &mut Jobs) -> Option<Began> {
    match started(rt, command, jobs) {
        Ok(began) => Some(began),
        Err(what) => {
            complain(rt, command.dir, what);
            None
        }
    }
}
