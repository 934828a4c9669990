// The files of a night in its folder DIR: their paths, opening them, and cutting them back to what counts.
#![tactic(auto)]

ghost use Rattle.std.specs.Prelude.{◌≤◌, ◌<◌, length, IfSome};
ghost use Rattle.io.specs.Counts.{IsPrefixLen};

use csv_figures::{put_byte, put_whole};
use csv_line::put_bytes;
use csv_status::is_written;
use night_path::{MOST_PATH, Name, name_of};
use night_words::with_argument;
use std::fs;
use std::fs::{File, OpenOptions};
use std::io::{Seek, SeekFrom};
use std::os::unix::fs::FileExt;

// Room for a path: DIR, a slash, a name, and what stands behind it. One over 4,095 bytes cannot be opened.
pub const PATH_ROOM: usize = 8704;

// How a file is opened.
#[derive(Clone, Copy, PartialEq, Eq, Debug)]
pub enum How {
    Read,
    Overwrite,
    Update,
    Create,
}

// n where it counts bytes of a buffer, and 0 where it is too large.
pub fn within(n: usize, buf: &[u8]) -> usize
    ensures { IsPrefixLen result buf.now }
{
    if n <= buf.len() {
        return n;
    }
    0
}

// DIR, a slash, and a name; nothing where one of them has more than 4,096 bytes.
pub fn put_path(out: &mut [u8], dir: &[u8], name: &[u8]) -> Option<usize>
    ensures { IfSome result (λ n. IsPrefixLen n out.new) }
{
    if out.len() < PATH_ROOM || dir.len() > MOST_PATH || name.len() > MOST_PATH {
        return None;
    }
    let a = put_bytes(out, 0, dir);
    let b = put_byte(out, a, b'/');
    Some(put_bytes(out, b, name))
}

// Opens the file of a path. One that is no UTF-8 text cannot be opened.
pub fn open_path(rt: &HostRuntime, path: &[u8], how: How) -> Option<File> {
    let text = str::from_utf8(path).ok()?;
    let mut options = OpenOptions::new();
    match how {
        How::Read => options.read(true),
        How::Overwrite => options.write(true).create(true).truncate(true),
        How::Update => options.read(true).write(true),
        How::Create => options.write(true).create_new(true),
    };
    options.open(rt, text).ok()
}

fn rename_path(rt: &HostRuntime, from: &[u8], to: &[u8]) -> Option<()> {
    fs::rename(rt, str::from_utf8(from).ok()?, str::from_utf8(to).ok()?).ok()
}

fn remove_path(rt: &HostRuntime, path: &[u8]) -> Option<()> {
    fs::remove_file(rt, str::from_utf8(path).ok()?).ok()
}

// What is made of the path of a file of DIR, which is argument `dir`; nothing where it is too long.
fn in_folder<T, F: FnOnce(&[u8]) -> Option<T>>(
    rt: &HostRuntime,
    dir: usize,
    name: &[u8],
    made: F,
) -> Option<T>
    requires { F.IsAlwaysCallable made }
{
    let mut path = [0u8; PATH_ROOM];
    let n = with_argument::<MOST_PATH, _, _>(rt, dir, |folder| put_path(&mut path, folder, name))?;
    made(&path[..n])
}

// Opens a file of DIR.
pub fn open_in(rt: &HostRuntime, dir: usize, name: &[u8], how: How) -> Option<File> {
    in_folder(rt, dir, name, |path| open_path(rt, path, how))
}

// Renames a file of DIR.
pub fn rename_in(rt: &HostRuntime, dir: usize, from: &[u8], to: &[u8]) -> bool {
    let renamed = in_folder(rt, dir, from, |old| {
        in_folder(rt, dir, to, |new| rename_path(rt, old, new))
    });
    renamed.is_some()
}

// Removes a file of DIR.
pub fn remove_in(rt: &HostRuntime, dir: usize, name: &[u8]) -> bool {
    in_folder(rt, dir, name, |path| remove_path(rt, path)).is_some()
}

// Makes DIR where it is not there; whether it can be used shows where a file in it is opened.
pub fn make_dir(rt: &HostRuntime, dir: usize) -> bool {
    with_argument::<MOST_PATH, _, _>(rt, dir, |folder| {
        str::from_utf8(folder).is_ok_and(|path| fs::create_dir(rt, path).is_ok())
    })
}

// The name of the rows of a try, `NAME.tryN.csv`, for this FILE; nothing where it is too long.
pub fn put_rows_name(out: &mut [u8], path: &[u8], number: u64) -> Option<usize>
    ensures { IfSome result (λ n. IsPrefixLen n out.new) }
{
    if out.len() < PATH_ROOM || path.len() > MOST_PATH {
        return None;
    }
    let Name { from, upto } = name_of(path);
    let a = put_bytes(out, 0, &path[from..upto]);
    let b = put_bytes(out, a, b".try");
    let c = put_whole(out, b, number);
    Some(put_bytes(out, c, b".csv"))
}

// The same with `.part` behind it.
pub fn put_part_name(out: &mut [u8], path: &[u8], number: u64) -> Option<usize>
    ensures { IfSome result (λ n. IsPrefixLen n out.new) }
{
    let a = put_rows_name(out, path, number)?;
    if a > MOST_PATH || out.len() < PATH_ROOM {
        return None;
    }
    Some(put_bytes(out, a, b".part"))
}

// Places in a file are kept below this one.
const MOST_PLACE: u64 = 0x4000_0000_0000_0000;

pub fn place_of(at: u64) -> u64 {
    if at < MOST_PLACE { at } else { 0 }
}

// The place in a file at which the next byte is read or written, where the system tells it.
pub fn place_in(file: &File) -> Option<u64> {
    let mut there = file;
    there.stream_position().ok()
}

// Cuts a file off at a place, where the next byte is written then.
pub fn cut_back(file: &File, at: u64) -> bool {
    let mut there = file;
    file.set_len(at).is_ok() && there.seek(SeekFrom::Start(at)).is_ok()
}

pub fn cut_at(file: &File, at: u64) -> bool {
    cut_back(file, place_of(at))
}

// Reads once from a place of a file on, and answers how many bytes came: none where it cannot be read.
fn read_from(file: &File, at: u64, buf: &mut [u8]) -> usize
    ensures { IsPrefixLen result buf.new }
{
    file.read_at(buf, place_of(at)).unwrap_or(0)
}

fn place_behind(at: u64, n: usize) -> u64 {
    place_of(std::num::wrapping_add_u64(at, n as u64))
}

// The place of the first LF of bytes.
fn line_feed(part: &[u8]) -> Option<usize>
    ensures { IfSome result (λ i. i < length part.now) }
{
    part.iter().position(|b| *b == b'\n')
}

// The bytes that are read at once, where lines are only counted.
const MUCH: usize = 65536;

// Whether no whole line stands in a file from a place on, and all that is there was read: only then may it be cut off.
pub fn is_torn(file: &File, at: u64) -> bool {
    let mut buf = [0u8; MUCH];
    let Ok(n) = file.read_at(&mut buf, place_of(at)) else {
        return false;
    };
    let mut there = file;
    line_feed(&buf[..n]).is_none()
        && there
            .seek(SeekFrom::End(0))
            .is_ok_and(|end| end == place_behind(at, n))
}

// What a file begins with: its header; a part of it or nothing; something else.
#[derive(Clone, Copy, PartialEq, Eq, Debug)]
pub enum Head {
    Whole,
    Torn,
    Other,
}

// Compares what a file begins with, `there`, with its header.
fn head_of(there: &[u8], header: &[u8]) -> Head {
    if there.starts_with(header) {
        return Head::Whole;
    }
    if header.starts_with(there) {
        Head::Torn
    } else {
        Head::Other
    }
}

// What a file begins with.
pub fn head_at(file: &File, header: &[u8]) -> Head {
    let mut there = [0u8; 512];
    let n = read_from(file, 0, &mut there);
    head_of(&there[..n], header)
}

// Sees to it that a file has its header, and answers whether it has.
pub fn headed(file: &File, header: &[u8]) -> bool {
    let mut to = file;
    match head_at(file, header) {
        Head::Whole => true,
        Head::Torn => is_torn(file, 0) && cut_at(file, 0) && is_written(&mut to, header),
        Head::Other => false,
    }
}

// Reads from a place of a file on, and answers how many bytes the first line there has with its LF, where one stands whole.
pub fn line_at(file: &File, at: u64, buf: &mut [u8]) -> Option<usize>
    ensures { IfSome result (λ n. IsPrefixLen n buf.new) }
{
    let n = read_from(file, at, buf);
    let end = line_feed(&buf[..n])?;
    Some(end + 1)
}

// Where lines end in bytes: the place behind so many of them, and how many are left where there are not so many.
#[derive(Clone, Copy)]
pub struct Skipped {
    pub at: usize,
    pub left: u64,
}

fn behind_lines(part: &[u8], lines: u64) -> Skipped
    ensures { result.at ≤ length part.now }
{
    let mut left = lines;
    for (at, b) in part.iter().enumerate() {
        if left == 0 {
            return Skipped { at, left };
        }
        if *b == b'\n' {
            left -= 1;
        }
    }
    Skipped {
        at: part.len(),
        left,
    }
}

// One reading of a file from a place on, of which so many lines are to be skipped.
fn skip_some(file: &File, at: u64, lines: u64) -> Skipped
    ensures { result.at ≤ 65536 }
{
    let mut buf = [0u8; MUCH];
    let n = read_from(file, at, &mut buf);
    behind_lines(&buf[..n], lines)
}

// The place in a file behind so many lines from a place on, where it has so many.
pub fn behind(file: &File, from: u64, lines: u64) -> Option<u64> {
    let mut at = from;
    let mut left = lines;
    // No `for` is plainer: how many bytes a reading brings, and so how many readings there are, only the file tells.
    while at < MOST_PLACE {
        if left == 0 {
            return Some(at);
        }
        let s = skip_some(file, at, left);
        if s.at == 0 {
            return None;
        }
        at += s.at as u64;
        left = s.left;
    }
    None
}
