// Files as the command reads and writes them. `-` is standard input, or standard output. What cannot be read or written is said on standard error, with the
// file's name and the system's reason.
#![tactic(auto)]

ghost use Rattle.std.specs.Prelude.{◌≤◌, length, ◌≡◌, IfOk, IfSome};
ghost use Rattle.std.specs.Result.{result_ok};

use arrayvec::ArrayString;
use std::fmt::Write as _;
use std::fs::{Metadata, OpenFile, OpenOptions, Permissions};
use std::io::{Error, ErrorKind, Input, Print, Read, Write};
use std::os::unix::fs::{MetadataExt, PermissionsExt};
use std::random::RandomSource;
use std::rt::Files;
use std::{fs, io, str};

// What the command needs of the system that it runs on: files, the standard streams, memory for the name behind a link, and bytes that nobody foresees.
pub trait Host: Files + Input + Print + Alloc + RandomSource {
    // To standard error: bytes that need not be text.
    fn complain(&self, text: &[u8]) -> io::Result<()>;
}

impl Host for HostRuntime {
    fn complain(&self, text: &[u8]) -> io::Result<()> {
        Print::write_all(&self.stderr(), text)
    }
}

// "source over 32,768 bytes": one byte more decides it.
pub const SOURCE_ROOM: usize = 32769;

// The longest object text has 44,095 bytes: one byte more decides that a file is none.
pub const OBJECT_ROOM: usize = 44096;

// ── what is said of a failure ──

// The longest of the system's reasons has 49 bytes.
const REASON_ROOM: usize = 256;

// What the library puts behind the system's reason: its number.
const NUMBERED: &str = " (os error ";

// The system's reason without its number.
fn reason(words: &str) -> &str {
    words
        .split_once(NUMBERED)
        .map_or(words, |(reason, _)| reason)
}

// The name, a colon and the reason.
fn fail<R: Host>(rt: &R, name: &[u8], e: &Error) {
    let mut words = ArrayString::<REASON_ROOM>::new();
    let _ = write!(words, "{e}");
    complain(rt, name);
    complain(rt, b": ");
    complain(rt, reason(words.as_str()).as_bytes());
    complain(rt, b"\n");
}

// What came of it, if it was done; if not, that is said.
fn told<R: Host, T>(rt: &R, name: &[u8], done: io::Result<T>) -> Option<T>
    ensures { result ≡ result_ok done }
{
    match done {
        Ok(value) => Some(value),
        Err(e) => {
            fail(rt, name, &e);
            None
        }
    }
}

// ── reading ──

// How far to read after n bytes: only what begins as an object text does is read further than a source.
fn next_end(first: u8, n: usize, end: usize, size: usize) -> usize
    requires { end ≤ size }
    ensures { (end ≤ result) × (result ≤ size) }
{
    if (n == end) & (first == b'0') {
        return size;
    }
    end
}

// As much as there is room for.
fn read_all<F: Read>(file: &mut F, room: &mut [u8]) -> io::Result<usize>
    ensures { IfOk result (λ n. n ≤ length room.old) }
{
    let mut n: usize = 0;
    let mut end = room.len().min(SOURCE_ROOM);
    while n < end {
        let size = file.read(&mut room[n..end])?;
        if size == 0 {
            return Ok(n);
        }
        n += size;
        end = next_end(figures::first(room), n, end, room.len());
    }
    Ok(n)
}

fn is_standard(name: &[u8]) -> bool {
    figures::same(name, b"-")
}

// The system's files have names of any bytes, the library's are text: another name is none that can be reached.
fn path(name: &[u8]) -> io::Result<&str> {
    str::from_utf8(name).map_err(|_| Error::new(
        ErrorKind::InvalidFilename,
        "the name is not UTF-8",
    ))
}

fn read_standard<R: Host>(rt: &R, room: &mut [u8]) -> io::Result<usize>
    ensures { IfOk result (λ n. n ≤ length room.old) }
{
    let mut input = rt.reader();
    read_all(&mut input, room)
}

fn read_named<R: Host>(rt: &R, name: &[u8], room: &mut [u8]) -> io::Result<usize>
    ensures { IfOk result (λ n. n ≤ length room.old) }
{
    let mut file = fs::open(rt, path(name)?)?;
    read_all(&mut file, room)
}

// A file's first bytes, as many as there is room for; none where it cannot be read, which is said.
pub fn load<'a, R: Host>(rt: &R, name: &[u8], room: &'a mut [u8]) -> Option<&'a [u8]>
    ensures { IfSome result (λ text. length text.now ≤ length room.old) }
{
    let size = if is_standard(name) {
        let read = read_standard(rt, room);
        told(rt, b"standard input", read)?
    } else {
        let read = read_named(rt, name, room);
        told(rt, name, read)?
    };
    Some(&room[..size])
}

// ── the standard streams ──

// To standard output.
pub fn print<R: Host>(rt: &R, text: &[u8]) -> bool {
    told(rt, b"standard output", Print::write_all(rt, text)).is_some()
}

// To standard error.
pub fn complain<R: Host>(rt: &R, text: &[u8]) {
    let _ = rt.complain(text);
}

// ── what is known of a file ──

// What a file that is replaced keeps: who owns it, and its mode.
#[derive(Clone, Copy)]
struct Kept {
    owner: u32,
    group: u32,
    mode: u32,
}

impl From<&Metadata> for Kept {
    fn from(about: &Metadata) -> Kept {
        Kept {
            owner: about.uid(),
            group: about.gid(),
            mode: about.mode(),
        }
    }
}

// Whether it is the file behind a name, which the system has for a standard stream.
fn is_behind<R: Host>(rt: &R, about: &Metadata, name: &str) -> bool {
    fs::metadata(rt, name).is_ok_and(|other| about.dev() == other.dev()
        && about.ino() == other.ino())
}

// The file to which standard output or standard error goes, as `/dev/stdout` may be.
fn is_standard_file<R: Host>(rt: &R, about: &Metadata) -> bool {
    is_behind(rt, about, "/proc/self/fd/1") | is_behind(rt, about, "/proc/self/fd/2")
}

fn is_link<R: Host>(rt: &R, name: &str) -> bool {
    fs::symlink_metadata(rt, name).is_ok_and(|about| about.is_symlink())
}

// ── a file replaced ──

// Room for a name and what is put behind it.
const NAME_ROOM: usize = 4200;

// A name in the same folder that no other file has.
fn other_name<R: Host>(rt: &R, name: &str) -> ArrayString<NAME_ROOM> {
    let mut chance = [0u8; 3];
    let _ = rt.fill_bytes(&mut chance);
    let [first, second, third] = chance;
    let mut other = ArrayString::new();
    let _ = write!(other, "{name}.new{first}{second}{third}");
    other
}

// As the file was that is replaced: its mode, and owner and group where the system lets us.
fn keep<R: Host>(rt: &R, file: &R::File, other: &str, was: Option<Kept>) -> io::Result<()> {
    match was {
        None => Ok(()),
        Some(k) => {
            let _ = rt.chown(other, Some(k.owner), Some(k.group));
            file.set_permissions(Permissions::from_mode(k.mode % 512))
        }
    }
}

fn put_as<R: Host>(
    rt: &R,
    file: R::File,
    other: &str,
    was: Option<Kept>,
    text: &[u8],
) -> io::Result<()> {
    let mut opened = file;
    keep(rt, &opened, other, was)?;
    opened.write_all(text)
}

fn put_and_rename<R: Host>(
    rt: &R,
    file: R::File,
    other: &str,
    name: &str,
    text: &[u8],
    was: Option<Kept>,
) -> io::Result<()> {
    put_as(rt, file, other, was, text)?;
    fs::rename(rt, other, name)
}

fn put_under<R: Host>(
    rt: &R,
    other: &str,
    name: &str,
    text: &[u8],
    was: Option<Kept>,
) -> io::Result<()> {
    let file = OpenOptions::new()
        .write(true)
        .create_new(true)
        .open(rt, other)?;
    let done = put_and_rename(rt, file, other, name, text, was);
    if done.is_err() {
        let _ = fs::remove_file(rt, other);
    }
    done
}

fn put_in_place<R: Host>(rt: &R, name: &str, text: &[u8], was: Option<Kept>) -> io::Result<()> {
    let other = other_name(rt, name);
    put_under(rt, other.as_str(), name, text, was)
}

// The whole text under another name in the same folder, which then takes the name's place.
fn replace<R: Host>(rt: &R, name: &str, text: &[u8], was: Option<Kept>) -> bool {
    told(rt, name.as_bytes(), put_in_place(rt, name, text, was)).is_some()
}

// The file behind a link, by the name that the system has for it.
fn replace_behind<R: Host>(rt: &R, name: &str, text: &[u8], was: Option<Kept>) -> bool {
    match told(rt, name.as_bytes(), fs::canonicalize(rt, name)) {
        Some(target) => replace(rt, target.as_str(), text, was),
        None => false,
    }
}

// ── writing ──

// A pipe or a device, or where standard output goes, is written as it was opened.
fn write_directly<R: Host>(rt: &R, name: &str, file: R::File, text: &[u8]) -> bool {
    let mut opened = file;
    let done = opened.write_all(text);
    told(rt, name.as_bytes(), done).is_some()
}

fn store_known<R: Host>(rt: &R, name: &str, file: R::File, about: &Metadata, text: &[u8]) -> bool {
    if is_standard_file(rt, about) | !about.is_file() {
        return write_directly(rt, name, file, text);
    }
    drop(file);
    if is_link(rt, name) {
        return replace_behind(rt, name, text, Some(Kept::from(about)));
    }
    replace(rt, name, text, Some(Kept::from(about)))
}

fn store_over<R: Host>(rt: &R, name: &str, file: R::File, text: &[u8]) -> bool {
    match file.metadata() {
        Ok(about) => store_known(rt, name, file, &about, text),
        Err(_) => write_directly(rt, name, file, text),
    }
}

// A link that leads nowhere is not followed.
fn store_new<R: Host>(rt: &R, name: &str, e: &Error, text: &[u8]) -> bool {
    if e.kind() == ErrorKind::NotFound {
        if !is_link(rt, name) {
            return replace(rt, name, text, None);
        }
    }
    fail(rt, name.as_bytes(), e);
    false
}

fn store_named<R: Host>(rt: &R, name: &str, text: &[u8]) -> bool {
    match OpenOptions::new().append(true).open(rt, name) {
        Ok(file) => store_over(rt, name, file, text),
        Err(e) => store_new(rt, name, &e, text),
    }
}

// Writes a file whole or not at all. A link that leads nowhere is not followed.
pub fn store<R: Host>(rt: &R, name: &[u8], text: &[u8]) -> bool {
    if is_standard(name) {
        return print(rt, text);
    }
    match told(rt, name, path(name)) {
        Some(text_name) => store_named(rt, text_name, text),
        None => false,
    }
}
