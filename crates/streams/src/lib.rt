// A program's bytes: all of its input, from standard input or from the file that its last argument names, and its answer in one go; and the masks in lines
// that programs print. What fails is said on standard error.
#![tactic(auto)]

ghost use Rattle.std.specs.Prelude.{◌≤◌, length, IfOk, IfSome};
ghost use Rattle.streams.specs.Counts.{IsPrefixLen};

use std::env::{Env, FillError};
use std::fs::File;
use std::io;
use std::io::Read;

// Where the input comes from.
#[derive(Drop)]
pub enum Source {
    Stdin,
    Named(File),
}

// How many bytes of a source were put at the front of a buffer.
#[derive(Drop)]
pub struct Taken {
    pub length: usize,
    pub from: Source,
}

// How the program is called, said where it was called otherwise.
pub fn say(rt: &HostRuntime, usage: &[u8]) {
    let _ = io::Print::write_all(&rt.stderr(), usage);
}

// What failed, and why.
fn fail(rt: &HostRuntime, what: &[u8], error: io::Error) {
    say(rt, what);
    let _ = eprintln!(rt; ": {error}");
}

// One read. No bytes: the input has ended.
fn take_some(rt: &HostRuntime, from: &mut Source, part: &mut [u8]) -> io::Result<usize>
    ensures { IfOk result (λ n. n ≤ length part.new) }
{
    match from {
        Source::Stdin => rt.stdin().read(part),
        Source::Named(file) => file.read(part),
    }
}

// The bytes of a source, to its end or until there is no room. None where a read failed.
fn take_all(rt: &HostRuntime, mut from: Source, space: &mut [u8]) -> Option<Taken>
    ensures { IfSome result (λ taken. IsPrefixLen taken.length space.new) }
{
    let mut at = 0usize;
    // No `for`: each turn moves on by as many bytes as a read gave.
    while at < space.len() {
        match take_some(rt, &mut from, &mut space[at..]) {
            Ok(0) => break,
            Ok(n) => at += n,
            Err(error) => {
                fail(rt, b"the input", error);
                return None;
            }
        }
    }
    Some(Taken { length: at, from })
}

// The file of that name, open. A name is UTF-8 text.
fn open_file(rt: &HostRuntime, path: &[u8]) -> io::Result<File> {
    match str::from_utf8(path) {
        Ok(name) => File::open(rt, name),
        Err(_) => Err(io::Error::from(io::ErrorKind::InvalidFilename)),
    }
}

// The file that argument i names, open.
fn open_named(rt: &HostRuntime, i: usize) -> Option<Source> {
    let mut path = [0u8; 4096];
    let n = rt.arg(i, &mut path).unwrap_or(0);
    match open_file(rt, &path[..n]) {
        Ok(file) => Some(Source::Named(file)),
        Err(error) => {
            fail(rt, &path[..n], error);
            None
        }
    }
}

// Whether the program was given an argument i; argument 0 is its own name.
fn has_argument(rt: &HostRuntime, i: usize) -> bool {
    !matches!(rt.arg(i, &mut []), Err(FillError::NotPresent))
}

// The file that argument i names, where there is one and it is the last; standard input where there are fewer.
fn open(rt: &HostRuntime, usage: &[u8], i: usize) -> Option<Source> {
    if !has_argument(rt, i) {
        return Some(Source::Stdin);
    }
    if has_argument(rt, i.saturating_add(1)) {
        say(rt, usage);
        return None;
    }
    open_named(rt, i)
}

// The program's input, at the front of `space`: the file that argument i names, if there is one, else standard input. Where it is longer, its first bytes. None
// where it could not be read, which was said: then no answer about it is to be given.
pub fn read(rt: &HostRuntime, usage: &[u8], i: usize, space: &mut [u8]) -> Option<Taken>
    ensures { IfSome result (λ taken. IsPrefixLen taken.length space.new) }
{
    take_all(rt, open(rt, usage, i)?, space)
}

// The program's answer, written in one go.
pub fn write(rt: &HostRuntime, answer: &[u8]) {
    if let Err(error) = io::Print::write_all(rt, answer) {
        fail(rt, b"the answer", error);
    }
}

// Reads on to the end of the input, once it is answered, so that whoever writes it is not cut off; at most 65,536 times, up to 4 GB, so that an input
// without an end is left.
pub fn finish(rt: &HostRuntime, mut from: Source) {
    let mut space = [0u8; 65536];
    for _ in 0..65536u64 {
        match take_some(rt, &mut from, &mut space) {
            Ok(0) | Err(_) => return,
            Ok(_) => {}
        }
    }
}

// ---- words of a printed line

// A mask after a blank, by its four hex digits.
pub fn mask_word(rt: &impl Print, m: u16) -> io::Result<()> {
    print!(rt; " {m:04x}")
}

// The first `count` of the masks; all of them where there are fewer.
pub fn mask_words(rt: &impl Print, count: usize, masks: [u16; 14]) -> io::Result<()> {
    for m in masks.iter().take(count) {
        mask_word(rt, *m)?;
    }
    Ok(())
}
