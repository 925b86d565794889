// The listing program of document 01: it reads raw bytes on standard input, takes the end as a silence, and writes a line
// for each frame on standard output. With file names as arguments it lists each file so, one after the other.
#![tactic(auto)]

mod input;

ghost use Rattle.std.specs.Prelude.{◌≤◌};

use input::{Failed, Memory};
use std::env::{Env, FillError};
use std::fs::File;
use std::io::{self, ErrorKind, Read, Write};

// The length of what a message begins with, `list_frames: `, and of the buffer for it and a file's name behind it.
const BEGINNING: usize = 13;

const NAME: usize = BEGINNING + 4096;

// Lists an input, whose name stands behind the beginning of a message, and says whether the program goes on: an input that
// cannot be read is named, and lines that cannot be written end the program.
fn list_input<R: Read>(rt: &HostRuntime, from: &mut R, name: &[u8], memory: &mut Memory) -> bool {
    match memory.list_all(from, rt.stdout()) {
        Ok(()) => true,
        Err(Failed::Unread(error)) => {
            program_input::say_failed(rt.stderr(), name, error);
            true
        }
        Err(Failed::Unwritten(error)) => {
            program_input::say_failed(rt.stderr(), b"list_frames: standard output", error);
            false
        }
    }
}

// Puts the beginning of a message and an argument behind it at the front of the buffer, and returns where they end. Of an
// argument that is too long for a file's name as much as there is room for.
fn put_name(rt: &HostRuntime, i: usize, name: &mut [u8; NAME]) -> usize
    ensures { (13 ≤ result) × (result ≤ 4109) }
{
    name[..BEGINNING].copy_from_slice(b"list_frames: ");
    match rt.arg(i, &mut name[BEGINNING..]) {
        Ok(n) => BEGINNING + n,
        Err(FillError::TooLong) => NAME,
        Err(FillError::NotPresent) => BEGINNING,
    }
}

// Opens the file of a name. A name that is no UTF-8 text is none that std can open.
fn open(rt: &HostRuntime, name: &[u8]) -> io::Result<File> {
    match str::from_utf8(name) {
        Ok(path) => File::open(rt, path),
        Err(_) => Err(io::Error::from(ErrorKind::InvalidFilename)),
    }
}

// Lists the file that an argument names, and says whether the program goes on. One that cannot be opened is named.
fn list_file(rt: &HostRuntime, i: usize, memory: &mut Memory) -> bool {
    let mut name = [0u8; NAME];
    let end = put_name(rt, i, &mut name);
    match open(rt, &name[BEGINNING..end]) {
        Ok(mut file) => list_input(rt, &mut file, &name[..end], memory),
        Err(error) => {
            program_input::say_failed(rt.stderr(), &name[..end], error);
            true
        }
    }
}

// Lists the files that the arguments name, one after the other, or standard input where none is named.
fn main(rt: HostRuntime) {
    let count = program_input::arg_count(&rt);
    if program_input::asks_for_help(&rt, count) {
        let mut to = rt.stdout();
        let _ = to.write_all(
            b"usage: list_frames [FILE ...]   lists the frames of each file, or of standard input where none is named\n",
        );
        return;
    }
    let mut memory = Memory {
        buffer: [0; 65536],
        frames: [0; 65536],
        text: [0; 131072],
    };
    if count < 2 {
        let mut from = rt.stdin();
        list_input(&rt, &mut from, b"list_frames: standard input", &mut memory);
        return;
    }
    for i in 1..count {
        if !list_file(&rt, i, &mut memory) {
            return;
        }
    }
}
