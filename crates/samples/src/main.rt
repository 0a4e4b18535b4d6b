// Checks the files that its arguments name, and prints for each the name, a blank and the line of 01, as `check_record`
// prints it for a record and `check_exchange` for an exchange file. A name that ends with `.exchange` names an exchange
// file.
#![tactic(auto)]

ghost use Rattle.std.specs.Prelude.{◌≤◌, ◌≡◌, length, take};

use ending::ends_with;
use exchange_check::layout::file_buffer;
use failure::fail;
use input::read_input;
use report::{exchange_line, line_buffer, record_line};
use std::env::FillError;
use std::fs::File;
use std::rt::Env;
use std::str::from_utf8;

mod ending;
mod failure;

// Checks a file of the kind that its name says, and writes the line of the answer.
fn answer_named(name: &[u8], file: &[u8], line: &mut [u8]) -> usize
    ensures { (result ≤ length line.new) × (result ≡ length (take result line.new)) }
{
    if ends_with(name, b".exchange") {
        exchange_line(file, line)
    } else {
        record_line(file, line)
    }
}

// Prints the line of a file that was read, after its name.
fn print_line(rt: HostRuntime, name: &[u8], file: &[u8]) {
    let mut line = line_buffer();
    let length = answer_named(name, file, &mut line);
    let _ = rt.write_all(name);
    let _ = rt.write_all(b" ");
    let _ = rt.write_all(&line[..length]);
}

// Reads a file that is open, and prints its line. Where it can't be read, standard error says so. An exchange file is
// the longer one, and a record longer than the longest has the answer of its first bytes (`LongerFile`).
fn check_open(rt: HostRuntime, name: &[u8], mut open: File) {
    let mut file = file_buffer();
    match read_input(&mut open, &mut file) {
        Ok(n) => print_line(rt, name, &file[..n]),
        Err(failed) => fail(rt, name, failed.error),
    }
}

// Checks the file that an argument names. (std opens a file only by a name in UTF-8.)
fn check_argument(rt: HostRuntime, name: &[u8]) {
    let Ok(path) = from_utf8(name) else {
        let _ = rt.stderr().write_all(name);
        let _ = eprintln!(rt; ": the name is not UTF-8");
        return;
    };
    match File::open(&rt, path) {
        Ok(open) => check_open(rt, name, open),
        Err(error) => fail(rt, name, error),
    }
}

fn main(rt: HostRuntime) {
    let mut name = [0; 4096];
    for i in 1..usize::MAX {
        match rt.arg(i, &mut name) {
            Ok(length) => check_argument(rt, &name[..length]),
            Err(FillError::TooLong) => {
                let _ = eprintln!(rt; "argument: File name too long");
            }
            Err(FillError::NotPresent) => break,
        }
    }
}
