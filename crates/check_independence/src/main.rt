// Reads a record on standard input and prints whether its goal is independent of the principal whose number is the
// argument, or 01's line of a refusal (02, job 5). All but the argument, reading and writing is `independence_line`'s.
// (One function for the programs' mains would be public, and have a contract: the system's streams have none.)
#![tactic(auto)]

use input::read_input;
use record_check::layout::file_buffer;
use report::{independence_line, line_buffer};
use std::env::FillError;
use std::rt::Env;
use text::parse::parse_word;

// The principal's number. A number larger than a word counts as 65,535, which is no principal's; what isn't a number in
// digits, or has more than 4,096 bytes, is none.
fn asked(rt: &impl Env) -> Option<u16> {
    let mut argument = [0; 4096];
    // one argument, so there is no second
    let Err(FillError::NotPresent) = rt.arg(2, &mut argument) else {
        return None;
    };
    let length = rt.arg(1, &mut argument).ok()?;
    parse_word(&argument[..length])
}

// Prints the line of the record on standard input.
fn print_line(rt: HostRuntime, principal: u16) {
    let mut file = file_buffer();
    let Ok(n) = read_input(&mut rt.stdin(), &mut file) else {
        let _ = eprintln!(rt; "check_independence: standard input can't be read");
        return;
    };

    let mut line = line_buffer();
    let length = independence_line(&file[..n], principal, &mut line);
    if length == 0 || rt.write_all(&line[..length]).is_err() {
        let _ = eprintln!(rt; "check_independence: the line can't be written");
    }
}

fn main(rt: HostRuntime) {
    let Some(principal) = asked(&rt) else {
        let _ = eprintln!(rt;
            "usage: check_independence PRINCIPAL <RECORD\nPRINCIPAL is a number in digits"
        );
        return;
    };
    print_line(rt, principal);
}
