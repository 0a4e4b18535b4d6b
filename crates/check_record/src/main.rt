// "One program reads a record on standard input and lends a list of 256 words .. prints one line." (01) All but reading
// and writing is `record_line`'s.
// (One function for the programs' mains would be public, and have a contract: the system's streams have none.)
#![tactic(auto)]

use input::read_input;
use record_check::layout::file_buffer;
use report::{line_buffer, record_line};

fn main(rt: HostRuntime) {
    let mut file = file_buffer();
    let Ok(n) = read_input(&mut rt.stdin(), &mut file) else {
        let _ = eprintln!(rt; "check_record: standard input can't be read");
        return;
    };

    let mut line = line_buffer();
    let length = record_line(&file[..n], &mut line);
    if length == 0 || rt.write_all(&line[..length]).is_err() {
        let _ = eprintln!(rt; "check_record: the line can't be written");
    }
}
