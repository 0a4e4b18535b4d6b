// "one reads an exchange file .. prints one line." (01) All but reading and writing is `exchange_line`'s.
// (One function for the programs' mains would be public, and have a contract: the system's streams have none.)
#![tactic(auto)]

use exchange_check::layout::file_buffer;
use input::read_input;
use report::{exchange_line, line_buffer};

fn main(rt: HostRuntime) {
    let mut file = file_buffer();
    let Ok(n) = read_input(&mut rt.stdin(), &mut file) else {
        let _ = eprintln!(rt; "check_exchange: standard input can't be read");
        return;
    };

    let mut line = line_buffer();
    let length = exchange_line(&file[..n], &mut line);
    if length == 0 || rt.write_all(&line[..length]).is_err() {
        let _ = eprintln!(rt; "check_exchange: the line can't be written");
    }
}
