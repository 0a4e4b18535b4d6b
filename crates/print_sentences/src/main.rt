// Reads a record on standard input, lends a list of 256 words and 1 MiB, and prints the record's proof in sentences, or
// 01's line of a refusal (02, job 2). All but reading and writing is `sentences_text`'s.
// (One function for the programs' mains would be public, and have a contract: the system's streams have none.)
#![tactic(auto)]

use input::read_input;
use record_check::layout::file_buffer;
use report::{sentences_text, text_buffer};

fn main(rt: HostRuntime) {
    let mut file = file_buffer();
    let Ok(n) = read_input(&mut rt.stdin(), &mut file) else {
        let _ = eprintln!(rt; "print_sentences: standard input can't be read");
        return;
    };

    let mut text = text_buffer();
    let length = sentences_text(&file[..n], &mut text);
    if length == 0 || rt.write_all(&text[..length]).is_err() {
        let _ = eprintln!(rt; "print_sentences: the text can't be written");
    }
}
