// Reading what is open whole, over std's `read`.
#![tactic(auto)]

ghost use Rattle.std.specs.Prelude.{◌≡◌, ◌<◌, ◌≤◌, length, take, MatchResult, IfOk};
ghost use Rattle.std.specs.Io.KnownBytes.{Consumes, IsAtEnd};

use std::io;
use std::io::Read;

// A read that failed, and how many bytes had been put at the start of what was lent before it.
#[derive(Clone, Copy)]
pub struct ReadError {
    pub error: io::Error,
    pub count: usize,
}

// Reads until buf is full or the input ends, each piece after the last one, or until a read fails, and gives how many
// bytes were put at the start of buf. These are what the input has lost. (Of the system's files and streams no contract
// says what they hold, so of these it says no more than where the count lies.)
pub fn read_input<R: Read>(input: &mut R, buf: &mut [u8]) -> Result<usize, ReadError>
    ensures within { MatchResult result (λ n. (n ≤ length buf.new) × (n ≡ length (take n buf.new)))
        (λ e. (e.count ≤ length buf.new) × (e.count ≡ length (take e.count buf.new))) }
    ensures bytes { MatchResult result (λ n. Consumes (R.remaining input.old) (R.remaining input.new) (take n buf.new))
        (λ e. Consumes (R.remaining input.old) (R.remaining input.new) (take e.count buf.new)) }
    ensures end { IfOk result (λ n. n < length buf.new → IsAtEnd (R.remaining input.new)) }
{
    // std's `read_to_end` and `read_exact` say too little of what stands in buf after an error.
    let mut done = 0;
    while done < buf.len() {
        match input.read(&mut buf[done..]) {
            Ok(0) => break,
            Ok(more) => done += more,
            Err(error) => return Err(ReadError { error, count: done }),
        }
    }
    Ok(done)
}
