// What standard error says of a file that can't be read.
use std::io;
use std::io::{Cursor, Write};
use std::str::from_utf8;

// Writes a line to standard error: what failed, a colon and the system's text for the error, without its number.
pub(crate) fn fail(rt: HostRuntime, what: &[u8], error: io::Error) {
    let mut written = Cursor::new([0u8; 256]);
    let _ = write!(written, "{error}");
    let text = from_utf8(written.get_ref()).unwrap_or("");
    let said = match text.split_once(" (os error ") {
        Some((said, _)) => said,
        None => text.trim_end_matches('\0'),
    };
    let _ = rt.stderr().write_all(what);
    let _ = eprintln!(rt; ": {said}");
}
