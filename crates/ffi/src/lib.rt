// The checks for C and Rust. `include/wethrynda.h` declares them for C, and the package in `rust/` wraps them for Rust.
// Nothing checks these declarations against this file, so there are four functions here, on byte and word slices, and
// they ask nothing of their caller.
#![tactic(auto)]

ghost use Rattle.std.specs.Prelude.{◌≤◌, ◌≡◌, length, set};
ghost use Rattle.basics.specs.Limits.{most_steps};
ghost use Rattle.record.specs.Figure1.{record_answer};
ghost use Rattle.record.specs.ListAfter.{list_after};
ghost use Rattle.record.specs.Promises.{Small};
ghost use Rattle.exchange.specs.Figure1.{exchange_answer};
ghost use Rattle.exchange.specs.Promises.{Small as ExchangeSmall};
ghost use Rattle.independence.specs.Figure1.{independence_answer};
ghost use Rattle.independence.specs.Promises.{Small as IndependenceSmall};
ghost use Rattle.sentences.specs.Answer.{signers_after};
ghost use Rattle.sentences.specs.Figure1.{sentences_answer, text_after};
ghost use Rattle.ffi.specs.RefusalCode.{refusal_code};
ghost use Rattle.ffi.specs.Code.{answer_code};
ghost use Rattle.ffi.specs.ExchangeCode.{exchange_code};
ghost use Rattle.ffi.specs.IndependenceCode.{independence_code};
ghost use Rattle.ffi.specs.SentencesCode.{sentences_code, count_after, PlaceWithin};

use basics::refusal::Refusal;
use exchange_check::check::check_exchange;
use independence_check::check::independent_of;
use record_check::check::check_record;
use sentences::counts::Counts;
use sentences_write::write::write_sentences;

// One number for a refusal within its bounds, of whatever call.
fn refusal_code(refusal: Refusal) -> u64
    requires { refusal.place ≤ most_steps }
    ensures { result ≡ refusal_code refusal.number refusal.place }
{
    refusal.number as u64 * 4294967296 + refusal.place as u64
}

// One number for an answer within its bounds. (Four functions for four answers: each has a definition of its own, and
// what they share is `refusal_code`.)
#[tactic(auto, unfolding(crate::specs::Code::answer_code))]
fn answer_code(verdict: Result<usize, Refusal>) -> u64
    requires { Small verdict }
    ensures { result ≡ answer_code verdict }
{
    match verdict {
        Ok(count) => count as u64,
        Err(refusal) => refusal_code(refusal),
    }
}

// The same for an exchange file's.
#[tactic(auto, unfolding(crate::specs::ExchangeCode::exchange_code))]
fn exchange_code(verdict: Result<(), Refusal>) -> u64
    requires { ExchangeSmall verdict }
    ensures { result ≡ exchange_code verdict }
{
    match verdict {
        Ok(()) => 0,
        Err(refusal) => refusal_code(refusal),
    }
}

// And for an answer whether a principal can matter.
#[tactic(auto, unfolding(crate::specs::IndependenceCode::independence_code))]
fn independence_code(verdict: Result<bool, Refusal>) -> u64
    requires { IndependenceSmall verdict }
    ensures { result ≡ independence_code verdict }
{
    match verdict {
        Ok(true) => 0,
        Ok(false) => 1,
        Err(refusal) => refusal_code(refusal),
    }
}

// Stores a count in the first of the words lent for it, where there is one.
fn put_count(written: &mut [u64], count: usize)
    ensures { written.new ≡ set written.old 0 count }
{
    if written.len() > 0 {
        written[0] = count as u64;
    }
}

// One number for an answer about sentences within its bounds; the count of bytes goes into the words lent for it.
#[tactic(auto, unfolding(crate::specs::SentencesCode::sentences_code))]
fn sentences_code(verdict: Result<Counts, Refusal>, written: &mut [u64]) -> u64
    requires { PlaceWithin verdict }
    ensures value { result ≡ sentences_code verdict }
    ensures written_after { written.new ≡ count_after verdict written.old }
{
    match verdict {
        Ok(Counts { signers, bytes }) => {
            put_count(written, bytes);
            signers as u64
        }
        Err(refusal) => refusal_code(refusal),
    }
}

// The check of a record, as one number: the count of signers, or a refusal's number × 2^32 + its place. What is lent is
// left as `check_record` leaves it: signers, rising, from the start of the list on a grant, nothing changed on a
// refusal. In C a slice is a pointer and then a length.
#[unsafe(no_mangle)]
pub extern "C" fn wethrynda_check_record(file: &[u8], signers: &mut [u16]) -> u64
    ensures value { result ≡ answer_code (record_answer file.now (length signers.old)) }
    ensures signers_after { signers.new ≡ list_after file.now (record_answer file.now (length signers.old)) signers.old }
{
    let verdict = check_record(file, signers);
    answer_code(verdict)
}

// The check of an exchange file, as one number: 0 for equal, or a refusal's number × 2^32 + its place. Nothing but the
// file is lent.
#[unsafe(no_mangle)]
pub extern "C" fn wethrynda_check_exchange(file: &[u8]) -> u64
    ensures { result ≡ exchange_code (exchange_answer file.now) }
{
    let verdict = check_exchange(file);
    exchange_code(verdict)
}

// Whether a principal's papers can touch a record's goal (02, job 5), as one number: 0 for independent, 1 for not
// independent, or a refusal's number × 2^32 + its place. Nothing but the file is lent.
#[unsafe(no_mangle)]
pub extern "C" fn wethrynda_independent_of(file: &[u8], principal: u16) -> u64
    ensures { result ≡ independence_code (independence_answer file.now principal) }
{
    let verdict = independent_of(file, principal);
    independence_code(verdict)
}

// A record's proof in sentences, and its signers, as `write_sentences` leaves them in what is lent. As one number: the
// count of signers, or a refusal's number × 2^32 + its place. The count of bytes goes into the first word of `written`,
// where it has one; a refusal leaves it as it was.
#[unsafe(no_mangle)]
pub extern "C" fn wethrynda_write_sentences(
    file: &[u8],
    signers: &mut [u16],
    text: &mut [u8],
    written: &mut [u64],
) -> u64
    ensures value { result ≡ sentences_code (sentences_answer file.now (length signers.old) (length text.old)) }
    ensures signers_after { signers.new ≡ signers_after file.now (sentences_answer file.now (length signers.old) (length text.old)) signers.old }
    ensures text_after { text.new ≡ text_after file.now (sentences_answer file.now (length signers.old) (length text.old)) text.old }
    ensures written_after { written.new ≡ count_after (sentences_answer file.now (length signers.old) (length text.old)) written.old }
{
    let verdict = write_sentences(file, signers, text);
    sentences_code(verdict, written)
}
