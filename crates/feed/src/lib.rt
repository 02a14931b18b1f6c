// What the programs share: lent buffers filled from standard input or a named file, answers sent, refusals said. An answer goes to standard output, whatever is no answer to standard error.
#![tactic(auto)]

ghost use Rattle.std.specs.Prelude.{◌≡◌, ◌<◌, ◌≤◌, length, take, IfOk, IfSome};
ghost use Rattle.std.specs.Io.KnownBytes.{Consumes, IsAtEnd};
ghost use Rattle.std.specs.Result.{result_ok};

use counted::SatisfactionOrder;
use number::Number;
use rows::Refused;
use std::fmt::Display;
use std::io::{Read, Write};
use std::rt::Files;
use std::{fs, io};
use walk::Journal;

pub mod records;

// How much memory the programs lend.
#[derive(Drop)]
pub struct Room;

impl Room {
    pub const JOURNAL: usize = Journal::MOST_BYTES;

    // One byte more is read than a journal may have: an entry that is given it refuses the journal as too long.
    pub const JOURNAL_INPUT: usize = Room::JOURNAL + 1;

    // Three numbers for each Satisfaction Order.
    pub const OWN_SHEET: usize = 3 * Number::MOST_GROUPS * SatisfactionOrder::MOST;

    // `refused `, ten digits, ` at `, twenty digits and LF.
    pub const REFUSAL: usize = 43;

    // No more of a sheet is read: the first number that can't be read or the first extra byte lies no further in than our own sheet can reach, so what is cut off here decides nothing.
    pub const SHEET_INPUT: usize = 65537;
}

// Reads until buf is full or the input ends. After an error some of buf may have been written over, and what was read so far is gone.
pub fn take<R: Read>(reader: &mut R, buf: &mut [u8]) -> io::Result<usize>
    ensures fills { IfOk result (λ n. n ≤ length buf.new) }
    ensures bytes { IfOk result (λ n. Consumes (R.remaining reader.old) (R.remaining reader.new) (take n buf.new)) }
    ensures end { IfOk result (λ n. n < length buf.new → IsAtEnd (R.remaining reader.new)) }
{
    let mut done: usize = 0;
    while done < buf.len() {
        let n = reader.read(&mut buf[done..])?;
        if n == 0 {
            return Ok(done);
        }
        done += n;
    }
    Ok(done)
}

// Says on standard error what failed, and why. Where that cannot be written either there is nobody to tell.
pub fn failed(rt: &impl Eprint, what: &str, error: io::Error) {
    let _ = eprintln!(rt; "{what}: {error}");
}

// What came of it. Where it failed that is said, and there is nothing.
pub fn or_say<T>(rt: &impl Eprint, what: &str, outcome: io::Result<T>) -> Option<T>
    ensures { result ≡ result_ok outcome }
{
    match outcome {
        Ok(value) => Some(value),
        Err(error) => {
            failed(rt, what, error);
            None
        }
    }
}

// How much of the buffer was filled, by all of the input or by as much as there is room for; nothing where a read failed.
pub fn standard_input(rt: &(impl io::Input + Eprint), buf: &mut [u8]) -> Option<usize>
    ensures { IfSome result (λ n. n ≤ length buf.new) }
{
    let taken = take(&mut rt.reader(), buf);
    or_say(rt, "standard input", taken)
}

fn take_file(files: &impl Files, path: &str, buf: &mut [u8]) -> io::Result<usize>
    ensures { IfOk result (λ n. n ≤ length buf.new) }
{
    let mut file = fs::open(files, path)?;
    take(&mut file, buf)
}

// The same of the file of this name.
pub fn file(rt: &(impl Files + Eprint), path: &str, buf: &mut [u8]) -> Option<usize>
    ensures { IfSome result (λ n. n ≤ length buf.new) }
{
    let taken = take_file(rt, path, buf);
    or_say(rt, path, taken)
}

// The journal on standard input, handed on.
pub fn with_journal<F: FnOnce(&[u8]) + Drop>(rt: &(impl io::Input + Eprint), then: F)
    requires { F.IsAlwaysCallable then }
{
    let mut journal = [0u8; Room::JOURNAL_INPUT];
    if let Some(n) = standard_input(rt, &mut journal) {
        then(&journal[..n]);
    }
}

// The journal and the sheet in the files of two names, handed on.
pub fn with_files<F: FnOnce(&[u8], &[u8]) + Drop>(
    rt: &(impl Files + Eprint),
    journal_name: &str,
    sheet_name: &str,
    then: F,
)
    requires { F.IsAlwaysCallable then }
{
    let mut journal = [0u8; Room::JOURNAL_INPUT];
    let mut sheet = [0u8; Room::SHEET_INPUT];
    let Some(n) = file(rt, journal_name, &mut journal) else {
        return;
    };
    let Some(k) = file(rt, sheet_name, &mut sheet) else {
        return;
    };
    then(&journal[..n], &sheet[..k]);
}

// Sends bytes to standard output; nothing where that fails.
pub fn send(rt: &(impl Print + Eprint), bytes: &[u8]) -> Option<()> {
    or_say(rt, "standard output", rt.write_all(bytes))
}

// Prints a text on standard output; where that fails it is said.
pub fn print<D: Display + Drop>(rt: &(impl Print + Eprint), shown: D) {
    or_say(rt, "standard output", rt.print(shown));
}

// "It prints `refused 2 at 0` (number, place)": the line that `text` is proved to write.
pub fn refused<W: Write>(to: &mut W, no: u32, place: usize) {
    let mut line = [0u8; Room::REFUSAL];
    let Ok(width) = text::write_refusal(&mut line, no, place) else {
        return;
    };
    if let Some(said) = line.get(..width) {
        let _ = to.write_all(said);
    }
}

// The same of a refusal; `refused` is still given any number, and `text` writes the line, since that is proved and a Display would not be.
pub fn say_refused<W: Write>(to: &mut W, what: Refused) {
    refused(to, what.refusal.number(), what.place);
}

// What an entry wrote is sent; its refusal is said.
pub fn answer<W: Write>(
    rt: &(impl Print + Eprint),
    answered: Result<usize, Refused>,
    out: &[u8],
    refusals: &mut W,
) {
    match answered {
        Ok(bytes) => {
            out.get(..bytes).and_then(|sent| send(rt, sent));
        }
        Err(what) => say_refused(refusals, what),
    }
}
