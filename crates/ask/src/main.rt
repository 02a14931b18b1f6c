// Questions on standard input, answers on standard output, until the input ends or a question cannot be read whole.
#![tactic(auto)]

ghost use Rattle.std.specs.Prelude.{◌<◌, IfOk, IfErr};

use desk::Handed;
use lent::Lent;
use op::Op;
use rows::Code;
use std::io::Read;

mod lent;
mod op;

// op 1 byte, cap, na and nb 4 bytes each, the lowest first; then na bytes A and nb bytes B.
#[derive(Drop)]
struct Question;

impl Question {
    const HEAD: usize = 13;

    // A larger cap, na or nb ends the run.
    const MOST: usize = 131072;
}

// no and place 4 bytes each, kept 1 byte, n 4 bytes; then n bytes.
#[derive(Drop)]
struct Reply;

impl Reply {
    const HEAD: usize = 13;

    const UNKNOWN_OP: u64 = 99 * Code::UNIT;
}

// What an entry answers as one number: how much was written, or a refusal's number × 2^32 + its place.
fn answered(coded: u64) -> Result<u64, (u64, u64)>
    ensures written { IfOk result (λ low. low < 4294967296) }
    ensures place { IfErr result (λ refusal. refusal.1 < 4294967296) }
{
    let low = coded % Code::UNIT;
    match coded / Code::UNIT {
        0 => Ok(low),
        no => Err((no, low)),
    }
}

// Sends what the entry answered, and what it says it wrote, in pieces of so many bytes.
fn say(rt: &(impl Print + Eprint), coded: u64, piece: u64, out: &[u8]) -> Option<()> {
    let (no, place, n) = match answered(coded) {
        Ok(pieces) => {
            let bytes = pieces.saturating_mul(piece);
            (0, 0, bytes.min(out.len() as u64) as usize)
        }
        Err((no, place)) => (no, place, 0),
    };
    let (written, rest) = out.split_at(n);
    let mut head = [0u8; Reply::HEAD];
    head[..4].copy_from_slice(&no.to_le_bytes()[..4]);
    head[4..8].copy_from_slice(&place.to_le_bytes()[..4]);
    head[8] = u8::from(Lent::kept(rest));
    head[9..].copy_from_slice(&n.to_le_bytes()[..4]);
    feed::send(rt, &head)?;
    feed::send(rt, written)
}

fn totals(rt: &(impl Print + Eprint), a: &[u8]) -> Option<()> {
    let mut sums = [Lent::LONG; Lent::LONGS];
    let coded = desk::hasurenta_totals(a, &mut sums);
    let out = sums.map(|sum| sum.to_le_bytes());
    say(rt, coded, 8, out.as_flattened())
}

fn read_record(rt: &(impl Print + Eprint), numbers: &[u32], b: &[u8]) -> Option<()> {
    let mut record = [Lent::WORD; Lent::WORDS];
    let coded = desk::hasurenta_read_record(numbers, b, &mut record);
    // by a loop: `map` hands the whole row on by value
    let mut out = [[0u8; 4]; Lent::WORDS];
    for (bytes, word) in out.iter_mut().zip(&record) {
        *bytes = word.to_le_bytes();
    }
    say(rt, coded, 4, out.as_flattened())
}

// The numbers that A is; none where it is no row of words that an entry may take.
fn numbers_of<'a>(a: &[u8], row: &'a mut [u32; Handed::RECORD_MOST]) -> &'a [u32] {
    let (words, rest) = a.as_chunks::<4>();
    let count = words.len();
    if !rest.is_empty() || Handed::RECORD_MOST < count {
        return &[];
    }
    for (number, word) in row.iter_mut().zip(words) {
        *number = u32::from_le_bytes(*word);
    }
    &row[..count]
}

// The questions that give numbers. What is no row of words is refused as no numbers are.
fn numbered(rt: &(impl Print + Eprint), op: Op, a: &[u8], b: &[u8], out: &mut [u8]) -> Option<()> {
    let mut row = [0u32; Handed::RECORD_MOST];
    let numbers = numbers_of(a, &mut row);
    let coded = match op {
        Op::WriteHeader => desk::hasurenta_write_header(numbers, out),
        Op::WriteRecord => desk::hasurenta_write_record(numbers, out),
        _ => return read_record(rt, numbers, b),
    };
    say(rt, coded, 1, out)
}

fn answer(
    rt: &(impl Print + Eprint),
    number: u8,
    a: &[u8],
    b: &[u8],
    out: &mut [u8],
) -> Option<()> {
    // by a loop, since `fill` takes longer, as `Lent::kept` says of `all`
    for byte in out.iter_mut() {
        *byte = Lent::BYTE;
    }
    let coded = match Op::try_from(number) {
        Ok(Op::Journal) => desk::hasurenta_journal(a),
        Ok(Op::Day) => desk::hasurenta_day(a, out),
        Ok(Op::Sheet) => desk::hasurenta_sheet(a, out),
        Ok(Op::Check) => desk::hasurenta_check(a, b),
        Ok(Op::Totals) => return totals(rt, a),
        Ok(Op::Rewrite) => desk::hasurenta_rewrite(a, out),
        Ok(op) => return numbered(rt, op, a, b, out),
        Err(_) => Reply::UNKNOWN_OP,
    };
    say(rt, coded, 1, out)
}

fn fill<R: Read>(reader: &mut R, buf: &mut [u8]) -> Option<()> {
    reader.read_exact(buf).ok()
}

// A question's op, cap, na and nb. The thirteen bytes are read at once: a read is a call of the system.
fn head<R: Read>(reader: &mut R) -> Option<(u8, [usize; 3])> {
    let mut bytes = [0u8; Question::HEAD];
    fill(reader, &mut bytes)?;
    let (sizes, _) = bytes[1..].as_chunks::<4>();
    let sizes = [sizes[0], sizes[1], sizes[2]].map(|size| u32::from_le_bytes(size) as usize);
    Some((bytes[0], sizes))
}

// Reads one question whole and answers it; nothing where the run ends.
fn turn<R: Read>(
    rt: &(impl Print + Eprint),
    reader: &mut R,
    a: &mut [u8; Question::MOST],
    b: &mut [u8; Question::MOST],
    out: &mut [u8; Question::MOST],
) -> Option<()> {
    let (op, [cap, na, nb]) = head(reader)?;
    let a = a.get_mut(..na)?;
    fill(reader, a)?;
    let b = b.get_mut(..nb)?;
    fill(reader, b)?;
    answer(rt, op, a, b, out.get_mut(..cap)?)
}

// Nothing says that the input ends, so the turns are counted up to a number that no run uses up.
fn main(rt: HostRuntime) {
    let mut a = [0u8; Question::MOST];
    let mut b = [0u8; Question::MOST];
    let mut out = [0u8; Question::MOST];
    let mut reader = rt.stdin();
    for _ in 0..u64::MAX {
        if turn(&rt, &mut reader, &mut a, &mut b, &mut out).is_none() {
            return;
        }
    }
}
