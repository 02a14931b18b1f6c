// The desk's functions for other languages: slices in, lent memory, one number out. desk_c exports them, and include/hasurenta.h declares them.
#![tactic(auto)]

ghost use Rattle.std.specs.Prelude.{◌≡◌, ◌∷◌, ◌+◌, ◌%◌, ◌≤◌, length, take};
ghost use Rattle.rules.specs.Basics.{refused};
ghost use Rattle.limits.specs.Limits.{batch_words};
ghost use Rattle.rules.specs.Journal.{journal};
ghost use Rattle.rules.specs.SheetCheck.{check_sheet};
ghost use Rattle.rules.specs.Writing.{into, rewrite_journal, write_sheet, write_day};
ghost use Rattle.rows.specs.Refusals.{refused_as};
ghost use Rattle.text.specs.Lent.{as_answer};
ghost use Rattle.desk.specs.Exports.{refusal_unit, code_of, unwritten, Gives, words_of, write_totals, rewritten_as};
ghost use Rattle.desk.specs.Records.{write_header_from, write_record_from, read_record_from, handed_out, behind_three};

use given::Given;
use journal::DayTotals;
use limits::Batch;
use record::Taken;
use rows::{Code, Rec, Refusal, Refused};

// Of any number: `Handed::WRONG_COUNT` is none of the paper's refusals.
fn refusal(no: u32, place: usize) -> u64
    ensures { result ≡ code_of (refused no place) }
{
    u64::from(no) * Code::UNIT + place as u64 % Code::UNIT
}

// A refusal as one number, refusal × 2^32 + place.
fn told(fault: Refused) -> u64
    ensures { result ≡ code_of (refused_as fault) }
{
    refusal(fault.refusal.number(), fault.place)
}

fn coded(answer: Result<usize, Refused>) -> u64
    ensures { result ≡ code_of (rewritten_as answer) }
{
    match answer {
        Ok(count) => count as u64 % Code::UNIT,
        Err(fault) => told(fault),
    }
}

pub fn hasurenta_journal(j: &[u8]) -> u64
    ensures { result ≡ code_of (unwritten (journal j.now)) }
{
    match journal::check(j) {
        Ok(_) => 0,
        Err(fault) => told(fault),
    }
}

// The four words, or 9 and nothing.
fn put_totals(out: &mut [u64], totals: DayTotals) -> u64
    ensures { Gives (into (length out.old) (words_of totals)) out.old result out.new }
{
    if out.len() < Handed::TOTALS {
        return told(Refusal::OutputTooShort.at(0));
    }
    out[..Handed::TOTALS].copy_from_slice(&[
        totals.sent,
        totals.filled,
        totals.cancelled,
        totals.pending,
    ]);
    Handed::TOTALS as u64
}

pub fn hasurenta_totals(j: &[u8], out: &mut [u64]) -> u64
    ensures { Gives (write_totals j.now (length out.old)) out.old result out.new }
{
    match journal::totals(j) {
        Ok(totals) => put_totals(out, totals),
        Err(fault) => told(fault),
    }
}

pub fn hasurenta_day(j: &[u8], out: &mut [u8]) -> u64
    ensures { Gives (write_day j.now (length out.old)) out.old result out.new }
{
    coded(answers::print_day(j, out))
}

pub fn hasurenta_sheet(j: &[u8], out: &mut [u8]) -> u64
    ensures { Gives (write_sheet j.now (length out.old)) out.old result out.new }
{
    coded(answers::write_sheet(j, out))
}

pub fn hasurenta_check(j: &[u8], sheet: &[u8]) -> u64
    ensures { result ≡ code_of (unwritten (check_sheet j.now sheet.now)) }
{
    match answers::check_sheet(j, sheet) {
        Ok(()) => 0,
        Err(fault) => told(fault),
    }
}

pub fn hasurenta_rewrite(j: &[u8], out: &mut [u8]) -> u64
    ensures { Gives (rewrite_journal j.now (length out.old)) out.old result out.new }
{
    coded(journal::rewrite(j, out))
}

// How many numbers the functions below are handed, where each of them stands, and how many words are written.
#[derive(Drop)]
pub struct Handed;

impl Handed {
    // sent, filled, cancelled, pending
    pub const TOTALS: usize = 4;

    pub const HEADER: usize = Given::HEADER;

    // and the time so far
    pub const READING: usize = Handed::HEADER + 1;

    // and the record's own
    pub const RECORD_LEAST: usize = Handed::READING + Given::RECORD_LEAST;

    pub const RECORD_MOST: usize = Handed::READING + Given::RECORD_MOST;

    // behind the header's the time so far
    pub const TIME: usize = Handed::HEADER;

    // behind it the record's kind, milliseconds and fields
    pub const KIND: usize = Handed::READING;

    pub const ELAPSED: usize = Handed::KIND + 1;

    pub const FIELDS: usize = Handed::ELAPSED + 1;

    // bytes used, kind, milliseconds
    pub const WORDS_FRONT: usize = 3;

    // and the fields of the longest batch
    pub const RECORD_WORDS_MOST: usize = Handed::WORDS_FRONT + Batch::WORDS;

    // the refusal of more or fewer
    pub const WRONG_COUNT: u32 = 98;
}

// "A writer's place is always 0"
fn written(answer: Result<usize, Refusal>) -> u64
    ensures { result ≡ code_of (as_answer answer) }
{
    coded(answer.map_err(|fault| fault.at(0)))
}

pub fn hasurenta_write_header(numbers: &[u32], out: &mut [u8]) -> u64
    ensures { Gives (write_header_from numbers.now (length out.old)) out.old result out.new }
{
    if numbers.len() != Handed::HEADER {
        return refusal(Handed::WRONG_COUNT, 0);
    }
    let head = given::head_of(numbers);
    written(header::write_header(out, head))
}

pub fn hasurenta_write_record(numbers: &[u32], out: &mut [u8]) -> u64
    ensures { Gives (write_record_from numbers.now (length out.old)) out.old result out.new }
{
    if numbers.len() < Handed::RECORD_LEAST || Handed::RECORD_MOST < numbers.len() {
        return refusal(Handed::WRONG_COUNT, 0);
    }
    let head = given::head_of(numbers);
    written(alone::write_record(
        out,
        head,
        numbers[Handed::TIME],
        numbers[Handed::KIND],
        numbers[Handed::ELAPSED],
        &numbers[Handed::FIELDS..],
    ))
}

// How many words are handed out of a record's fields: all that it has, and at least 8.
fn handed_out(kind: u32, fields: &[u32; Batch::WORDS]) -> usize
    ensures { result ≡ handed_out kind fields.now }
{
    if kind == Rec::BATCH {
        return Batch::FRONT + fields[1] as usize * Batch::QUOTE;
    }
    Given::FIELDS
}

// So many fields behind three words; those stay, and so do the words behind the fields.
fn put_fields(fields: &[u32], count: usize, out: &mut [u32])
    requires { (count ≤ length fields.now) × (3 + count ≤ length out.old) }
    ensures { out.new ≡ behind_three fields.now count out.old }
{
    out[Handed::WORDS_FRONT..Handed::WORDS_FRONT + count].copy_from_slice(&fields[..count]);
}

// Bytes used, kind, milliseconds and so many fields, or 9 and nothing.
fn put_record(taken: Taken, fields: &[u32; Batch::WORDS], count: usize, out: &mut [u32]) -> u64
    requires { (count ≤ batch_words) × (count ≤ length fields.now) }
    ensures { Gives (into (length out.old) (taken.used % refusal_unit ∷ taken.rec.kind ∷ taken.elapsed ∷ take count fields.now)) out.old result out.new }
{
    if out.len() < Handed::WORDS_FRONT + count {
        return told(Refusal::OutputTooShort.at(0));
    }
    out[0] = (taken.used as u64 % Code::UNIT) as u32;
    out[1] = taken.rec.kind;
    out[2] = taken.elapsed;
    put_fields(fields, count, out);
    (Handed::WORDS_FRONT + count) as u64 % Code::UNIT
}

pub fn hasurenta_read_record(numbers: &[u32], bytes: &[u8], out: &mut [u32]) -> u64
    ensures { Gives (read_record_from numbers.now bytes.now (length out.old)) out.old result out.new }
{
    if numbers.len() != Handed::READING {
        return refusal(Handed::WRONG_COUNT, 0);
    }
    let head = given::head_of(numbers);
    let mut fields = [0u32; Batch::WORDS];
    match alone::read_record(bytes, head, numbers[Handed::TIME], &mut fields) {
        Ok(taken) => {
            let count = handed_out(taken.rec.kind, &fields);
            put_record(taken, &fields, count, out)
        }
        Err(fault) => told(fault),
    }
}
