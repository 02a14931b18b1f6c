// The printed day's text in lent memory. What is named put asks for the room and cannot fail; what is named write asks nothing and answers 9 where room lacks.
#![tactic(auto)]

ghost use Rattle.std.specs.Prelude.{◌+◌, ◌^◌, ◌≤◌, ◌<◌, length};
ghost use Rattle.rules.specs.PrintedDay.{decimal, first_line, refusal_text};
ghost use Rattle.text.specs.Lent.{Wrote, Takes, Writes};
ghost use Rattle.text.specs.Lines.{pair_of, line_of, field_of, head_of, tail_of, number_of, place_of};

use rows::Refusal;

// The letter of a line: what was judged.
#[derive(Drop)]
pub struct What;

impl What {
    pub const QUOTE: u8 = b'Q';

    pub const SENT: u8 = b'S';

    pub const RECEIVED: u8 = b'R';

    pub const TRADE: u8 = b'T';

    pub const SATISFACTION: u8 = b'F';
}

pub fn put_text(out: &mut [u8], at: usize, text: &[u8]) -> usize
    requires { at + length text.now ≤ length out.old }
    ensures { Wrote out.old at text.now out.new result }
{
    // byte by byte: `copy_from_slice` would have the archive ask for memmove
    for i in 0..text.len() {
        out[at + i] = text[i];
    }
    at + text.len()
}

// Most numbers of a day are short: the short widths are looked at first.
fn width_to_ten(x: u64) -> usize
    requires { x < 10 ^ 10 }
    ensures { Takes (decimal x) 10 result }
{
    if x < 10 {
        return 1;
    }
    if x < 100 {
        return 2;
    }
    if x < 1000 {
        return 3;
    }
    if x < 10000 {
        return 4;
    }
    if x < 100000 {
        return 5;
    }
    if x < 1000000 {
        return 6;
    }
    if x < 10000000 {
        return 7;
    }
    if x < 100000000 {
        return 8;
    }
    if x < 1000000000 {
        return 9;
    }
    10
}

pub fn decimal_width(x: u32) -> usize
    ensures { Takes (decimal x) 10 result }
{
    width_to_ten(u64::from(x))
}

pub fn total_width(x: u64) -> usize
    ensures { Takes (decimal x) 20 result }
{
    if x < 10000000000 {
        return width_to_ten(x);
    }
    width_to_ten(x / 10000000000) + 10
}

// Two digits of x, which is below a hundred.
fn put_pair(out: &mut [u8], at: usize, x: u64) -> usize
    requires { (x < 100) × (at + length (pair_of x) ≤ length out.old) }
    ensures { Wrote out.old at (pair_of x) out.new result }
{
    out[at] = b'0' + (x / 10) as u8;
    out[at + 1] = b'0' + (x % 10) as u8;
    at + 2
}

fn put_short(out: &mut [u8], at: usize, x: u64) -> usize
    requires { (x < 100) × (at + length (decimal x) ≤ length out.old) }
    ensures { Wrote out.old at (decimal x) out.new result }
{
    if x < 10 {
        out[at] = b'0' + x as u8;
        return at + 1;
    }
    put_pair(out, at, x)
}

// The digits before the last two, and then those two.
fn put_digits(out: &mut [u8], at: usize, x: u64) -> usize
    requires { at + length (decimal x) ≤ length out.old }
    ensures { Wrote out.old at (decimal x) out.new result }
{
    if x < 100 {
        return put_short(out, at, x);
    }
    let p = put_digits(out, at, x / 100);
    put_pair(out, p, x % 100)
}

// Most numbers of a day have at most four digits: those are written without the recursion.
pub fn put_total(out: &mut [u8], at: usize, x: u64) -> usize
    requires { at + length (decimal x) ≤ length out.old }
    ensures { Wrote out.old at (decimal x) out.new result }
{
    if x < 100 {
        return put_short(out, at, x);
    }
    if x < 10000 {
        let p = put_short(out, at, x / 100);
        return put_pair(out, p, x % 100);
    }
    put_digits(out, at, x)
}

pub fn put_decimal(out: &mut [u8], at: usize, x: u32) -> usize
    requires { at + length (decimal x) ≤ length out.old }
    ensures { Wrote out.old at (decimal x) out.new result }
{
    put_total(out, at, u64::from(x))
}

fn put_field(out: &mut [u8], at: usize, x: u32) -> usize
    requires { at + length (field_of x) ≤ length out.old }
    ensures { Wrote out.old at (field_of x) out.new result }
{
    out[at] = b' ';
    put_decimal(out, at + 1, x)
}

fn put_head(out: &mut [u8], at: usize, event: u32, what: u8) -> usize
    requires { at + length (head_of event what) ≤ length out.old }
    ensures { Wrote out.old at (head_of event what) out.new result }
{
    let p = put_decimal(out, at, event);
    out[p] = b' ';
    out[p + 1] = what;
    p + 2
}

fn put_tail(out: &mut [u8], at: usize, a: u32, b: u32, c: u32) -> usize
    requires { at + length (tail_of a b c) ≤ length out.old }
    ensures { Wrote out.old at (tail_of a b c) out.new result }
{
    let after_a = put_field(out, at, a);
    let after_b = put_field(out, after_a, b);
    let after_c = put_field(out, after_b, c);
    out[after_c] = b'\n';
    after_c + 1
}

// "a list, each line ended by LF": event, what, a, b, c.
pub fn put_line(out: &mut [u8], at: usize, event: u32, what: u8, a: u32, b: u32, c: u32) -> usize
    requires { at + length (line_of event what a b c) ≤ length out.old }
    ensures { Wrote out.old at (line_of event what a b c) out.new result }
{
    let p = put_head(out, at, event, what);
    put_tail(out, p, a, b, c)
}

pub fn line_width(event: u32, what: u8, a: u32, b: u32, c: u32) -> usize
    ensures { Takes (line_of event what a b c) 46 result }
{
    decimal_width(event) + decimal_width(a) + decimal_width(b) + decimal_width(c) + 6
}

pub fn first_line_width() -> usize
    ensures { Takes first_line 17 result }
{
    17
}

// "the first line is always `event what a b c`"
pub fn put_first_line(out: &mut [u8], at: usize) -> usize
    requires { at + length first_line ≤ length out.old }
    ensures { Wrote out.old at first_line out.new result }
{
    put_text(out, at, b"event what a b c\n")
}

fn put_refused(out: &mut [u8], at: usize, no: u32) -> usize
    requires { at + length (number_of no) ≤ length out.old }
    ensures { Wrote out.old at (number_of no) out.new result }
{
    let p = put_text(out, at, b"refused ");
    put_decimal(out, p, no)
}

fn put_place(out: &mut [u8], at: usize, place: usize) -> usize
    requires { at + length (place_of place) ≤ length out.old }
    ensures { Wrote out.old at (place_of place) out.new result }
{
    let p = put_text(out, at, b" at ");
    let end = put_total(out, p, place as u64);
    out[end] = b'\n';
    end + 1
}

// "`refused 2 at 0` (number, place)", LF included.
pub fn put_refusal(out: &mut [u8], at: usize, no: u32, place: usize) -> usize
    requires { at + length (refusal_text no place) ≤ length out.old }
    ensures { Wrote out.old at (refusal_text no place) out.new result }
{
    let p = put_refused(out, at, no);
    put_place(out, p, place)
}

pub fn refusal_width(no: u32, place: usize) -> usize
    ensures { Takes (refusal_text no place) 43 result }
{
    decimal_width(no) + total_width(place as u64) + 13
}

// What is named write answers the place after its last byte.
pub fn write_refusal(out: &mut [u8], no: u32, place: usize) -> Result<usize, Refusal>
    ensures { Writes out.old (refusal_text no place) result out.new }
{
    if out.len() < refusal_width(no, place) {
        return Err(Refusal::OutputTooShort);
    }
    Ok(put_refusal(out, 0, no, place))
}
