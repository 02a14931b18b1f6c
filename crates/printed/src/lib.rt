// The day's list printed: its rows as text, each Satisfaction Order with what our own sheet says of it.
#![tactic(auto)]

ghost use Rattle.std.specs.Prelude.{◌≡◌, ◌+◌, ◌*◌, ◌≤◌, length};
ghost use Rattle.rules.specs.Limits.{most_satisfaction_orders};
ghost use Rattle.text.specs.Lent.{Wrote, Takes};
ghost use Rattle.list.specs.Listing.{most_rows, text_from, list_words, most_text};
ghost use Rattle.printed.specs.Printing.{sheet_from, OrderShown, RowShown, Prints};

use claims::Line;
use counted::SatisfactionOrder;
use list::Row;
use rows::Refusal;
use text::What;

// What a line says.
#[derive(Clone, Copy)]
struct Shown {
    event: u32,
    what: u8,
    a: u32,
    b: u32,
    c: u32,
}

// What our own sheet says on this line.
#[tactic(auto, using(crate::proofs::Printing::shown_laws))]
fn order_shown(
    event: u32,
    line: usize,
    claims: &[u32; Line::WORDS],
    fills: &[u32; SatisfactionOrder::MOST],
    lines: usize,
) -> Shown
    requires { lines ≤ most_satisfaction_orders }
    ensures { OrderShown (sheet_from claims.now fills.now lines) event line result }
{
    if lines <= line {
        return Shown {
            event,
            what: What::SATISFACTION,
            a: 0,
            b: 0,
            c: 0,
        };
    }
    let filled = fills[line];
    let cancelled = claims[line * 8 + Line::SIZE].saturating_sub(filled);
    Shown {
        event,
        what: What::SATISFACTION,
        a: claims[line * 8 + Line::REASON],
        b: filled,
        c: cancelled,
    }
}

#[tactic(auto, using(crate::proofs::Printing::shown_laws))]
fn row_shown(
    list: &[u32],
    i: usize,
    claims: &[u32; Line::WORDS],
    fills: &[u32; SatisfactionOrder::MOST],
    lines: usize,
) -> Shown
    requires { (i * 5 + 5 ≤ length list.now) × (lines ≤ most_satisfaction_orders) }
    ensures { RowShown (sheet_from claims.now fills.now lines) list.now i result }
{
    let at = i * Row::WORDS;
    let event = list[at + Row::EVENT];
    let what = (list[at + Row::WHAT] % 256) as u8;
    let a = list[at + Row::A];
    if what == What::SATISFACTION {
        return order_shown(event, a as usize, claims, fills, lines);
    }
    Shown {
        event,
        what,
        a,
        b: list[at + Row::B],
        c: list[at + Row::C],
    }
}

fn rows_width(
    list: &[u32],
    listed: usize,
    claims: &[u32; Line::WORDS],
    fills: &[u32; SatisfactionOrder::MOST],
    lines: usize,
) -> usize
    requires { (listed ≤ most_rows) × (length list.now ≡ list_words) × (lines ≤ most_satisfaction_orders) }
    ensures { Takes (text_from (sheet_from claims.now fills.now lines) list.now listed) most_text result }
{
    let mut width: usize = 0;
    for i in 0..listed {
        let row = row_shown(list, i, claims, fills, lines);
        width += text::line_width(row.event, row.what, row.a, row.b, row.c);
    }
    width
}

fn put_rows(
    list: &[u32],
    listed: usize,
    claims: &[u32; Line::WORDS],
    fills: &[u32; SatisfactionOrder::MOST],
    lines: usize,
    out: &mut [u8],
    at: usize,
) -> usize
    requires listed_le_most_rows { (listed ≤ most_rows) × (length list.now ≡ list_words) × (lines ≤ most_satisfaction_orders) }
    requires listed_in_bounds { at + length (text_from (sheet_from claims.now fills.now lines) list.now listed) ≤ length out.old }
    ensures { Wrote out.old at (text_from (sheet_from claims.now fills.now lines) list.now listed) out.new result }
{
    let mut next = at;
    for i in 0..listed {
        let row = row_shown(list, i, claims, fills, lines);
        next = text::put_line(out, next, row.event, row.what, row.a, row.b, row.c);
    }
    next
}

// "a list, each line ended by LF; the first line is always `event what a b c`": all of it, or 9 and nothing.
pub fn print(
    list: &[u32],
    listed: usize,
    claims: &[u32; Line::WORDS],
    fills: &[u32; SatisfactionOrder::MOST],
    lines: usize,
    out: &mut [u8],
) -> Result<usize, Refusal>
    requires { (listed ≤ most_rows) × (length list.now ≡ list_words) × (lines ≤ most_satisfaction_orders) }
    ensures { Prints list.now listed claims.now fills.now lines out.old result out.new }
{
    let first = text::first_line_width();
    let rest = rows_width(list, listed, claims, fills, lines);
    if out.len() < first + rest {
        return Err(Refusal::OutputTooShort);
    }
    let next = text::put_first_line(out, 0);
    Ok(put_rows(list, listed, claims, fills, lines, out, next))
}
