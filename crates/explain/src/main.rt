// Each Satisfaction Order, each trade and each received order of a journal in words: what a clerk needs to answer a call about it.
// `explain` takes the journal on standard input and says what our own sheet fills. `explain JOURNAL SHEET` sets a sheet beside what the journal gives: first the check's
// answer, then in its place what was found to be wrong. Or the journal's refusal.
#![tactic(auto)]

ghost use Rattle.std.specs.Prelude.{◌≤◌, ◌<◌};
ghost use Rattle.rules.specs.Limits.{most_satisfaction_orders};
ghost use Rattle.list.specs.Listing.{most_rows};

use beside::Sheet;
use claims::Line;
use counted::{SatisfactionOrder, Trade};
use feed::Room;
use feed::records::Records;
use list::Row;
use order::Day;
use rows::Refused;
use said::Said;
use std::io::{BufWriter, Write};
use std::{env, io};
use trades::{Shown, Trades};

mod beside;
mod cancelled;
mod order;
mod received;
mod telling;
mod words;

// One order, and its line in the sheet.
fn told_order<W: Write>(out: &mut W, day: Day<'_>, i: usize, sheet: Sheet<'_>) -> io::Result<()>
    requires { i < most_satisfaction_orders }
{
    let order = day.order(i);
    let m = order.trade;
    if Trade::MOST <= m {
        return Ok(());
    }
    telling::tell(out, day, order, m)?;
    let due = day.due(m);
    writeln!(out, "  due to all orders for the trade: {due}")?;
    let shared = order.reason.is_none() && due < day.claimed(m);
    beside::tell_line(out, order, sheet, shared)
}

// Every order, then every trade, each with what the sheet says beside it.
fn tell<W: Write>(out: &mut W, day: Day<'_>, sheet: Sheet<'_>) -> io::Result<()> {
    if day.lines == 0 {
        writeln!(out, "no Satisfaction Order")?;
    }
    for i in 0..day.lines {
        told_order(out, day, i, sheet)?;
    }
    beside::tell_extra(out, sheet, day.lines)?;
    for m in 0..day.traded {
        beside::tell_trade(out, day, m, sheet)?;
    }
    Ok(())
}

// The journal with a sheet of its own or one that was handed in, which the check may have refused. A refused journal has no tables.
fn explain<W: Write>(
    out: &mut W,
    journal: &[u8],
    sheet: &[u8],
    own: bool,
    refused: Option<Refused>,
) -> io::Result<()> {
    let mut trades = [0u32; Trades::WORDS];
    let mut shown = [0u32; Shown::WORDS];
    let mut claims = [0u32; Line::WORDS];
    let mut list = [0u32; Row::MOST * Row::WORDS];
    let Ok(whole) = survey::survey(journal, &mut trades, &mut shown, &mut claims, &mut list) else {
        return Ok(());
    };
    let Ok(front) = header::read_header(journal) else {
        return Ok(());
    };
    let mut said = [Said::NOTHING; SatisfactionOrder::MOST];
    let reach = said::read_lines(sheet, whole.lines, &mut said);
    let sheet = Sheet {
        own,
        said: &said,
        reach,
        refused,
    };
    let records = Records::behind(front.head, &journal[front.used..]);
    let times = cancelled::read(records);
    let day = Day {
        claims: &claims,
        trades: &trades,
        shown: &shown,
        lines: whole.lines,
        traded: whole.trades,
        times: &times,
        close: front.head.close,
    };
    tell(out, day, sheet)?;
    received::tell(out, records, &list, whole.listed)
}

// On standard output; where that fails it is said.
fn print(rt: &HostRuntime, journal: &[u8], sheet: &[u8], own: bool, refused: Option<Refused>) {
    let printed = print_explained(rt, journal, sheet, own, refused);
    feed::or_say(rt, "standard output", printed);
}

fn print_explained(
    rt: &HostRuntime,
    journal: &[u8],
    sheet: &[u8],
    own: bool,
    refused: Option<Refused>,
) -> io::Result<()> {
    let mut out = BufWriter::new(rt.alloc(), rt.stdout())?;
    explain(&mut out, journal, sheet, own, refused)?;
    out.flush()
}

// The journal with our own sheet, or its refusal.
fn explain_own(rt: &HostRuntime, journal: &[u8]) {
    let mut sheet = [0u8; Room::OWN_SHEET];
    match answers::write_sheet(journal, &mut sheet) {
        Ok(bytes) => {
            if let Some(own) = sheet.get(..bytes) {
                print(rt, journal, own, true, None);
            }
        }
        Err(refused) => feed::say_refused(&mut rt.stdout(), refused),
    }
}

// A sheet that was handed in: first the check's answer.
fn explain_checked(rt: &HostRuntime, journal: &[u8], sheet: &[u8]) {
    let refused = answers::check_sheet(journal, sheet).err();
    match refused {
        Some(refused) => feed::say_refused(&mut rt.stdout(), refused),
        None => feed::print(rt, "accepted\n"),
    }
    print(rt, journal, sheet, false, refused);
}

fn main(rt: HostRuntime) {
    let Some(mut words) = feed::or_say(&rt, "argument", env::args(&rt)) else {
        return;
    };
    match (words.next(), words.next(), words.next(), words.next()) {
        (_, Some(journal), Some(sheet), None) => {
            feed::with_files(&rt, journal.as_str(), sheet.as_str(), |journal, sheet| {
                explain_checked(&rt, journal, sheet);
            });
        }
        (_, None, _, _) => feed::with_journal(&rt, |journal| explain_own(&rt, journal)),
        _ => {
            let _ = eprintln!(rt; "usage: explain, or explain JOURNAL SHEET");
        }
    }
}
