// What is said of each received order: its record, read once more, and beside it the verdict that the list has of its event. Nothing is judged
// anew here; which execution a verdict goes back to is found by the verdicts before it.
ghost use Rattle.std.specs.Prelude.{◌*◌, ◌≤◌};
ghost use Rattle.list.specs.Listing.{most_rows};

use crate::order;
use crate::words::Clock;
use feed::records::Records;
use limits::Exchanges;
use list::Row;
use orders::{Duty, Order, Reason};
use rows::{Rec, Type, Way};
use std::io;
use std::io::Write;

// A line R: its event, and the duty that its a, b and c say.
#[derive(Clone, Copy)]
struct Verdict {
    event: u32,
    duty: Duty,
}

// The reason of this number, which is what the list keeps.
fn reason_of(number: u32) -> Reason {
    match number {
        Duty::ABSENT_OR_WORSE => Reason::AbsentOrWorse,
        Duty::NOT_BEST => Reason::NotBest,
        Duty::NON_FIRM => Reason::NonFirm,
        _ => Reason::TooSoon,
    }
}

impl Verdict {
    fn of_row(row: &[u32; Row::WORDS]) -> Verdict {
        Verdict {
            event: row[Row::EVENT],
            duty: match row[Row::A] {
                Duty::NONE => Duty::NoDuty(reason_of(row[Row::C])),
                Duty::WHOLE => Duty::Whole(row[Row::B]),
                _ => Duty::AtLeast(row[Row::B]),
            },
        }
    }
}

// An exchange's "initial execution": the newest of its principal orders with the verdict whole. Where a verdict speaks of an execution there was
// one.
#[derive(Clone, Copy, Default)]
struct Execution {
    event: u32,
    time: u32,
}

type Executions = [Execution; Exchanges::MOST as usize];

fn say_record<W: Write>(out: &mut W, order: Order, event: u32, time: u32) -> io::Result<()> {
    let kind = if order.kind == Type::LINKED {
        "P/A"
    } else {
        "principal"
    };
    let way = if order.side == Way::BUY {
        "buy"
    } else {
        "sell"
    };
    writeln!(
        out,
        "Event {event}: {kind} order from exchange {}, {way} {} contracts at {} cents in series {}, received at {}",
        order.other,
        order.size,
        order.price,
        order.series,
        Clock(u64::from(time))
    )
}

// "home's bid (sell) or offer (buy)"
fn ours(side: u32) -> &'static str {
    if side == Way::BUY {
        "home's offer"
    } else {
        "home's bid"
    }
}

fn firm_size(kind: u32) -> &'static str {
    if kind == Type::LINKED {
        "the lesser of both automatic sizes, 6.93(e)"
    } else {
        "home's principal size, 6.93(e)"
    }
}

// The received order stands behind the execution.
fn say_execution<W: Write>(
    out: &mut W,
    sender: usize,
    time: u32,
    execution: Execution,
) -> io::Result<()> {
    write!(
        out,
        "a principal order of exchange {sender} had to be executed whole {} ms before (event {}), 6.93(c)(2)",
        time.saturating_sub(execution.time),
        execution.event
    )
}

// "First that holds."
fn say_none<W: Write>(
    out: &mut W,
    order: Order,
    time: u32,
    reason: Reason,
    execution: Execution,
) -> io::Result<()> {
    write!(out, "  no duty, reason {}: ", reason.number())?;
    let ours = ours(order.side);
    match reason {
        Reason::AbsentOrWorse => {
            write!(out, "{ours} is absent or worse than its price, 6.93(e)")
        }
        Reason::NotBest => write!(out, "{ours} is not the best, 6.93(e)"),
        Reason::NonFirm => write!(out, "home is non-firm, 6.92(a)(15)"),
        Reason::TooSoon => say_execution(out, order.other, time, execution),
    }
}

// "the whole order if not above the firm size". Of a principal order it is the initial execution: "further principal orders from the same sender
// in the class, any series, have no duty for 15 seconds".
fn say_whole<W: Write>(out: &mut W, order: Order) -> io::Result<()> {
    write!(
        out,
        "  the whole order: it is not above {}",
        firm_size(order.kind)
    )?;
    if order.kind == Type::PRINCIPAL {
        write!(
            out,
            "\n  a period begins for exchange {}, 6.93(c)(2): for 15 seconds no duty to its further principal orders, unless {} in series {} has moved and is the best; then up to a minute \"at least\", unless it has moved",
            order.other,
            ours(order.side),
            order.series
        )?;
    }
    Ok(())
}

// "the lesser of its size and our principal size. It starts no new period." Otherwise an order that is not executed whole is above the firm size.
fn say_at_least<W: Write>(
    out: &mut W,
    order: Order,
    time: u32,
    contracts: u32,
    execution: Execution,
) -> io::Result<()> {
    write!(out, "  at least {contracts}")?;
    if contracts < order.size {
        write!(out, ": {}", firm_size(order.kind))
    } else {
        write!(out, ", which is all of it, and no new period begins: ")?;
        say_execution(out, order.other, time, execution)
    }
}

// One order, by the verdict on its event.
fn tell_order<W: Write>(
    out: &mut W,
    rec: Rec,
    verdict: Verdict,
    executions: &mut Executions,
) -> io::Result<()> {
    let order = orders::order_of(rec);
    let event = verdict.event;
    let time = rec.time;
    let seat = order::seat_of(order.other);
    let execution = executions[seat];
    say_record(out, order, event, time)?;
    match verdict.duty {
        Duty::NoDuty(reason) => say_none(out, order, time, reason, execution),
        Duty::Whole(_) => {
            if order.kind == Type::PRINCIPAL {
                executions[seat] = Execution { event, time };
            }
            say_whole(out, order)
        }
        Duty::AtLeast(contracts) => say_at_least(out, order, time, contracts, execution),
    }?;
    writeln!(out)
}

// Each of them, in the order of the journal, with the first row behind those of the events before it: a received order has a row of its own.
pub fn tell<W: Write>(
    out: &mut W,
    records: Records<'_>,
    list: &[u32; Row::MOST * Row::WORDS],
    listed: usize,
) -> io::Result<()>
    requires { listed ≤ most_rows }
{
    let mut executions = [Execution::default(); Exchanges::MOST as usize];
    let (list, _) = list[..listed * Row::WORDS].as_chunks::<{ Row::WORDS }>();
    // Behind the last event that is listed no order is received, and no record is read for one.
    let events = list.last().map_or(0, |row| row[Row::EVENT] as usize + 1);
    let mut verdicts = list.iter().map(Verdict::of_row);
    for (event, entry) in records.take(events).enumerate() {
        let rec = entry.taken.rec;
        if rec.kind == Rec::RECEIVED {
            let Some(verdict) = verdicts.find(|verdict| event <= verdict.event as usize) else {
                return Ok(());
            };
            tell_order(out, rec, verdict, &mut executions)?;
        }
    }
    Ok(())
}
