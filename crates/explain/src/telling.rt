// What is said of one Satisfaction Order: what the journal gives of it, and what each of that is judged by.
ghost use Rattle.std.specs.Prelude.{◌<◌, ◌≤◌};
ghost use Rattle.rules.specs.Limits.{most_trades};
ghost use Rattle.rules.specs.Reasons.{three_minutes};

use crate::order::{Day, Order, There, Through, Traded, Turn};
use crate::words::{Clock, Why};
use reasons::{Claim, Reason, Receipt};
use std::io;
use std::io::Write;

fn say_order<W: Write>(out: &mut W, order: Order) -> io::Result<()> {
    writeln!(
        out,
        "Satisfaction Order {} from exchange {}: {} contracts at {} cents, for trade {}",
        order.number, order.sender, order.size, order.asked, order.trade
    )
}

fn say_marks<W: Write>(out: &mut W, traded: Traded) -> io::Result<()> {
    if traded.block {
        write!(out, ", a block")?;
    }
    if traded.complex {
        write!(out, ", complex")?;
    }
    if traded.initiator != 0 {
        write!(out, ", initiated by exchange {}", traded.initiator)?;
    }
    if traded.closing {
        write!(out, ", after the closing record")?;
    }
    Ok(())
}

fn say_trade<W: Write>(out: &mut W, traded: Traded) -> io::Result<()> {
    let report = Clock(u64::from(traded.report));
    write!(out, "  the trade: {traded}, reported at {report}")?;
    say_marks(out, traded)?;
    writeln!(out)
}

// "An away exchange is traded through if its bid is above the price or its offer below it."
fn say_through<W: Write>(out: &mut W, there: There, customers: u32) -> io::Result<()> {
    let Some(Through { side, price }) = there.through else {
        return writeln!(out, "  not traded through");
    };
    writeln!(
        out,
        "  traded through: its {side} of {price} cents, {customers} customer contracts"
    )
}

// The last moment in time: so long after the report, or after a cancellation.
fn until(from: u32, allowed: u64) -> u64
    requires { allowed ≤ three_minutes }
{
    u64::from(from) + allowed
}

fn say_allowed<W: Write>(out: &mut W, allowed: u64, initiator: u32) -> io::Result<()> {
    if allowed == Receipt::ONE_MINUTE {
        return writeln!(out, ", one minute after a report in the last five minutes");
    }
    write!(out, ", three minutes after the report")?;
    if initiator != 0 {
        write!(out, " of a trade that another exchange initiated")?;
    }
    writeln!(out)
}

// 8 and 9: when the order came, and the limit that applies to it.
fn say_time<W: Write>(out: &mut W, time: u32, traded: Traded, close: u32) -> io::Result<()> {
    let allowed = reasons::allowed(traded.initiator, traded.report, close);
    write!(
        out,
        "  received at {}; in time until {}",
        Clock(u64::from(time)),
        Clock(until(traded.report, allowed))
    )?;
    say_allowed(out, allowed, traded.initiator)
}

// "The first keeps the reason it has", and its exchange "may send again within three minutes".
fn say_first<W: Write>(out: &mut W, sender: u32, cancelled: u32) -> io::Result<()> {
    writeln!(
        out,
        "  cancelled at {} as priced for a block that was none; it keeps its reason, and nothing of it is filled",
        Clock(u64::from(cancelled))
    )?;
    writeln!(
        out,
        "  exchange {sender} may send again until {}, three minutes after the cancellation, 6.94(a)(2)(i)",
        Clock(until(cancelled, Receipt::THREE_MINUTES))
    )
}

// 15, in the place of 8 and 9: "later than 180,000 ms after the cancellation".
fn say_second<W: Write>(out: &mut W, time: u32, first: usize, cancelled: u32) -> io::Result<()> {
    // an order that is sent again stands behind the cancellation
    let after = u64::from(time.saturating_sub(cancelled));
    writeln!(
        out,
        "  sent again after order {first} was cancelled at {}; judged from then, and not from the report",
        Clock(u64::from(cancelled))
    )?;
    write!(
        out,
        "  received at {}, {} after the cancellation; the limit is three minutes: ",
        Clock(u64::from(time)),
        Clock(after)
    )?;
    if Receipt::THREE_MINUTES < after {
        writeln!(out, "late")
    } else {
        writeln!(out, "in time")
    }
}

// When the order came, and what that is judged by.
fn say_received<W: Write>(
    out: &mut W,
    order: Order,
    turn: Turn,
    traded: Traded,
    close: u32,
) -> io::Result<()> {
    match turn {
        Turn::Only => say_time(out, order.time, traded, close),
        Turn::First { cancelled } => {
            say_time(out, order.time, traded, close)?;
            say_first(out, order.sender, cancelled)
        }
        Turn::Second { first, cancelled } => say_second(out, order.time, first, cancelled),
    }
}

fn in_words(minutes: u64) -> &'static str {
    if minutes == Receipt::ONE_MINUTE {
        "one minute for an order received five minutes before the close or later"
    } else {
        "three minutes"
    }
}

// "A cancellation in time makes reason 14, judged after 9 and before 11 ..; a late one cancels and changes nothing."
fn say_outcome<W: Write>(out: &mut W, in_time: bool, reason: Option<Reason>) -> io::Result<()> {
    if !in_time {
        return writeln!(out, ": late, and changes nothing");
    }
    write!(out, ": in time")?;
    if reason != Some(Reason::InitiatorNamed) {
        let stands = Reason::stored(reason);
        write!(out, ", but reason {stands} is judged before it and stands")?;
    }
    writeln!(out)
}

// 14: when home cancelled the order and whom it named, and the limit that applies to that. Nobody but the initiator can be named.
fn say_cancelled<W: Write>(
    out: &mut W,
    order: Order,
    initiator: u32,
    close: u32,
) -> io::Result<()> {
    let Some(cancelled) = order.cancelled else {
        return Ok(());
    };
    // the record that cancels an order stands behind it
    let after = cancelled.saturating_sub(order.time);
    write!(
        out,
        "  cancelled at {} and exchange {initiator} named, {} after it was received; the limit is {}",
        Clock(u64::from(cancelled)),
        Clock(u64::from(after)),
        in_words(reasons::minutes_from(order.time, close))
    )?;
    say_outcome(
        out,
        reasons::in_time(order.time, close, cancelled),
        order.reason,
    )
}

// 11 and 12: the order's own price beside "the one required".
fn say_price<W: Write>(out: &mut W, asked: u32, traded: Traded, there: There) -> io::Result<()> {
    let Some(Through { side, price }) = there.through else {
        return Ok(());
    };
    let required = reasons::required(u32::from(traded.block), traded.price, price);
    write!(
        out,
        "  its price {asked} cents; required {required} cents, the "
    )?;
    if traded.block {
        writeln!(out, "price of the block")
    } else {
        writeln!(out, "{side} traded through")
    }
}

// "For a trade after it, each claim is also at most 10"
fn say_limit<W: Write>(out: &mut W, least: u32) -> io::Result<()> {
    write!(
        out,
        " is {least}; at most {} for a trade after the closing record, 6.94(a)(2)(ii)(C)",
        Claim::MOST_AT_THE_CLOSE
    )
}

fn say_least<W: Write>(out: &mut W, size: u32, customers: u32, traded: u32) -> io::Result<()> {
    write!(
        out,
        ": the least of {size} ordered, {customers} customer contracts and {traded} traded"
    )
}

// "0 for a reason other than 0; else the least of order size, customer contracts and trade size"
fn say_claim<W: Write>(out: &mut W, order: Order, traded: u32) -> io::Result<()> {
    write!(out, "  claim {}", order.claim)?;
    if order.reason.is_some() {
        return writeln!(out, ": there is a reason");
    }
    let least = reasons::least_of(order.size, order.customers, traded);
    say_least(out, order.size, order.customers, traded)?;
    if order.claim < least {
        say_limit(out, least)?;
    }
    writeln!(out)
}

// All of it, for an order of trade m.
pub fn tell<W: Write>(out: &mut W, day: Day<'_>, order: Order, m: usize) -> io::Result<()>
    requires { m < most_trades }
{
    let traded = day.trade(m);
    let there = day.there(m, order.sender);
    let turn = day.turn(m, order.sender, order.number);
    say_order(out, order)?;
    say_trade(out, traded)?;
    say_through(out, there, order.customers)?;
    say_received(out, order, turn, traded, day.close)?;
    say_cancelled(out, order, traded.initiator, day.close)?;
    say_price(out, order.asked, traded, there)?;
    let why = Why {
        reason: order.reason,
        excuser: there.excuser,
        initiator: traded.initiator,
    };
    writeln!(out, "  {why}")?;
    say_claim(out, order, traded.size)
}
