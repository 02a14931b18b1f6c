// What a sheet says, our own or one that was handed in, beside what the journal gives; and where the check refused it.
ghost use Rattle.std.specs.Prelude.{◌<◌, ◌≤◌, length, IfSome};
ghost use Rattle.rules.specs.Limits.{most_trades, most_satisfaction_orders, most_trade_lines};

use crate::order::{Day, Order};
use claims::Line;
use counted::SatisfactionOrder;
use fairness::Portion;
use reasons::Reason;
use rows::{Refusal, Refused, TradeLines};
use said::{Reach, Said};
use std::io::Write;
use std::{fmt, io};

// Whose sheet it is; its lines, and how many of them could be read; and the check's refusal.
#[derive(Clone, Copy)]
pub struct Sheet<'a> {
    pub own: bool,
    pub said: &'a [Said; SatisfactionOrder::MOST],
    pub reach: Reach,
    pub refused: Option<Refused>,
}

fn whose(own: bool) -> &'static str {
    if own {
        "  our own sheet: "
    } else {
        "  the sheet: "
    }
}

// Before what is wrong.
#[derive(Clone, Copy)]
struct Here(Refusal);

impl fmt::Display for Here {
    fn fmt<W: fmt::Write>(&self, f: &mut fmt::Formatter<W>) -> fmt::Result {
        let number = self.0.number();
        write!(f, "  refused {number} here: ")
    }
}

// A line that could not be read: the one with the bad number, or one after it.
fn say_unread<W: Write>(out: &mut W, reach: Reach, i: usize) -> io::Result<()> {
    if reach.lines < i {
        return writeln!(out, "not read");
    }
    writeln!(out, "no number can be read at byte {}", reach.place)?;
    writeln!(
        out,
        "{}three readable numbers for each Satisfaction Order are wanted",
        Here(Refusal::NotThreeEach)
    )
}

// "A sheet line: reason, filled, cancelled." Our own names the journal's reason, which is said above it.
// Where less is due to the trade than is claimed, and the order has a part in it (shared), another sheet may be as good as our own.
fn say_line<W: Write>(out: &mut W, sheet: Sheet<'_>, i: usize, shared: bool) -> io::Result<()>
    requires { i < most_satisfaction_orders }
{
    write!(out, "{}", whose(sheet.own))?;
    if sheet.reach.lines <= i {
        return say_unread(out, sheet.reach, i);
    }
    let line = sheet.said[i];
    if !sheet.own {
        write!(out, "reason {}, ", line.reason)?;
    }
    write!(out, "filled {}, cancelled {}", line.filled, line.cancelled)?;
    if sheet.own && shared {
        write!(
            out,
            "; shared out by customer contracts, 6.94(a)(2)(ii)(B), rounded as the desk reads it: another good sheet may differ"
        )?;
    }
    writeln!(out)
}

// 21, 22, 24, where the check stopped at this line: the two numbers that differ.
fn say_line_fault<W: Write>(
    out: &mut W,
    line: Said,
    order: Order,
    refusal: Refusal,
) -> io::Result<()> {
    let here = Here(refusal);
    let filled = line.filled;
    match refusal {
        Refusal::DoesNotAddUp => writeln!(
            out,
            "{here}filled {filled} and cancelled {} make {}, the order has {}",
            line.cancelled,
            u64::from(filled) + u64::from(line.cancelled),
            order.size
        ),
        Refusal::WrongReason => writeln!(
            out,
            "{here}the sheet's reason is {}, the journal's is {}",
            line.reason,
            Reason::stored(order.reason)
        ),
        Refusal::AboveClaim => {
            writeln!(out, "{here}filled {filled}, the claim is {}", order.claim)
        }
        _ => Ok(()),
    }
}

// The line of one order, and what is wrong with it.
pub fn tell_line<W: Write>(
    out: &mut W,
    order: Order,
    sheet: Sheet<'_>,
    shared: bool,
) -> io::Result<()>
    requires { order.number < most_satisfaction_orders }
{
    let i = order.number;
    say_line(out, sheet, i, shared)?;
    match sheet.refused {
        Some(Refused { refusal, place }) if place == i => {
            say_line_fault(out, sheet.said[i], order, refusal)
        }
        _ => Ok(()),
    }
}

// "first extra byte"
pub fn tell_extra<W: Write>(out: &mut W, sheet: Sheet<'_>, lines: usize) -> io::Result<()> {
    let reach = sheet.reach;
    match sheet.refused {
        Some(
            Refused {
                refusal: Refusal::NotThreeEach,
                place: _,
            },
        ) if lines <= reach.lines => {
            writeln!(
                out,
                "The sheet goes on after its last line, at byte {}",
                reach.place
            )?;
            writeln!(
                out,
                "{}one line for each Satisfaction Order, and no more",
                Here(Refusal::NotThreeEach)
            )
        }
        _ => Ok(()),
    }
}

// "the lesser of trade size and the sum of claims; else the sum of claims"
fn say_due<W: Write>(out: &mut W, sum: u32, due: u32) -> io::Result<()> {
    write!(out, "  claims {sum}, due {due}")?;
    if due < sum {
        write!(
            out,
            ": the trade is larger than the customer firm size, so its size is all that is due, 6.94(a)(2)(ii)(B)"
        )?;
    }
    writeln!(out)
}

// The first line that is too far behind another, and that other.
fn behind(portions: &[Portion]) -> Option<(usize, usize)>
    ensures { IfSome result (λ pair. (pair.0 < length portions.now) × (pair.1 < length portions.now)) }
{
    for i in 0..portions.len() {
        let portion = portions[i];
        let before = portions
            .iter()
            .position(|other| fairness::breaks(portion, *other));
        if let Some(j) = before {
            return Some((i, j));
        }
    }
    None
}

// 26: a line that is too far behind another, and that other; the numbers of the trade's orders stand in its part.
fn say_behind<W: Write>(out: &mut W, day: Day<'_>, m: usize, portions: &[Portion]) -> io::Result<()>
    requires { (m < most_trades) × (length portions.now ≤ most_trade_lines) }
{
    let Some((i, j)) = behind(portions) else {
        return Ok(());
    };
    let part = Line::TRADES + m * Line::PART;
    let portion = portions[i];
    let other = portions[j];
    writeln!(
        out,
        "{}order {}, filled {} for {} customer contracts and below its claim of {}, is in proportion more than one contract behind order {}, filled {} for {} customer contracts",
        Here(Refusal::ShareRuleBroken),
        day.claims[part + i],
        portion.filled,
        portion.customers,
        portion.claim,
        day.claims[part + j],
        other.filled,
        other.customers
    )
}

// 25 and 26, where the check stopped at trade m.
fn say_trade_fault<W: Write>(
    out: &mut W,
    day: Day<'_>,
    m: usize,
    due: u32,
    portions: &[Portion],
    refusal: Refusal,
) -> io::Result<()>
    requires { (m < most_trades) × (length portions.now ≤ most_trade_lines) }
{
    match refusal {
        Refusal::NotTheDueTotal => {
            let filled = fairness::total(portions);
            writeln!(out, "{}due {due}, filled {filled}", Here(refusal))
        }
        Refusal::ShareRuleBroken => say_behind(out, day, m, portions),
        _ => Ok(()),
    }
}

// What the sheet fills of trade m, and what is wrong with it.
fn tell_fills<W: Write>(
    out: &mut W,
    day: Day<'_>,
    m: usize,
    due: u32,
    sheet: Sheet<'_>,
) -> io::Result<()>
    requires { m < most_trades }
{
    let mut portions = [Portion::NOTHING; TradeLines::MOST];
    let many = claims::gather(day.claims, m, &mut portions);
    checker::gather_fills(day.claims, day.lines, sheet.said, m, &mut portions);
    let portions = &portions[..many];
    writeln!(out, "filled {}", fairness::total(portions))?;
    match sheet.refused {
        Some(Refused { refusal, place }) if place == m => {
            say_trade_fault(out, day, m, due, portions, refusal)
        }
        _ => Ok(()),
    }
}

// Trade m: its claims and what is due, and what the sheet fills of it.
pub fn tell_trade<W: Write>(out: &mut W, day: Day<'_>, m: usize, sheet: Sheet<'_>) -> io::Result<()>
    requires { m < most_trades }
{
    let orders = claims::lines_of(day.claims, m);
    writeln!(
        out,
        "Trade {m}: {}; Satisfaction Orders: {orders}",
        day.trade(m)
    )?;
    if orders == 0 {
        return Ok(());
    }
    let due = day.due(m);
    say_due(out, day.claimed(m), due)?;
    write!(out, "{}", whose(sheet.own))?;
    if sheet.reach.lines < day.lines {
        return writeln!(out, "not read to its end");
    }
    tell_fills(out, day, m, due, sheet)
}
