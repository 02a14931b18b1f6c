// What the journal gives of one Satisfaction Order, out of the tables of its survey: of the order, of its trade, of its sender at the trade, and
// of the sender's two orders where it could send again.
ghost use Rattle.std.specs.Prelude.{◌≡◌, ◌*◌, ◌<◌, ◌≤◌};
ghost use Rattle.rules.specs.Limits.{most_exchanges, most_trades, most_satisfaction_orders};
ghost use Rattle.claims.specs.Lines.{Filing};

use crate::cancelled::Times;
use claims::Line;
use limits::Exchanges;
use prices::Side;
use reasons::Reason;
use std::fmt;
use trades::{Kept, Shown, Snap, Trades};

// The tables of the survey of an accepted journal, and how many Satisfaction Orders and trades it has; when home cancelled the orders; and the close.
#[derive(Clone, Copy)]
pub struct Day<'a> {
    pub claims: &'a [u32; Line::WORDS],
    pub trades: &'a [u32; Trades::WORDS],
    pub shown: &'a [u32; Shown::WORDS],
    pub lines: usize,
    pub traded: usize,
    pub times: &'a Times,
    pub close: u32,
    ghost filed: { Filing claims.now lines },
    ghost few: { traded ≤ most_trades },
}

#[derive(Clone, Copy)]
pub struct Order {
    pub number: usize,
    pub trade: usize,
    pub size: u32,
    pub reason: Option<Reason>,
    pub customers: u32,
    pub claim: u32,
    pub sender: u32,
    pub asked: u32,
    pub time: u32,
    // When home cancelled it and named the initiator.
    pub cancelled: Option<u32>,
}

// The initiator is 0 where no other exchange initiated it, as `reasons::allowed` is given it.
#[derive(Clone, Copy)]
pub struct Traded {
    pub price: u32,
    pub size: u32,
    pub block: bool,
    pub complex: bool,
    pub initiator: u32,
    pub report: u32,
    pub closing: bool,
    pub series: u32,
}

impl fmt::Display for Traded {
    fn fmt<W: fmt::Write>(&self, f: &mut fmt::Formatter<W>) -> fmt::Result {
        let Traded {
            price,
            size,
            series,
            ..
        } = *self;
        write!(f, "{size} contracts at {price} cents in series {series}")
    }
}

// The side that was traded through, by its word, and the price there.
#[derive(Clone, Copy)]
pub struct Through {
    pub side: &'static str,
    pub price: u32,
}

// Of the sender at the trade: whether it was traded through, and the number of the sent order that excuses home.
#[derive(Clone, Copy)]
pub struct There {
    pub through: Option<Through>,
    pub excuser: Option<u32>,
}

// Where a sender stands among the exchanges, of which it is one.
pub fn seat_of(sender: usize) -> usize
    ensures { result < most_exchanges }
{
    if 0 < sender && sender <= Exchanges::MOST as usize {
        sender - 1
    } else {
        0
    }
}

// Where it stands at trade m, in what is kept for each trade and exchange.
fn place_of(m: usize, sender: u32) -> usize
    requires { m < most_trades }
    ensures { result < most_trades * most_exchanges }
{
    m * 8 + seat_of(sender as usize)
}

// Which of its sender's orders for a trade an order is. Home may cancel the first, priced as for a block that was none, and then there may be a
// second.
#[derive(Clone, Copy)]
pub enum Turn {
    Only,
    // When home cancelled it.
    First { cancelled: u32 },
    // The number of the first, and when home cancelled that.
    Second { first: usize, cancelled: u32 },
}

impl Day<'_> {
    pub fn order(self, i: usize) -> Order
        requires { i < most_satisfaction_orders }
        ensures { result.number ≡ i }
    {
        let row = i * 8;
        Order {
            number: i,
            trade: self.claims[row + Line::TRADE] as usize,
            size: self.claims[row + Line::SIZE],
            reason: Reason::numbered(self.claims[row + Line::REASON]),
            customers: self.claims[row + Line::CUSTOMERS],
            claim: self.claims[row + Line::CLAIM],
            sender: self.claims[row + Line::SENDER],
            asked: self.claims[row + Line::ASKED],
            time: self.claims[row + Line::TIME],
            cancelled: self.times[i],
        }
    }

    // The series stands in the snapshot of every exchange; the first has it.
    pub fn trade(self, m: usize) -> Traded
        requires { m < most_trades }
    {
        let row = m * 8;
        Traded {
            price: self.trades[row + Kept::PRICE],
            size: self.trades[row + Kept::SIZE],
            block: self.trades[row + Kept::BLOCK] == 1,
            complex: self.trades[row + Kept::COMPLEX] == 1,
            initiator: self.trades[row + Kept::INITIATOR],
            report: self.trades[row + Kept::REPORT],
            closing: self.trades[row + Kept::CLOSING] == 1,
            series: self.shown[m * 64 + Snap::SERIES],
        }
    }

    pub fn there(self, m: usize, sender: u32) -> There
        requires { m < most_trades }
    {
        let at = place_of(m, sender) * 8;
        let price = self.shown[at + Snap::PRICE];
        There {
            through: match self.shown[at + Snap::SIDE] {
                Side::NEITHER => None,
                Side::BID => Some(Through { side: "bid", price }),
                _ => Some(Through {
                    side: "offer",
                    price,
                }),
            },
            // one above the number, 0 for none
            excuser: self.shown[at + Snap::EXCUSER].checked_sub(1),
        }
    }

    // The sender's first order for trade m, where `i` is one of them.
    fn first(self, m: usize, sender: u32, i: usize) -> usize
        requires { m < most_trades }
    {
        for j in 0..claims::lines_of(self.claims, m) {
            let line = claims::line_of(self.claims, m, j);
            if self.claims[line * 8 + Line::SENDER] == sender {
                return line;
            }
        }
        i
    }

    // Of order `i`, for trade m.
    pub fn turn(self, m: usize, sender: u32, i: usize) -> Turn
        requires { m < most_trades }
    {
        // one above the time, 0 for none
        let Some(cancelled) = self.claims[Line::AGAIN + place_of(m, sender)].checked_sub(1) else {
            return Turn::Only;
        };
        let first = self.first(m, sender, i);
        if first == i {
            return Turn::First { cancelled };
        }
        Turn::Second { first, cancelled }
    }

    // The sum of trade m's claims.
    pub fn claimed(self, m: usize) -> u32
        requires { m < most_trades }
    {
        self.claims[Line::TRADES + m * Line::PART + Line::SUM]
    }

    pub fn due(self, m: usize) -> u32
        requires { m < most_trades }
    {
        claims::due_total(self.claims, self.trades, m)
    }
}
