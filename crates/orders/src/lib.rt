// The verdict on sent orders, and what verdicts on received ones are made of. A buy order goes for the offer, a sell order for the bid.
#![tactic(auto)]

ghost use Rattle.std.specs.Prelude.{◌≡◌, ◌≤◌, ◌<◌};
ghost use Rattle.rules.specs.Limits.{most_exchanges};
ghost use Rattle.quotes.specs.Tables.{many_series, Within};
ghost use Rattle.orders.specs.Orders.{worse_of, sent_as, reason_number, Headed, OrderIs, ShownIs, BestIs, SentIs, NoDutyIs, FirmIs};

use limits::FirmSize;
use quotes::{Quote, Quotes, Statuses};
use rows::{Rec, Status, Type, Way};

// What a record of kind 4 or 6 holds, its own words: `other` is "to" of a sent order, "from" of a received one.
#[derive(Clone, Copy)]
pub struct Order {
    pub kind: u32,
    pub other: usize,
    pub series: usize,
    pub side: u32,
    pub price: u32,
    pub size: u32,
}

// S, by its number.
#[derive(Clone, Copy, Debug, PartialEq, Eq)]
pub enum Sent {
    Fine = 0,
    NotShown = 1,
    NotBest = 2,
}

impl Sent {
    #[tactic(auto, unfolding(crate::specs::Orders::sent_as))]
    pub fn number(self) -> u32
        ensures { result ≡ sent_as self }
    {
        self as u32
    }
}

// Why home has no duty, by its number; the last is of a further principal order, so soon after the initial execution.
#[derive(Clone, Copy, Debug, PartialEq, Eq)]
pub enum Reason {
    AbsentOrWorse = 1,
    NotBest = 2,
    NonFirm = 3,
    TooSoon = 4,
}

impl Reason {
    pub fn number(self) -> u32
        ensures { result ≡ reason_number self }
    {
        self as u32
    }
}

// R: none, and the reason; the whole order; at least so many contracts.
#[derive(Clone, Copy)]
pub enum Duty {
    NoDuty(Reason),
    Whole(u32),
    AtLeast(u32),
}

// Its numbers, and those of a reason, where it was printed.
impl Duty {
    pub const NONE: u32 = 0;

    pub const WHOLE: u32 = 1;

    pub const AT_LEAST: u32 = 2;

    pub const ABSENT_OR_WORSE: u32 = Reason::AbsentOrWorse as u32;

    pub const NOT_BEST: u32 = Reason::NotBest as u32;

    pub const NON_FIRM: u32 = Reason::NonFirm as u32;
}

pub fn order_of(r: Rec) -> Order
    ensures { OrderIs r result }
{
    let row = r.row;
    Order {
        kind: row[0],
        other: row[1] as usize,
        series: row[2] as usize,
        side: row[3],
        price: row[4],
        size: row[5],
    }
}

#[tactic(auto, using(crate::proofs::OrderVerdicts::order_laws))]
fn is_worse(side: u32, there: u32, price: u32) -> bool
    ensures { result ≡ worse_of side there price }
{
    if side == Way::BUY {
        prices::is_above(there, price)
    } else {
        prices::is_above(price, there)
    }
}

#[tactic(auto, using(crate::proofs::OrderVerdicts::order_laws))]
pub fn shown_price(quotes: &[u32; Quotes::WORDS], exchange: usize, series: usize, side: u32) -> u32
    requires { Within exchange series }
    ensures { ShownIs quotes.now exchange series side result }
{
    let k = prices::place(exchange - 1, series);
    if side == Way::BUY {
        quotes[k + Quote::OFFER]
    } else {
        quotes[k + Quote::BID]
    }
}

#[tactic(auto, using(crate::proofs::OrderVerdicts::order_laws))]
pub fn best_price(quotes: &[u32; Quotes::WORDS], exchanges: usize, series: usize, side: u32) -> u32
    requires { (exchanges ≤ most_exchanges) × (series < many_series) }
    ensures { BestIs quotes.now exchanges series side result }
{
    if side == Way::BUY {
        prices::best_offer(quotes, exchanges, series)
    } else {
        prices::best_bid(quotes, exchanges, series)
    }
}

// "1 if its price is not the receiver's bid (sell) or offer (buy); else 2 if that is not the best; else 0."
pub fn sent_order(quotes: &[u32; Quotes::WORDS], exchanges: usize, order: Order) -> Sent
    requires { (exchanges ≤ most_exchanges) × Within order.other order.series }
    ensures { SentIs quotes.now exchanges order result }
{
    let there = shown_price(quotes, order.other, order.series, order.side);
    if !prices::is_equal(order.price, there) {
        return Sent::NotShown;
    }
    if there != best_price(quotes, exchanges, order.series, order.side) {
        return Sent::NotBest;
    }
    Sent::Fine
}

// Why home has no duty to a received order, if so, of what does not look at earlier orders: "First that holds."
#[tactic(auto, using(crate::proofs::OrderVerdicts::order_laws))]
pub fn no_duty(
    quotes: &[u32; Quotes::WORDS],
    statuses: &[u32; Statuses::WORDS],
    exchanges: usize,
    home: usize,
    order: Order,
) -> Option<Reason>
    requires { (exchanges ≤ most_exchanges) × Within home order.series }
    ensures { NoDutyIs quotes.now statuses.now exchanges home order result }
{
    let ours = shown_price(quotes, home, order.series, order.side);
    if ours == 0 || is_worse(order.side, ours, order.price) {
        return Some(Reason::AbsentOrWorse);
    }
    if ours != best_price(quotes, exchanges, order.series, order.side) {
        return Some(Reason::NotBest);
    }
    if statuses[home - 1] == Status::NON_FIRM {
        return Some(Reason::NonFirm);
    }
    None
}

// "for P/A the lesser of both automatic sizes; for principal home's principal size"
#[tactic(auto, using(crate::proofs::OrderVerdicts::order_laws))]
pub fn firm_size(exchanges: usize, home: usize, sizes: &[u32; FirmSize::WORDS], order: Order) -> u32
    requires { Headed exchanges home × ((1 ≤ order.other) × (order.other ≤ exchanges)) }
    ensures { FirmIs exchanges home sizes.now order result }
{
    let ours = 2 * (home - 1);
    let theirs = 2 * (order.other - 1);
    if order.kind == Type::LINKED {
        sizes[ours].min(sizes[theirs])
    } else {
        sizes[ours + 1]
    }
}
