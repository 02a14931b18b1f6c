// Reason 2: the orders that home has sent, and which of them still excuse a trade through the exchange they went to.
#![tactic(auto)]

ghost use Rattle.std.specs.Prelude.{◌≡◌, ◌+◌, ◌-◌, ◌*◌, ◌<◌, ◌≤◌, get_or, length};
ghost use Rattle.rules.specs.Limits.{most_exchanges, most_sent_orders};
ghost use Rattle.rules.specs.Record.{quote_kind, sent_kind, response_kind};
ghost use Rattle.rows.specs.Rows.{word, QuoteOk, OrderOk};
ghost use Rattle.quotes.specs.Tables.{Within};
ghost use Rattle.excuses.specs.Excuses.{order_words, Chains, FitsOrders, ResponseKept, ExcusesStep, ExcuserIs, backed, outlived, excusing};

use counted::SentOrder;
use limits::Exchanges;
use quotes::Quote;
use rows::{Rec, Way};

// What is kept of a sent order: its six fields, its time, whether its excuse stands.
#[derive(Drop)]
pub struct Excuse;

impl Excuse {
    pub const SIDE: usize = 3;

    pub const PRICE: usize = 4;

    pub const SIZE: usize = 5;

    pub const TIME: usize = 6;

    pub const STANDS: usize = 7;

    // "more than 20,000 ms before the trade"
    pub const WAIT: u64 = 20000;
}

// The table of sent orders: a row of eight words for each.
#[derive(Drop)]
pub struct Orders;

impl Orders {
    pub const WORDS: usize = SentOrder::MOST * 8;
}

// The chains' table: where the chain of each exchange and series begins, then where it goes on after each order.
#[derive(Drop)]
pub struct Chain;

impl Chain {
    pub const HEADS: usize = Exchanges::MOST as usize * Quote::SERIES;

    pub const WORDS: usize = Chain::HEADS + SentOrder::MOST;
}

// A new order's excuse stands, and its chain begins with it.
fn keep_sent(
    orders: &mut [u32; Orders::WORDS],
    chains: &mut [u32; Chain::WORDS],
    sent: usize,
    r: Rec,
) -> usize
    requires kind_value { (r.kind ≡ sent_kind) × (sent < most_sent_orders) }
    requires order_ok { OrderOk most_exchanges 0 r }
    requires chains { Chains orders.old chains.old sent }
    ensures { ExcusesStep r orders.old sent orders.new chains.new result }
{
    let row = r.row;
    let chain = quotes::row_of(row[1] as usize, row[2] as usize);
    rows::put_row(
        orders,
        sent,
        [row[0], row[1], row[2], row[3], row[4], row[5], r.time, 1],
    );
    let older = chains[chain];
    chains[Chain::HEADS + sent] = older;
    chains[chain] = (sent + 1) as u32;
    sent + 1
}

// "filled in full": the excuse ends there.
#[tactic(auto, using(crate::proofs::Steps::step_laws))]
fn answered(orders: &mut [u32; Orders::WORDS], sent: usize, r: Rec)
    requires { (r.kind ≡ response_kind) × (word r 0 < sent) × (sent ≤ most_sent_orders) × (length orders.old ≡ order_words) }
    ensures { ResponseKept r orders.old sent orders.new }
{
    let row = r.row;
    let at = row[0] as usize * 8;
    if orders[at + Excuse::SIZE] == row[1] {
        orders[at + Excuse::STANDS] = 0;
    }
}

// "worse than its price or absent on that side"
#[tactic(auto, using(crate::proofs::Words::backs_laws))]
fn backs_away(side: u32, price: u32, bid: u32, offer: u32) -> bool
    requires { 1 ≤ price }
    ensures { result ≡ backed side price bid offer }
{
    if side == Way::BUY {
        offer == 0 || price < offer
    } else {
        bid < price
    }
}

#[tactic(auto, using(crate::proofs::Words::outlives_laws))]
fn outlives(orders: &[u32; Orders::WORDS], m: usize, bid: u32, offer: u32) -> bool
    requires { (m < most_sent_orders) × (1 ≤ get_or orders.now (m * 8 + 4) 0) }
    ensures { result ≡ outlived (get_or orders.now (m * 8 + 7) 0) (get_or orders.now (m * 8 + 3) 0) (get_or orders.now (m * 8 + 4) 0) bid offer }
{
    let at = m * 8;
    let stands = orders[at + Excuse::STANDS] == 1;
    stands
        && !backs_away(
            orders[at + Excuse::SIDE],
            orders[at + Excuse::PRICE],
            bid,
            offer,
        )
}

// A quote ends the excuses that it backs away from. Orders whose excuse has ended leave the chain, so that no later quote or
// trade looks at them again.
pub fn quoted(
    orders: &mut [u32; Orders::WORDS],
    chains: &mut [u32; Chain::WORDS],
    sent: usize,
    r: Rec,
)
    requires kind_value { r.kind ≡ quote_kind }
    requires quote_ok { QuoteOk most_exchanges r }
    requires chains { Chains orders.old chains.old sent }
    ensures { ExcusesStep r orders.old sent orders.new chains.new sent }
{
    let row = r.row;
    let bid = row[2];
    let offer = row[5];
    let mut last = quotes::row_of(row[0] as usize, row[1] as usize);
    let mut i = chains[last] as usize;
    while let Some(m) = i.checked_sub(1) {
        let next = chains[Chain::HEADS + m];
        i = next as usize;
        if outlives(orders, m, bid, offer) {
            last = Chain::HEADS + m;
            continue;
        }
        orders[m * 8 + Excuse::STANDS] = 0;
        chains[last] = next;
    }
}

// One record of any kind: a sent order, a response or a quote; the others change nothing here.
pub fn keep_excuses(
    orders: &mut [u32; Orders::WORDS],
    chains: &mut [u32; Chain::WORDS],
    sent: usize,
    r: Rec,
) -> usize
    requires fits_orders { FitsOrders r sent }
    requires chains { Chains orders.old chains.old sent }
    ensures { ExcusesStep r orders.old sent orders.new chains.new result }
{
    match r.kind {
        Rec::QUOTE => {
            quoted(orders, chains, sent, r);
            sent
        }
        Rec::SENT => keep_sent(orders, chains, sent, r),
        Rec::RESPONSE => {
            answered(orders, sent, r);
            sent
        }
        _ => sent,
    }
}

// "more than 20,000 ms before the trade", and the excuse stands
#[tactic(auto, using(crate::proofs::Words::excusing_laws))]
fn still_excuses(orders: &[u32; Orders::WORDS], m: usize, side: u32, time: u32) -> bool
    requires { m < most_sent_orders }
    ensures { result ≡ excusing (get_or orders.now (m * 8 + 3) 0) (get_or orders.now (m * 8 + 6) 0) (get_or orders.now (m * 8 + 7) 0) side time }
{
    let at = m * 8;
    orders[at + Excuse::SIDE] == side
        && orders[at + Excuse::STANDS] == 1
        && u64::from(orders[at + Excuse::TIME]) + Excuse::WAIT < u64::from(time)
}

// "home had sent the sender an order in the series (sell for a bid, buy for an offer) more than 20,000 ms before the trade, and
// up to the trade it was neither filled in full nor followed by a quote .. worse than its price or absent on that side": the newest
// such order.
pub fn excuser(
    orders: &[u32; Orders::WORDS],
    chains: &[u32; Chain::WORDS],
    sent: usize,
    exchange: usize,
    series: usize,
    side: u32,
    time: u32,
) -> Option<usize>
    requires within { Within exchange series }
    requires chains { Chains orders.now chains.now sent }
    ensures { ExcuserIs orders.now sent exchange series side time result }
{
    let mut i = chains[quotes::row_of(exchange, series)] as usize;
    while let Some(m) = i.checked_sub(1) {
        if still_excuses(orders, m, side, time) {
            return Some(m);
        }
        i = chains[Chain::HEADS + m] as usize;
    }
    None
}
