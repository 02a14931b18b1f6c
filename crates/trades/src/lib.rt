// Trades: what is kept of each, so that its later Satisfaction Orders are judged by the prices, customer contracts and statuses at the trade.
#![tactic(auto)]

ghost use Rattle.std.specs.Prelude.{◌≡◌, ◌+◌, ◌*◌, ◌<◌, ◌≤◌};
ghost use Rattle.rules.specs.Limits.{most_exchanges, most_trades};
ghost use Rattle.quotes.specs.Tables.{many_series, Within};
ghost use Rattle.orders.specs.Orders.{Headed};
ghost use Rattle.excuses.specs.Excuses.{Chains};
ghost use Rattle.trades.specs.Trades.{price_on, customers_on, excusing_side, caps, ExcuseIs, Snapped, Snaps, CapIs, FitsTrades, TradesStep};

use counted::{Counts, Trade};
use excuses::{Chain, Orders};
use limits::{Exchanges, FirmSize};
use prices::Side;
use quotes::{Quote, Quotes, Statuses};
use rows::{Rec, Seat, Way};

// What is kept of a trade, the words of its row.
#[derive(Drop)]
pub struct Kept;

impl Kept {
    pub const PRICE: usize = 0;

    pub const SIZE: usize = 1;

    pub const BLOCK: usize = 2;

    pub const COMPLEX: usize = 3;

    pub const INITIATOR: usize = 4;

    // "Report = trade time plus delay."
    pub const REPORT: usize = 5;

    // Whether its due total is capped.
    pub const CAPPED: usize = 6;

    // Whether the closing window had begun.
    pub const CLOSING: usize = 7;
}

// What is kept of an exchange at a trade: the side traded through, the price and the customer contracts there, its status,
// which sent order excuses home, the trade's series.
#[derive(Drop)]
pub struct Snap;

impl Snap {
    pub const SIDE: usize = 0;

    pub const PRICE: usize = 1;

    pub const CUSTOMERS: usize = 2;

    pub const STATUS: usize = 3;

    // One above the number of the sent order that excuses home, 0 where none does: an Option as a word.
    pub const EXCUSER: usize = 4;

    // For a clerk, and no verdict looks at it.
    pub const SERIES: usize = 5;
}

// The table of trades: a row of eight words for each.
#[derive(Drop)]
pub struct Trades;

impl Trades {
    pub const WORDS: usize = Trade::MOST * 8;
}

// What each exchange showed at each trade: a row of eight words for each of both.
#[derive(Drop)]
pub struct Shown;

impl Shown {
    pub const WORDS: usize = Trade::MOST * Exchanges::MOST as usize * 8;
}

#[tactic(auto, using(crate::proofs::Words::word_laws))]
fn price_on(side: u32, bid: u32, offer: u32) -> u32
    ensures { result ≡ price_on side bid offer }
{
    if side == Side::BID { bid } else { offer }
}

#[tactic(auto, using(crate::proofs::Words::word_laws))]
fn customers_on(side: u32, bids: u32, offers: u32) -> u32
    ensures { result ≡ customers_on side bids offers }
{
    match side {
        Side::NEITHER => 0,
        Side::BID => bids,
        _ => offers,
    }
}

// "sell for a bid, buy for an offer"
#[tactic(auto, using(crate::proofs::Words::word_laws))]
fn excusing_side(side: u32) -> u32
    ensures { result ≡ excusing_side side }
{
    if side == Side::BID {
        Way::SELL
    } else {
        Way::BUY
    }
}

// What excuses home at an exchange, asked only where the trade went through it.
fn excuse(
    orders: &[u32; Orders::WORDS],
    chains: &[u32; Chain::WORDS],
    sent: usize,
    side: u32,
    exchange: usize,
    series: usize,
    time: u32,
) -> u32
    requires within { Within exchange series }
    requires chains { Chains orders.now chains.now sent }
    ensures { ExcuseIs orders.now sent side exchange series time result }
{
    if side == Side::NEITHER {
        return 0;
    }
    let way = excusing_side(side);
    match excuses::excuser(orders, chains, sent, exchange, series, way, time) {
        Some(order) => (order + 1) as u32,
        None => 0,
    }
}

// What is kept of exchange y + 1 at a trade.
fn snap_row(
    quotes: &[u32; Quotes::WORDS],
    statuses: &[u32; Statuses::WORDS],
    orders: &[u32; Orders::WORDS],
    chains: &[u32; Chain::WORDS],
    sent: usize,
    y: usize,
    series: usize,
    price: u32,
    time: u32,
) -> [u32; 8]
    requires y_lt_most_exchanges { (y < most_exchanges) × (series < many_series) }
    requires chains { Chains orders.now chains.now sent }
    ensures { Snapped quotes.now statuses.now orders.now sent y series price time result }
{
    let at = quotes::row_of(y + 1, series) * 8;
    let bid = quotes[at + Quote::BID];
    let offer = quotes[at + Quote::OFFER];
    let side = through::through_side(bid, offer, price);
    [
        side,
        price_on(side, bid, offer),
        customers_on(
            side,
            quotes[at + Quote::BID_CUSTOMERS],
            quotes[at + Quote::OFFER_CUSTOMERS],
        ),
        statuses[y],
        excuse(orders, chains, sent, side, y + 1, series, time),
        series as u32,
        0,
        0,
    ]
}

// What is kept of every exchange at trade n.
fn keep_snaps(
    shown: &mut [u32; Shown::WORDS],
    n: usize,
    exchanges: usize,
    quotes: &[u32; Quotes::WORDS],
    statuses: &[u32; Statuses::WORDS],
    orders: &[u32; Orders::WORDS],
    chains: &[u32; Chain::WORDS],
    sent: usize,
    series: usize,
    price: u32,
    time: u32,
)
    requires n_lt_most_trades { (n < most_trades) × (exchanges ≤ most_exchanges) × (series < many_series) }
    requires chains { Chains orders.now chains.now sent }
    ensures { Snaps quotes.now statuses.now orders.now sent n series price time shown.old shown.new exchanges }
{
    for y in 0..exchanges {
        let row = snap_row(
            quotes, statuses, orders, chains, sent, y, series, price, time,
        );
        rows::put_row(shown, n * 8 + y, row);
    }
}

// Whether an exchange, traded through on a side or not, caps the due total: "larger than the customer firm size (the lesser of
// home's automatic size and the other's)".
#[tactic(auto, using(crate::proofs::Words::word_laws))]
fn caps_trade(exchange: usize, home: usize, side: u32, size: u32, ours: u32, theirs: u32) -> bool
    ensures { result ≡ caps exchange home side size ours theirs }
{
    exchange != home && side != Side::NEITHER && ours.min(theirs) < size
}

// "If the trade is larger than the customer firm size .. with any exchange traded through, asked or not".
fn is_capped(
    shown: &[u32; Shown::WORDS],
    n: usize,
    home: usize,
    exchanges: usize,
    sizes: &[u32; FirmSize::WORDS],
    size: u32,
) -> bool
    requires n_lt_most_trades { n < most_trades }
    requires headed { Headed exchanges home }
    ensures { CapIs shown.now n home exchanges sizes.now size result }
{
    let ours = sizes[(home - 1) * 2];
    for y in 0..exchanges {
        let side = shown[(n * 8 + y) * 8 + Snap::SIDE];
        if caps_trade(y + 1, home, side, size, ours, sizes[y * 2]) {
            return true;
        }
    }
    false
}

// One record of any kind; only a trade, found to be a block or not, in the closing window or before it, changes anything here.
pub fn keep_trade(
    trades: &mut [u32; Trades::WORDS],
    shown: &mut [u32; Shown::WORDS],
    counts: Counts,
    seat: Seat,
    sizes: &[u32; FirmSize::WORDS],
    quotes: &[u32; Quotes::WORDS],
    statuses: &[u32; Statuses::WORDS],
    orders: &[u32; Orders::WORDS],
    chains: &[u32; Chain::WORDS],
    block: bool,
    r: Rec,
) -> usize
    requires trades_le_most_trades { counts.trades ≤ most_trades }
    requires fits_trades { FitsTrades r counts.trades }
    requires headed { Headed seat.exchanges seat.home }
    requires chains { Chains orders.now chains.now counts.orders }
    ensures { TradesStep r seat.home seat.exchanges sizes.now block counts.closing quotes.now statuses.now orders.now counts.orders trades.old shown.old counts.trades trades.new shown.new result }
{
    let n = counts.trades;
    if r.kind != Rec::TRADE {
        return n;
    }
    let sent = counts.orders;
    let row = r.row;
    let time = r.time;
    let series = row[0] as usize;
    keep_snaps(
        shown,
        n,
        seat.exchanges,
        quotes,
        statuses,
        orders,
        chains,
        sent,
        series,
        row[1],
        time,
    );
    let capped = u32::from(is_capped(shown, n, seat.home, seat.exchanges, sizes, row[2]));
    let found = u32::from(block);
    let begun = u32::from(counts.closing);
    let report = time + row[6];
    let kept = [row[1], row[2], found, row[4], row[5], report, capped, begun];
    rows::put_row(trades, n, kept);
    n + 1
}
