// The verdicts on a trade: which away exchanges it trades through, and whether it is a block.
#![tactic(auto)]

ghost use Rattle.std.specs.Prelude.{◌≡◌, ◌*◌, ◌≤◌, ◌<◌};
ghost use Rattle.rules.specs.Limits.{most_exchanges};
ghost use Rattle.quotes.specs.Tables.{many_series};
ghost use Rattle.through.specs.Trades.{through_of, through_in, form_of, large_of, TradeIs, CountIs, BlockIs, TradePlaced, BlockFound};

use prices::Side;
use quotes::{Quote, Quotes};
use rows::{Form, Rec};

// What a trade's verdicts look at.
#[derive(Clone, Copy)]
pub struct Trade {
    pub series: usize,
    pub price: u32,
    pub size: u32,
    pub form: u32,
}

#[derive(Drop)]
pub struct Block;

impl Block {
    pub const LEAST_CONTRACTS: u32 = 500;

    // Price in cents times contracts.
    pub const LEAST_VALUE: u64 = 150000;
}

pub fn trade_of(r: Rec) -> Trade
    ensures { TradeIs r result }
{
    let row = r.row;
    Trade {
        series: row[0] as usize,
        price: row[1],
        size: row[2],
        form: row[3],
    }
}

// "An away exchange is traded through if its bid is above the price or its offer below it."
#[tactic(auto, unfolding(crate::specs::Trades::through_of, rules::specs::Basics::first_of, prices::specs::Prices::above_of))]
pub fn through_side(bid: u32, offer: u32, price: u32) -> u32
    ensures { result ≡ through_of bid offer price }
{
    if prices::is_above(bid, price) {
        Side::BID
    } else if prices::is_above(price, offer) {
        Side::OFFER
    } else {
        Side::NEITHER
    }
}

// Whether the exchange of row y is an away exchange that is traded through.
fn is_through(quotes: &[u32; Quotes::WORDS], home: usize, trade: Trade, y: usize) -> bool
    requires { (y < most_exchanges) × (trade.series < many_series) }
    ensures { result ≡ through_in quotes.now home trade y }
{
    let k = prices::place(y, trade.series);
    let side = through_side(
        quotes[k + Quote::BID],
        quotes[k + Quote::OFFER],
        trade.price,
    );
    y + 1 != home && side != Side::NEITHER
}

// How many away exchanges are traded through.
pub fn count_through(
    quotes: &[u32; Quotes::WORDS],
    exchanges: usize,
    home: usize,
    trade: Trade,
) -> usize
    requires { (exchanges ≤ most_exchanges) × (trade.series < many_series) }
    ensures { CountIs quotes.now exchanges home trade result }
{
    (0..exchanges)
        .filter(|y| is_through(quotes, home, trade, *y))
        .count()
}

fn value(price: u32, size: u32) -> u64
    ensures { result ≡ price * size }
{
    u64::from(price) * u64::from(size)
}

#[tactic(auto, unfolding(crate::specs::Trades::form_of))]
fn block_form(form: u32) -> bool
    ensures { result ≡ form_of form }
{
    form == Form::CROSS || form == Form::OTHER
}

// What can be told of a trade alone. The best prices come last: they take a walk over all exchanges.
fn is_large(trade: Trade) -> bool
    ensures { result ≡ large_of trade }
{
    trade.size >= Block::LEAST_CONTRACTS
        && value(trade.price, trade.size) >= Block::LEAST_VALUE
        && block_form(trade.form)
}

#[tactic(auto, using(crate::proofs::TradeVerdicts::trade_laws))]
pub fn is_block(quotes: &[u32; Quotes::WORDS], exchanges: usize, trade: Trade) -> bool
    requires { (exchanges ≤ most_exchanges) × (trade.series < many_series) }
    ensures { BlockIs quotes.now exchanges trade result }
{
    if !is_large(trade) {
        return false;
    }
    let bid = prices::best_bid(quotes, exchanges, trade.series);
    prices::is_above(bid, trade.price)
        || prices::is_above(
            trade.price,
            prices::best_offer(quotes, exchanges, trade.series),
        )
}

// Whether a record of any kind is a block trade.
#[tactic(auto, using(crate::proofs::TradeVerdicts::trade_laws))]
pub fn found_block(quotes: &[u32; Quotes::WORDS], exchanges: usize, r: Rec) -> bool
    requires { (exchanges ≤ most_exchanges) × TradePlaced r }
    ensures { BlockFound quotes.now exchanges r result }
{
    r.kind == Rec::TRADE && is_block(quotes, exchanges, trade_of(r))
}
