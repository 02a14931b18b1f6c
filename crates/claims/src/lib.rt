// The table of Satisfaction Orders: each filed with its reason and its claim under its trade, and what is due to a trade.
#![tactic(auto)]

ghost use Rattle.std.specs.Prelude.{◌≡◌, ◌+◌, ◌<◌, ◌≤◌, length};
ghost use Rattle.rules.specs.Limits.{most_exchanges, most_trades, most_trade_lines, last_time};
ghost use Rattle.rules.specs.Record.{satisfaction_kind};
ghost use Rattle.orders.specs.Orders.{Headed};
ghost use Rattle.claims.specs.Facts.{facts_of};
ghost use Rattle.claims.specs.Lines.{many_of, Filing, Fileable, Filed, Cancellable, cancelled_in, Withdrawable, withdrawn_in, FitsClaims, ClaimsStep, Findable, ManyIs, NumberIs, Gathered, DueIs};

use counted::{SatisfactionOrder, Trade};
use fairness::Portion;
use limits::Exchanges;
use reasons::{Facts, Reason};
use rows::{Rec, Seat, TradeLines};
use trades::{Kept, Shown, Snap, Trades};

// What is kept of a Satisfaction Order: the row of its number. Behind these rows each trade has a part: the numbers of its lines in
// their order, how many they are, and the sum of their claims.
#[derive(Drop)]
pub struct Line;

impl Line {
    pub const TRADE: usize = 0;

    pub const SIZE: usize = 1;

    pub const REASON: usize = 2;

    pub const CUSTOMERS: usize = 3;

    pub const CLAIM: usize = 4;

    // The order's sender. Its own price is for a clerk, and no verdict looks at it here.
    pub const SENDER: usize = 5;

    pub const ASKED: usize = 6;

    // When it came.
    pub const TIME: usize = 7;

    // Where the trades' parts begin.
    pub const TRADES: usize = SatisfactionOrder::MOST * 8;

    // In a part, behind the numbers: how many lines there are, and the sum of their claims.
    pub const MANY: usize = TradeLines::MOST;

    pub const SUM: usize = Line::MANY + 1;

    pub const PART: usize = Line::SUM + 1;

    // Behind the parts, for each trade and exchange: one above the time at which the exchange's claim was cancelled so that it may send
    // again, 0 where it was not.
    pub const AGAIN: usize = Line::TRADES + Trade::MOST * Line::PART;

    // The whole table.
    pub const WORDS: usize = Line::AGAIN + Trade::MOST * Exchanges::MOST as usize;
}

// What an order of exchange y + 1 for trade m is judged by.
#[tactic(auto, unfolding(crate::specs::Facts::facts_of))]
fn facts_at(
    trades: &[u32; Trades::WORDS],
    shown: &[u32; Shown::WORDS],
    m: usize,
    y: usize,
    home: usize,
    close: u32,
    asked: u32,
    time: u32,
    again: u32,
) -> Facts
    requires { (m < most_trades) × (y < most_exchanges) × (1 ≤ home) × (home ≤ most_exchanges) }
    ensures { result ≡ facts_of trades.now shown.now m y home close asked time again }
{
    let of = m * 8;
    let at = (m * 8 + y) * 8;
    Facts {
        side: shown[at + Snap::SIDE],
        there: shown[at + Snap::PRICE],
        customers: shown[at + Snap::CUSTOMERS],
        status: shown[at + Snap::STATUS],
        excuser: shown[at + Snap::EXCUSER],
        home: shown[(m * 8 + (home - 1)) * 8 + Snap::STATUS],
        price: trades[of + Kept::PRICE],
        block: trades[of + Kept::BLOCK],
        complex: trades[of + Kept::COMPLEX],
        initiator: trades[of + Kept::INITIATOR],
        report: trades[of + Kept::REPORT],
        close,
        asked,
        time,
        again,
    }
}

// A line is filed under its number and under its trade.
fn file_line(claims: &mut [u32; Line::WORDS], n: usize, m: usize, row: [u32; 8])
    requires { Fileable claims.old row n m }
    ensures { Filed claims.old claims.new row n m }
{
    let part = Line::TRADES + m * Line::PART;
    let many = claims[part + Line::MANY];
    let sum = claims[part + Line::SUM];
    rows::put_row(claims, n, row);
    claims[part + many as usize] = n as u32;
    claims[part + Line::MANY] = many + 1;
    claims[part + Line::SUM] = sum + row[Line::CLAIM];
}

// "A cancellation in time makes reason 14 .. with claim 0; a late one cancels and changes nothing." A line with a reason judged before 14
// has no claim to lose.
#[tactic(auto, using(crate::proofs::Cancelling::cancel_laws))]
fn cancel_line(claims: &mut [u32; Line::WORDS], n: usize, close: u32, time: u32)
    requires { Cancellable claims.old n }
    ensures { claims.new ≡ cancelled_in claims.old n close time }
{
    let at = n * 8;
    if !reasons::in_time(claims[at + Line::TIME], close, time) {
        return;
    }
    let sum = Line::TRADES + claims[at + Line::TRADE] as usize * Line::PART + Line::SUM;
    let left = claims[sum] - claims[at + Line::CLAIM];
    let why = reasons::named(claims[at + Line::REASON]);
    claims[sum] = left;
    claims[at + Line::REASON] = why;
    claims[at + Line::CLAIM] = 0;
}

// "A claim's record must now remember its cancellation time": what the second is judged by. "The first keeps the reason it has".
#[tactic(auto, using(crate::proofs::Withdrawing::withdraw_laws))]
fn keep_cancellation(claims: &mut [u32; Line::WORDS], n: usize, time: u32)
    requires { Withdrawable claims.old n × (time ≤ last_time) }
    ensures { claims.new ≡ withdrawn_in claims.old n time }
{
    let at = n * 8;
    let m = claims[at + Line::TRADE] as usize;
    let y = claims[at + Line::SENDER] as usize - 1;
    claims[Line::AGAIN + (m * 8 + y)] = time + 1;
}

// A Satisfaction Order, numbered by the lines before it, judged as it comes by what its trade kept.
fn keep_order(
    claims: &mut [u32; Line::WORDS],
    trades: &[u32; Trades::WORDS],
    shown: &[u32; Shown::WORDS],
    lines: usize,
    traded: usize,
    seat: Seat,
    r: Rec,
)
    requires traded_le_most_trades { (traded ≤ most_trades) × (r.kind ≡ satisfaction_kind) }
    requires headed { Headed seat.exchanges seat.home }
    requires fits_claims { FitsClaims r claims.old traded seat.exchanges lines }
    requires filing { Filing claims.old lines }
    ensures { ClaimsStep r seat.home seat.exchanges seat.close trades.now shown.now traded claims.old lines claims.new (lines + 1) }
{
    let row = r.row;
    let m = row[0] as usize;
    let y = row[1] as usize - 1;
    let time = r.time;
    let again = claims[Line::AGAIN + (m * 8 + y)];
    let facts = facts_at(
        trades, shown, m, y, seat.home, seat.close, row[2], time, again,
    );
    let customers = facts.customers;
    let why = Reason::stored(reasons::reason_of(facts));
    let trade_size = trades[m * 8 + Kept::SIZE];
    let claim = reasons::claim_of(
        why,
        row[3],
        customers,
        trade_size,
        trades[m * 8 + Kept::CLOSING],
    );
    let line = [row[0], row[3], why, customers, claim, row[1], row[2], time];
    file_line(claims, lines, m, line);
}

// One record of any kind; only a Satisfaction Order and a record that cancels one change anything here.
pub fn keep_claim(
    claims: &mut [u32; Line::WORDS],
    trades: &[u32; Trades::WORDS],
    shown: &[u32; Shown::WORDS],
    lines: usize,
    traded: usize,
    seat: Seat,
    r: Rec,
) -> usize
    requires traded_le_most_trades { traded ≤ most_trades }
    requires headed { Headed seat.exchanges seat.home }
    requires fits_claims { FitsClaims r claims.old traded seat.exchanges lines }
    requires filing { Filing claims.old lines }
    ensures { ClaimsStep r seat.home seat.exchanges seat.close trades.now shown.now traded claims.old lines claims.new result }
{
    match r.kind {
        Rec::SATISFACTION => {
            keep_order(claims, trades, shown, lines, traded, seat, r);
            lines + 1
        }
        Rec::NAMING => {
            cancel_line(claims, r.row[0] as usize, seat.close, r.time);
            lines
        }
        Rec::CANCELLATION => {
            keep_cancellation(claims, r.row[0] as usize, r.time);
            lines
        }
        _ => lines,
    }
}

// How many lines trade m has.
#[tactic(auto, using(crate::proofs::TradeLines::gather_laws))]
pub fn lines_of(claims: &[u32; Line::WORDS], m: usize) -> usize
    requires { Findable claims.now m }
    ensures { ManyIs claims.now m result }
{
    claims[Line::TRADES + m * Line::PART + Line::MANY] as usize
}

// The number of line i of trade m.
pub fn line_of(claims: &[u32; Line::WORDS], m: usize, i: usize) -> usize
    requires findable { Findable claims.now m }
    requires i_bound { i < many_of claims.now m }
    ensures { NumberIs claims.now m i result }
{
    claims[Line::TRADES + m * Line::PART + i] as usize
}

// The claims and the customer contracts of trade m's lines, in their order.
pub fn gather(
    claims: &[u32; Line::WORDS],
    m: usize,
    portions: &mut [Portion; TradeLines::MOST],
) -> usize
    requires findable { Findable claims.now m }
    requires portions_len { length portions.old ≡ most_trade_lines }
    ensures { Gathered claims.now m portions.new result }
{
    let k = lines_of(claims, m);
    for i in 0..k {
        let line = line_of(claims, m, i);
        portions[i] = Portion {
            claim: claims[line * 8 + Line::CLAIM],
            customers: claims[line * 8 + Line::CUSTOMERS],
            filled: 0,
        };
    }
    k
}

// "the lesser of trade size and the sum of claims; else the sum of claims"
#[tactic(auto, using(crate::proofs::Due::due_laws))]
pub fn due_total(claims: &[u32; Line::WORDS], trades: &[u32; Trades::WORDS], m: usize) -> u32
    requires { m < most_trades }
    ensures { DueIs claims.now trades.now m result }
{
    let sum = claims[Line::TRADES + m * Line::PART + Line::SUM];
    if trades[m * 8 + Kept::CAPPED] == 1 {
        trades[m * 8 + Kept::SIZE].min(sum)
    } else {
        sum
    }
}
