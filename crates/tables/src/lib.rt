// All tables of a day's events, and one record more: quotes and statuses as they stand, sent orders, trades, Satisfaction Orders.
#![tactic(auto)]

ghost use Rattle.orders.specs.Orders.{Headed};
ghost use Rattle.tables.specs.Tables.{tables, Orderly, FitsTables, TablesStep};

use claims::Line;
use counted::Counts;
use excuses::{Chain, Orders};
use limits::FirmSize;
use quotes::{Quotes, Statuses};
use rows::{Rec, Seat};
use trades::{Shown, Trades};

// Each step is lent the tables of the moment before the record, as its contract asks: so a Satisfaction Order comes before trades
// are kept, and a trade before sent orders, quotes and statuses are. The tables would be the same in any order after
// `found_block`: a record has one kind, and no step writes for it what another reads. `counts` are those before this record. The
// answer: whether it is a block trade.
pub fn keep(
    quotes: &mut [u32; Quotes::WORDS],
    statuses: &mut [u32; Statuses::WORDS],
    orders: &mut [u32; Orders::WORDS],
    chains: &mut [u32; Chain::WORDS],
    trades: &mut [u32; Trades::WORDS],
    shown: &mut [u32; Shown::WORDS],
    claims: &mut [u32; Line::WORDS],
    counts: Counts,
    seat: Seat,
    sizes: &[u32; FirmSize::WORDS],
    r: Rec,
) -> bool
    requires headed { Headed seat.exchanges seat.home }
    requires fits_tables { FitsTables r claims.old seat.exchanges counts.orders counts.trades counts.satisfactions }
    requires orderly { Orderly (tables quotes.old statuses.old orders.old chains.old trades.old shown.old claims.old) counts.orders counts.trades counts.satisfactions }
    ensures { TablesStep r seat sizes.now (tables quotes.old statuses.old orders.old chains.old trades.old shown.old claims.old) counts (tables quotes.new statuses.new orders.new chains.new trades.new shown.new claims.new) result }
{
    let block = through::found_block(quotes, seat.exchanges, r);
    claims::keep_claim(
        claims,
        trades,
        shown,
        counts.satisfactions,
        counts.trades,
        seat,
        r,
    );
    trades::keep_trade(
        trades, shown, counts, seat, sizes, quotes, statuses, orders, chains, block, r,
    );
    excuses::keep_excuses(orders, chains, counts.orders, r);
    quotes::keep_quote(quotes, r);
    quotes::keep_status(statuses, r);
    block
}
