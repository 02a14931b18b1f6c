// The day's list of verdicts, kept as rows while the journal is walked: a refusal writes nothing to lent memory, and what is
// printed of a Satisfaction Order is known only when the whole journal is. `printed` prints it then.
#![tactic(auto)]

ghost use Rattle.std.specs.Prelude.{◌≡◌, ◌+◌, ◌*◌, ◌≤◌, length};
ghost use Rattle.rules.specs.Limits.{most_trades, most_sent_orders, most_satisfaction_orders};
ghost use Rattle.rules.specs.Record.{quote_kind};
ghost use Rattle.rows.specs.Rows.{RecOk};
ghost use Rattle.orders.specs.Orders.{Headed};
ghost use Rattle.periods.specs.Periods.{Tidy};
ghost use Rattle.list.specs.Listing.{most_records, RowPut, JudgedPut, Noted, QuoteNoted};

use counted::Counts;
use limits::FirmSize;
use market::Judged;
use periods::Period;
use quotes::{Quotes, Statuses};
use rows::{Rec, Seat};
use text::What;

// A line to be printed, as five words of the list, which is lent fixed memory. Of a Satisfaction Order A is the number of its line in our own sheet.
#[derive(Drop)]
pub struct Row;

impl Row {
    pub const EVENT: usize = 0;

    pub const WHAT: usize = 1;

    pub const A: usize = 2;

    pub const B: usize = 3;

    pub const C: usize = 4;

    pub const WORDS: usize = 5;

    // No journal has as many lines: each is told by an event that is stored as six numbers at least.
    pub const MOST: usize = 5462;
}

fn put_shown(list: &mut [u32], listed: usize, event: u32, what: u8, a: u32, b: u32, c: u32) -> usize
    requires { listed * 5 + 5 ≤ length list.old }
    ensures { RowPut list.old listed event what a b c list.new result }
{
    let at = listed * Row::WORDS;
    list[at + Row::EVENT] = event;
    list[at + Row::WHAT] = u32::from(what);
    list[at + Row::A] = a;
    list[at + Row::B] = b;
    list[at + Row::C] = c;
    listed + 1
}

fn put_judged(list: &mut [u32], listed: usize, event: u32, v: Judged) -> usize
    requires { listed * 5 + 5 ≤ length list.old }
    ensures { JudgedPut list.old listed event v list.new result }
{
    match v {
        Judged::Nothing => listed,
        Judged::Q(a, b, c) => put_shown(list, listed, event, What::QUOTE, a, b, c),
        Judged::S(a, b, c) => put_shown(list, listed, event, What::SENT, a, b, c),
        Judged::R(a, b, c) => put_shown(list, listed, event, What::RECEIVED, a, b, c),
        Judged::T(a, b, c) => put_shown(list, listed, event, What::TRADE, a, b, c),
    }
}

// A quote; away quotes print nothing.
pub fn note_quote(
    list: &mut [u32],
    listed: usize,
    quotes: &[u32; Quotes::WORDS],
    periods: &mut [u32; Period::WORDS],
    seat: Seat,
    event: usize,
    r: Rec,
) -> usize
    requires headed { Headed seat.exchanges seat.home × RecOk seat.exchanges seat.home r }
    requires kind_value { (r.kind ≡ quote_kind) × (listed ≤ most_records) × (event ≤ most_records) × Tidy periods.old }
    ensures { QuoteNoted list.old listed quotes.now periods.old seat.exchanges seat.home event r list.new periods.new result }
{
    if !home::is_home(r, seat.home) {
        return listed;
    }
    if list.len() < (listed + 1) * Row::WORDS {
        return listed;
    }
    let record = event as u32;
    let v = market::judge_quote(quotes, periods, seat.exchanges, seat.home, r);
    put_judged(list, listed, record, v)
}

// One event of any kind; `before` counts what came before it, and `event` the records before its own. Where the list has no room nothing is
// judged, and no period kept: a walk that wants no list lends an empty one.
pub fn note(
    list: &mut [u32],
    listed: usize,
    quotes: &[u32; Quotes::WORDS],
    statuses: &[u32; Statuses::WORDS],
    periods: &mut [u32; Period::WORDS],
    seat: Seat,
    sizes: &[u32; FirmSize::WORDS],
    before: Counts,
    event: usize,
    r: Rec,
) -> usize
    requires headed { Headed seat.exchanges seat.home × RecOk seat.exchanges seat.home r }
    requires orders_le_most_sent_orders { (before.orders ≤ most_sent_orders) × (before.trades ≤ most_trades) × (before.satisfactions ≤ most_satisfaction_orders) }
    requires listed_le_most_records { (listed ≤ most_records) × (event ≤ most_records) × Tidy periods.old }
    ensures { Noted list.old listed quotes.now statuses.now periods.old seat.exchanges seat.home sizes.now before.orders before.trades before.satisfactions event r list.new periods.new result }
{
    if list.len() < (listed + 1) * Row::WORDS {
        return listed;
    }
    let number = event as u32;
    if r.kind == Rec::SATISFACTION {
        let line = before.satisfactions as u32;
        return put_shown(list, listed, number, What::SATISFACTION, line, 0, 0);
    }
    let v = market::judge(
        quotes,
        statuses,
        periods,
        seat.exchanges,
        seat.home,
        sizes,
        before.orders,
        before.trades,
        r,
    );
    put_judged(list, listed, number, v)
}
