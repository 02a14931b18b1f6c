// Received orders. A principal order that home had to execute whole, the initial execution, begins a period for its sender:
// further ones have no duty for 15 seconds, and up to a minute are answered at least in part.
#![tactic(auto)]

ghost use Rattle.std.specs.Prelude.{◌*◌, ◌≤◌, ◌<◌, length, ◌≡◌};
ghost use Rattle.rules.specs.Limits.{most_exchanges};
ghost use Rattle.rules.specs.Record.{received_kind};
ghost use Rattle.rows.specs.Rows.{RecOk};
ghost use Rattle.quotes.specs.Tables.{many_series};
ghost use Rattle.orders.specs.Orders.{Headed};
ghost use Rattle.periods.specs.Periods.{period_words, Tidy, BestThereIs, SoonIs, LimitedIs, OwedIs, initial_of, shown_by, Marked, Requoted, InPeriod, ReceivedIs};

use limits::{Exchanges, FirmSize};
use orders::{Duty, Order, Reason};
use quotes::{Quote, Quotes, Statuses};
use rows::{Rec, Type, Way};

// What stands for each exchange: a row of eight words, empty until its first initial execution.
#[derive(Drop)]
pub struct Period;

impl Period {
    // 1 once a period has begun.
    pub const BEGUN: usize = 0;

    // Of the initial execution.
    pub const TIME: usize = 1;

    pub const SERIES: usize = 2;

    pub const SIDE: usize = 3;

    // Home's price on that side then.
    pub const PRICE: usize = 4;

    // 1 once a later home quote gave another price there, or none.
    pub const REQUOTED: usize = 5;

    pub const ROW: usize = 8;

    // A row for each exchange.
    pub const ROWS: usize = Exchanges::MOST as usize;

    pub const WORDS: usize = Period::ROWS * Period::ROW;

    // "no duty for 15 seconds, up to and including 15,000 ms"
    pub const NO_DUTY_FOR: u64 = 15000;

    // "up to and including 60,000 ms"
    pub const LASTS: u64 = 60000;
}

// "a price stands there now that is the best"
#[tactic(auto, using(crate::proofs::Judging::period_laws))]
fn best_there(
    quotes: &[u32; Quotes::WORDS],
    exchanges: usize,
    home: usize,
    series: usize,
    side: u32,
) -> bool
    requires { Headed exchanges home × (series < many_series) }
    ensures { BestThereIs quotes.now exchanges home series side result }
{
    let ours = orders::shown_price(quotes, home, series, side);
    prices::is_equal(ours, orders::best_price(quotes, exchanges, series, side))
}

// "further principal orders from the same sender .. have no duty for 15 seconds"; "The exception: a later home quote .., and a price
// stands there now that is the best"
#[tactic(auto, using(crate::proofs::Judging::period_laws))]
fn too_soon(
    periods: &[u32; Period::WORDS],
    quotes: &[u32; Quotes::WORDS],
    exchanges: usize,
    home: usize,
    from: usize,
    time: u32,
) -> bool
    requires headed { Headed exchanges home × ((1 ≤ from) × (from ≤ exchanges)) }
    requires tidy { Tidy periods.now }
    ensures { SoonIs periods.now quotes.now exchanges home from time result }
{
    let at = (from - 1) * Period::ROW;
    if periods[at + Period::BEGUN] == 0
        || u64::from(periods[at + Period::TIME]) + Period::NO_DUTY_FOR < u64::from(time)
    {
        return false;
    }
    let series = periods[at + Period::SERIES] as usize;
    periods[at + Period::REQUOTED] == 0
        || !best_there(quotes, exchanges, home, series, periods[at + Period::SIDE])
}

// "After the 15 seconds, up to and including 60,000 ms and only while no such later quote has come, best or not"
#[tactic(auto, using(crate::proofs::Judging::period_laws))]
fn still_limited(periods: &[u32; Period::WORDS], from: usize, time: u32) -> bool
    requires { (1 ≤ from) × (from ≤ most_exchanges) }
    ensures { LimitedIs periods.now from time result }
{
    let at = (from - 1) * Period::ROW;
    if periods[at + Period::BEGUN] == 0 || periods[at + Period::REQUOTED] != 0 {
        return false;
    }
    let begun = u64::from(periods[at + Period::TIME]);
    let now = u64::from(time);
    begun + Period::NO_DUTY_FOR < now && now <= begun + Period::LASTS
}

// "Otherwise the whole order if not above the firm size, else at least the firm size."
#[tactic(auto, using(crate::proofs::Judging::period_laws))]
fn owed(size: u32, firm: u32) -> Duty
    ensures { OwedIs size firm result }
{
    if size <= firm {
        Duty::Whole(size)
    } else {
        Duty::AtLeast(firm)
    }
}

// "Reason 4 and this answer are judged after 1, 2 and 3."; "P/A orders stay as they are."
#[tactic(auto, using(crate::proofs::Judging::period_laws))]
fn order_in(
    quotes: &[u32; Quotes::WORDS],
    statuses: &[u32; Statuses::WORDS],
    periods: &[u32; Period::WORDS],
    exchanges: usize,
    home: usize,
    sizes: &[u32; FirmSize::WORDS],
    time: u32,
    order: Order,
) -> Duty
    requires headed { Headed exchanges home × ((order.series < many_series) × ((1 ≤ order.other) × (order.other ≤ exchanges))) }
    requires tidy { Tidy periods.now }
    ensures { InPeriod quotes.now statuses.now periods.now exchanges home sizes.now time order result }
{
    if let Some(reason) = orders::no_duty(quotes, statuses, exchanges, home, order) {
        return Duty::NoDuty(reason);
    }
    let firm = orders::firm_size(exchanges, home, sizes, order);
    if order.kind != Type::PRINCIPAL {
        return owed(order.size, firm);
    }
    if too_soon(periods, quotes, exchanges, home, order.other, time) {
        return Duty::NoDuty(Reason::TooSoon);
    }
    if still_limited(periods, order.other, time) {
        return Duty::AtLeast(order.size.min(firm));
    }
    owed(order.size, firm)
}

// "a principal order that we had to execute whole (the initial execution)". No order but one judged as a first one is answered whole.
#[tactic(auto, unfolding(crate::specs::Periods::initial_of, orders::specs::Orders::duty_as))]
fn is_initial(kind: u32, duty: Duty) -> bool
    ensures { result ≡ initial_of kind duty }
{
    kind == Type::PRINCIPAL && matches!(duty, Duty::Whole(_))
}

// The verdict, and the period that begins with it: "A later whole execution of an order judged as a first one starts a new period in
// the old one's place."
#[tactic(auto, using(crate::proofs::Keeping::keep_laws))]
pub fn received_order(
    quotes: &[u32; Quotes::WORDS],
    statuses: &[u32; Statuses::WORDS],
    periods: &mut [u32; Period::WORDS],
    exchanges: usize,
    home: usize,
    sizes: &[u32; FirmSize::WORDS],
    r: Rec,
) -> Duty
    requires headed { Headed exchanges home × RecOk exchanges home r }
    requires kind_value { (r.kind ≡ received_kind) × Tidy periods.old }
    ensures { ReceivedIs quotes.now statuses.now periods.old exchanges home sizes.now r periods.new result }
{
    let order = orders::order_of(r);
    let duty = order_in(
        quotes, statuses, periods, exchanges, home, sizes, r.time, order,
    );
    if is_initial(order.kind, duty) {
        let price = orders::shown_price(quotes, home, order.series, order.side);
        rows::put_row(
            periods,
            order.other - 1,
            [1, r.time, r.row[2], r.row[3], price, 0, 0, 0],
        );
    }
    duty
}

// What a quote shows to an order of this side.
#[tactic(auto, using(crate::proofs::Keeping::mark_laws))]
fn shown_by(row: [u32; 8], side: u32) -> u32
    ensures { result ≡ shown_by row side }
{
    if side == Way::BUY {
        row[Quote::OFFER]
    } else {
        row[Quote::BID]
    }
}

// "a later home quote gave another price, or none, on the side of the initial execution in its series"
#[tactic(auto, using(crate::proofs::Keeping::mark_laws))]
fn mark(periods: &mut [u32; Period::WORDS], y: usize, row: [u32; 8])
    requires { (y < most_exchanges) × (length periods.old ≡ period_words) }
    ensures { Marked periods.old y row periods.new }
{
    let at = y * Period::ROW;
    if periods[at + Period::SERIES] == row[1]
        && shown_by(row, periods[at + Period::SIDE]) != periods[at + Period::PRICE]
    {
        periods[at + Period::REQUOTED] = 1;
    }
}

// A home quote, in every period that it is a later quote of.
#[tactic(auto, using(crate::proofs::Keeping::mark_laws))]
pub fn keep_requotes(periods: &mut [u32; Period::WORDS], r: Rec)
    requires { Tidy periods.old }
    ensures { Requoted r periods.old periods.new }
{
    for y in 0..Period::ROWS {
        mark(periods, y, r.row);
    }
}
