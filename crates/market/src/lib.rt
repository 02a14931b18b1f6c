// What is printed of a record: the verdict on a home quote, an order or a trade, as a letter and three numbers.
#![tactic(auto)]

ghost use Rattle.std.specs.Prelude.{◌≡◌, true, ◌≤◌};
ghost use Rattle.rules.specs.Limits.{most_trades, most_sent_orders};
ghost use Rattle.rules.specs.Record.{quote_kind};
ghost use Rattle.rows.specs.Rows.{RecOk};
ghost use Rattle.orders.specs.Orders.{Headed};
ghost use Rattle.periods.specs.Periods.{Tidy};
ghost use Rattle.home.specs.Home.{homes_of};
ghost use Rattle.market.specs.Judged.{QuoteSays, SentSays, DutySays, JudgedIs, QuoteJudged};

use home::Against;
use limits::FirmSize;
use orders::{Duty, Sent};
use periods::Period;
use quotes::{Quotes, Statuses};
use rows::Rec;

// What is printed of a record: its letter, and a, b, c. The definitions name each letter, so there is a variant for each.
#[derive(Clone, Copy)]
pub enum Judged {
    Nothing,
    Q(u32, u32, u32),
    S(u32, u32, u32),
    R(u32, u32, u32),
    T(u32, u32, u32),
}

#[tactic(auto, using(crate::proofs::Judging::judge_laws))]
fn quote_says(against: Against) -> Judged
    ensures { QuoteSays against result }
{
    match against {
        Against::Clear => Judged::Q(Against::CLEAR, 0, 0),
        Against::Locked(exchange, side) => Judged::Q(Against::LOCKED, exchange, side),
        Against::Crossed(exchange, side) => Judged::Q(Against::CROSSED, exchange, side),
    }
}

#[tactic(auto, using(crate::proofs::Judging::judge_laws))]
fn sent_says(answer: Sent, number: u32) -> Judged
    ensures { SentSays answer number result }
{
    Judged::S(answer.number(), number, 0)
}

#[tactic(auto, using(crate::proofs::Judging::judge_laws))]
fn duty_says(duty: Duty) -> Judged
    ensures { DutySays duty result }
{
    match duty {
        Duty::NoDuty(reason) => Judged::R(Duty::NONE, 0, reason.number()),
        Duty::Whole(contracts) => Judged::R(Duty::WHOLE, contracts, 0),
        Duty::AtLeast(contracts) => Judged::R(Duty::AT_LEAST, contracts, 0),
    }
}

// A home quote, which is also a later quote of the periods that stand.
#[tactic(auto, using(crate::proofs::Judging::judge_laws))]
pub fn judge_quote(
    quotes: &[u32; Quotes::WORDS],
    periods: &mut [u32; Period::WORDS],
    exchanges: usize,
    home: usize,
    r: Rec,
) -> Judged
    requires headed { Headed exchanges home × RecOk exchanges home r }
    requires kind_value { (r.kind ≡ quote_kind) × (homes_of r home ≡ true) × Tidy periods.old }
    ensures { QuoteJudged quotes.now periods.old exchanges home r periods.new result }
{
    periods::keep_requotes(periods, r);
    quote_says(home::home_quote(quotes, exchanges, home, home::quote_of(r)))
}

// "Away quotes, statuses and responses print nothing."; what is printed of a Satisfaction Order is our own sheet's.
// `sent` and `traded` count the sent orders and the trades before this record; `periods` stands as before it, and then as after it.
#[tactic(auto, using(crate::proofs::Judging::judge_laws))]
pub fn judge(
    quotes: &[u32; Quotes::WORDS],
    statuses: &[u32; Statuses::WORDS],
    periods: &mut [u32; Period::WORDS],
    exchanges: usize,
    home: usize,
    sizes: &[u32; FirmSize::WORDS],
    sent: usize,
    traded: usize,
    r: Rec,
) -> Judged
    requires headed { Headed exchanges home × RecOk exchanges home r }
    requires sent_le_most_sent_orders { (sent ≤ most_sent_orders) × (traded ≤ most_trades) × Tidy periods.old }
    ensures { JudgedIs quotes.now statuses.now periods.old exchanges home sizes.now sent traded r periods.new result }
{
    match r.kind {
        Rec::QUOTE => {
            if !home::is_home(r, home) {
                return Judged::Nothing;
            }
            judge_quote(quotes, periods, exchanges, home, r)
        }
        Rec::SENT => {
            let order = orders::order_of(r);
            sent_says(orders::sent_order(quotes, exchanges, order), sent as u32)
        }
        Rec::RECEIVED => duty_says(periods::received_order(
            quotes, statuses, periods, exchanges, home, sizes, r,
        )),
        Rec::TRADE => {
            let trade = through::trade_of(r);
            let count = through::count_through(quotes, exchanges, home, trade) as u32;
            let block = through::is_block(quotes, exchanges, trade);
            Judged::T(traded as u32, count, u32::from(block))
        }
        _ => Judged::Nothing,
    }
}
