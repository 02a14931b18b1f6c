// The quotes and the statuses as they stand: one row of eight words for each exchange and series, one word for each exchange.
#![tactic(auto)]

ghost use Rattle.quotes.specs.Tables.{Within, RowIs, FitsQuotes, QuotesStep, StatusesStep};

use limits::{Exchanges, Series};
use rows::Rec;

// A quote: the record's own eight fields.
#[derive(Drop)]
pub struct Quote;

impl Quote {
    // How many series an exchange may quote.
    pub const SERIES: usize = Series::LAST as usize + 1;

    // A row's words, and those of them that verdicts and claims read.
    pub const WORDS: usize = 8;

    pub const BID: usize = 2;

    pub const BID_CUSTOMERS: usize = 4;

    pub const OFFER: usize = 5;

    pub const OFFER_CUSTOMERS: usize = 7;
}

// The table of quotes: a row for each exchange and series.
#[derive(Drop)]
pub struct Quotes;

impl Quotes {
    pub const WORDS: usize = Exchanges::MOST as usize * Quote::SERIES * Quote::WORDS;
}

// The table of statuses: a word for each exchange.
#[derive(Drop)]
pub struct Statuses;

impl Statuses {
    pub const WORDS: usize = Exchanges::MOST as usize;
}

// The row of an exchange's quotes in a series.
pub fn row_of(exchange: usize, series: usize) -> usize
    requires { Within exchange series }
    ensures { RowIs exchange series result }
{
    (exchange - 1) * Quote::SERIES + series
}

// A quote stands until the exchange's next in the series; a record of any other kind changes none.
pub fn keep_quote(quotes: &mut [u32; Quotes::WORDS], r: Rec)
    requires { FitsQuotes r }
    ensures { QuotesStep r quotes.old quotes.new }
{
    if r.kind == Rec::QUOTE {
        let row = r.row;
        let at = row_of(row[0] as usize, row[1] as usize);
        rows::put_row(quotes, at, row);
    }
}

// A status stands until the exchange's next; a record of any other kind changes none.
#[tactic(auto, using(crate::proofs::StatusLaws::status_laws))]
pub fn keep_status(statuses: &mut [u32; Statuses::WORDS], r: Rec)
    requires { FitsQuotes r }
    ensures { StatusesStep r statuses.old statuses.new }
{
    if r.kind == Rec::STATUS {
        let row = r.row;
        statuses[row[0] as usize - 1] = row[1];
    }
}
