// The verdict on a home quote: crossed, locked or clear.
#![tactic(auto)]

ghost use Rattle.std.specs.Prelude.{◌≡◌, ℕ, ◌≤◌, ◌<◌};
ghost use Rattle.rules.specs.Limits.{most_exchanges};
ghost use Rattle.quotes.specs.Tables.{many_series};
ghost use Rattle.home.specs.Home.{homes_of, Tests, QuoteIs, FoundIs, AgainstIs};

use prices::Side;
use quotes::{Quote, Quotes};
use rows::Rec;

// What a home quote's verdict looks at.
#[derive(Clone, Copy)]
pub struct HomeQuote {
    pub series: usize,
    pub bid: u32,
    pub offer: u32,
}

// Q: the exchange named, and the side of home's quote.
#[derive(Clone, Copy)]
pub enum Against {
    Clear,
    Locked(u32, u32),
    Crossed(u32, u32),
}

impl Against {
    pub const CLEAR: u32 = 0;

    pub const LOCKED: u32 = 1;

    pub const CROSSED: u32 = 2;
}

#[tactic(auto, unfolding(crate::specs::Home::homes_of))]
pub fn is_home(r: Rec, home: usize) -> bool
    ensures { result ≡ homes_of r home }
{
    r.row[0] as usize == home
}

pub fn quote_of(r: Rec) -> HomeQuote
    ensures { QuoteIs r result }
{
    let row = r.row;
    HomeQuote {
        series: row[1] as usize,
        bid: row[Quote::BID],
        offer: row[Quote::OFFER],
    }
}

// The lowest away exchange against whose price on the other side the test holds of home's, and the side of home's quote:
// "the lowest exchange of that kind is named"
fn lowest_named<T: Fn(u32, u32) -> bool>(
    quotes: &[u32; Quotes::WORDS],
    exchanges: usize,
    home: usize,
    quote: HomeQuote,
    test: T,
) -> Option<(u32, u32)>
    requires { (exchanges ≤ most_exchanges) × (quote.series < many_series) × T.IsAlwaysCallable test }
    ensures { (kind : ℕ) → Tests (λ a b r. T.post test a b r) kind → FoundIs quotes.now exchanges home kind quote result }
{
    for y in 0..exchanges {
        if y + 1 == home {
            continue;
        }
        let named = (y + 1) as u32;
        let k = prices::place(y, quote.series);
        if test(quote.bid, quotes[k + Quote::OFFER]) {
            return Some((named, Side::BID));
        }
        if test(quotes[k + Quote::BID], quote.offer) {
            return Some((named, Side::OFFER));
        }
    }
    None
}

// "Crossed if its bid is above an away offer or its offer below an away bid; else locked if equal."; "Crossed wins over locked"
pub fn home_quote(
    quotes: &[u32; Quotes::WORDS],
    exchanges: usize,
    home: usize,
    quote: HomeQuote,
) -> Against
    requires { (exchanges ≤ most_exchanges) × (quote.series < many_series) }
    ensures { AgainstIs quotes.now exchanges home quote result }
{
    if let Some((exchange, side)) = lowest_named(quotes, exchanges, home, quote, prices::is_above) {
        return Against::Crossed(exchange, side);
    }
    if let Some((exchange, side)) = lowest_named(quotes, exchanges, home, quote, prices::is_equal) {
        return Against::Locked(exchange, side);
    }
    Against::Clear
}
