// Prices against each other, and the best of them, out of the table of quotes.
#![tactic(auto)]

ghost use Rattle.std.specs.Prelude.{◌≡◌, ◌≤◌, ◌<◌};
ghost use Rattle.rules.specs.Limits.{most_exchanges};
ghost use Rattle.quotes.specs.Tables.{many_series};
ghost use Rattle.prices.specs.Prices.{above_of, equal_of, lower_of, BestOf, PlaceIs, BidIs, OfferIs};

use quotes::{Quote, Quotes};

// The sides of a quote, by the numbers that tables and the printed day hold.
#[derive(Drop)]
pub struct Side;

impl Side {
    pub const NEITHER: u32 = 0;

    pub const BID: u32 = 1;

    pub const OFFER: u32 = 2;
}

// ---- "A price 0 is absent: above, below or equal to nothing, in every verdict."

#[tactic(auto, unfolding(crate::specs::Prices::above_of))]
pub fn is_above(a: u32, b: u32) -> bool
    ensures { result ≡ above_of a b }
{
    b != 0 && b < a
}

#[tactic(auto, unfolding(crate::specs::Prices::equal_of))]
pub fn is_equal(a: u32, b: u32) -> bool
    ensures { result ≡ equal_of a b }
{
    a != 0 && a == b
}

#[tactic(auto, unfolding(crate::specs::Prices::lower_of))]
fn lower(a: u32, b: u32) -> u32
    ensures { result ≡ lower_of a b }
{
    match (a, b) {
        (0, _) => b,
        (_, 0) => a,
        _ => a.min(b),
    }
}

// ---- "Highest bid and lowest offer shown by any exchange, home included, firm or not"

// Where the row of exchange y + 1 in a series begins.
pub fn place(y: usize, series: usize) -> usize
    requires { (y < most_exchanges) × (series < many_series) }
    ensures { PlaceIs y series result }
{
    quotes::row_of(y + 1, series) * Quote::WORDS
}

// The best by `better` of the numbers at one place of the rows of all exchanges in a series.
fn best<B: Fn(u32, u32) -> u32>(
    quotes: &[u32; Quotes::WORDS],
    exchanges: usize,
    series: usize,
    word: usize,
    better: B,
) -> u32
    requires { (exchanges ≤ most_exchanges) × (series < many_series) × (word < 8) × B.IsAlwaysCallable better }
    ensures { BestOf (λ best price r. B.post better best price r) quotes.now series word exchanges result }
{
    let mut best = 0;
    for y in 0..exchanges {
        best = better(best, quotes[place(y, series) + word]);
    }
    best
}

#[tactic(auto, using(crate::proofs::BestPrices::price_laws))]
pub fn best_bid(quotes: &[u32; Quotes::WORDS], exchanges: usize, series: usize) -> u32
    requires { (exchanges ≤ most_exchanges) × (series < many_series) }
    ensures { BidIs quotes.now exchanges series result }
{
    best(quotes, exchanges, series, Quote::BID, u32::max)
}

#[tactic(auto, using(crate::proofs::BestPrices::price_laws))]
pub fn best_offer(quotes: &[u32; Quotes::WORDS], exchanges: usize, series: usize) -> u32
    requires { (exchanges ≤ most_exchanges) × (series < many_series) }
    ensures { OfferIs quotes.now exchanges series result }
{
    best(quotes, exchanges, series, Quote::OFFER, lower)
}
