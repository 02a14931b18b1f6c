// One Satisfaction Order, judged by its facts: the reason on it, and its claim.
#![tactic(auto)]

ghost use Rattle.std.specs.Prelude.{◌≡◌, ◌≤◌, ◌==◌, Some, IfSome};
ghost use Rattle.rules.specs.Reasons.{three_minutes};
ghost use Rattle.rules.specs.Due.{least_of, limited};
ghost use Rattle.rules.proofs.Naming.{named};
ghost use Rattle.reasons.specs.declared.Reason.{Reason};
ghost use Rattle.reasons.specs.Reasons.{number_of, stored_as, minutes_at, later_than, allowed_at, in_time, required_of, trade_reason, late_reason, again_reason, time_reason, price_reason, reason_of, claim_of};

use prices::Side;
use rows::{Closing, Complex, Minutes, Status};

// The reasons on a Satisfaction Order, in the order in which they are judged: "first that holds".
#[derive(Clone, Copy, Debug, PartialEq, Eq)]
pub enum Reason {
    // "10 sender not traded through"
    NotTradedThrough = 10,
    // "2 home had sent the sender an order in the series"
    HadSent = 2,
    // "3 sender non-firm"
    SenderNonFirm = 3,
    // "4 no initiator and home non-firm"
    HomeNonFirm = 4,
    // "5 sender in rotation"
    SenderInRotation = 5,
    // "6 home in rotation"
    HomeInRotation = 6,
    // "7 complex"
    Complex = 7,
    // "8 no initiator and received later than the report plus 180,000 ms, or plus 60,000"
    Late = 8,
    // "reason 15: later than 180,000 ms after the cancellation; 15 stands in 8's place"
    LateAgain = 15,
    // "9 an initiator and later than the report plus 180,000"
    LateWithInitiator = 9,
    // "A cancellation in time makes reason 14": the initiator is named.
    InitiatorNamed = 14,
    // "11 price is the trade's and the trade is no block"
    PricedAsBlock = 11,
    // "12 price is not the one required"
    NotThePriceRequired = 12,
    // "13 no customer contracts"
    NoCustomers = 13,
}

impl Reason {
    // "0 none of these"
    pub const NONE: u32 = 0;

    // Its number in the paper.
    pub fn number(self) -> u32
        ensures { result ≡ number_of self }
    {
        self as u32
    }

    // As it stands in a table or a sheet: its number, or 0.
    pub fn stored(reason: Option<Reason>) -> u32
        ensures { result ≡ stored_as reason }
    {
        match reason {
            Some(reason) => reason.number(),
            None => Reason::NONE,
        }
    }

    // The reason that has a number.
    pub fn numbered(number: u32) -> Option<Reason>
        ensures known { IfSome result (λ reason. number_of reason ≡ number) }
        ensures all { (reason : Reason) → number_of reason ≡ number → result ≡ Some reason }
    {
        let reason = match number {
            2 => Reason::HadSent,
            3 => Reason::SenderNonFirm,
            4 => Reason::HomeNonFirm,
            5 => Reason::SenderInRotation,
            6 => Reason::HomeInRotation,
            7 => Reason::Complex,
            8 => Reason::Late,
            9 => Reason::LateWithInitiator,
            10 => Reason::NotTradedThrough,
            11 => Reason::PricedAsBlock,
            12 => Reason::NotThePriceRequired,
            13 => Reason::NoCustomers,
            14 => Reason::InitiatorNamed,
            15 => Reason::LateAgain,
            _ => return None,
        };
        Some(reason)
    }
}

// How long after the report a Satisfaction Order may come, how long after that it may be cancelled, and how long after that it may be
// sent again.
#[derive(Drop)]
pub struct Receipt;

impl Receipt {
    // "received later than the report plus 180,000 ms"
    pub const THREE_MINUTES: u64 = Minutes::THREE as u64;

    // "or plus 60,000 if the report is at or after close less 300,000"
    pub const ONE_MINUTE: u64 = 60000;

    pub const CLOSING_MINUTES: u64 = Closing::MINUTES as u64;
}

// What a Satisfaction Order is judged by: of its sender at the trade the side traded through, the price and the customer
// contracts there, the status and what excused home (0 nothing); home's status; of the trade; of the order, and when its sender's first
// was cancelled so that it could be sent again (one above the time, 0 for a first one). All are words of the tables, as they stand there.
#[derive(Clone, Copy)]
pub struct Facts {
    pub side: u32,
    pub there: u32,
    pub customers: u32,
    pub status: u32,
    pub excuser: u32,
    pub home: u32,
    pub price: u32,
    pub block: u32,
    pub complex: u32,
    pub initiator: u32,
    pub report: u32,
    pub close: u32,
    pub asked: u32,
    pub time: u32,
    pub again: u32,
}

#[tactic(auto, using(crate::proofs::Table::word_laws))]
fn later_than(report: u32, allowed: u64, time: u32) -> bool
    requires { allowed ≤ three_minutes }
    ensures { result ≡ later_than report allowed time }
{
    u64::from(report) + allowed < u64::from(time)
}

// "180,000 ms", or "60,000 if" the moment is "at or after close less 300,000"
#[tactic(auto, using(crate::proofs::Table::word_laws))]
pub fn minutes_from(moment: u32, close: u32) -> u64
    ensures { result ≡ minutes_at moment close }
{
    if u64::from(close) <= u64::from(moment) + Receipt::CLOSING_MINUTES {
        Receipt::ONE_MINUTE
    } else {
        Receipt::THREE_MINUTES
    }
}

// How long after the report an order may come: three minutes or one, and three where there is an initiator.
#[tactic(auto, using(crate::proofs::Table::word_laws))]
pub fn allowed(initiator: u32, report: u32, close: u32) -> u64
    ensures { result ≡ allowed_at initiator report close }
{
    if initiator == 0 {
        minutes_from(report, close)
    } else {
        Receipt::THREE_MINUTES
    }
}

// Whether an order that was received at one time is cancelled at another in time: "up to and including 180,000 ms after receiving it, or
// 60,000 if we received it at or after close less 300,000".
#[tactic(auto, using(crate::proofs::Table::word_laws))]
pub fn in_time(received: u32, close: u32, cancelled: u32) -> bool
    ensures { result ≡ in_time received close cancelled }
{
    !later_than(received, minutes_from(received, close), cancelled)
}

// "for a block the trade's, otherwise the bid or offer traded through"
#[tactic(auto, using(crate::proofs::Table::word_laws))]
pub fn required(block: u32, price: u32, there: u32) -> u32
    ensures { result ≡ required_of block price there }
{
    if block == 1 { price } else { there }
}

// "10 sender not traded through. 2 home had sent the sender an order .. 3 sender non-firm. 4 no initiator and home non-firm. 5 sender
// in rotation. 6 home in rotation. 7 complex."
#[tactic(auto, using(crate::proofs::Table::reason_laws))]
fn trade_reason(facts: Facts) -> Option<Reason>
    ensures { stored_as result ≡ trade_reason facts.side facts.excuser facts.status facts.home facts.initiator facts.complex }
{
    if facts.side == Side::NEITHER {
        return Some(Reason::NotTradedThrough);
    }
    if facts.excuser != 0 {
        return Some(Reason::HadSent);
    }
    if facts.status == Status::NON_FIRM {
        return Some(Reason::SenderNonFirm);
    }
    if facts.initiator == 0 && facts.home == Status::NON_FIRM {
        return Some(Reason::HomeNonFirm);
    }
    if facts.status == Status::ROTATION {
        return Some(Reason::SenderInRotation);
    }
    if facts.home == Status::ROTATION {
        return Some(Reason::HomeInRotation);
    }
    if facts.complex == Complex::YES {
        return Some(Reason::Complex);
    }
    None
}

// "8 no initiator and received later than the report plus 180,000 ms, or plus 60,000 .. 9 an initiator and later than the report
// plus 180,000."
#[tactic(auto, using(crate::proofs::Table::reason_laws))]
fn late_reason(facts: Facts) -> Option<Reason>
    ensures { stored_as result ≡ late_reason facts.initiator facts.report facts.close facts.time }
{
    let allowed = allowed(facts.initiator, facts.report, facts.close);
    if !later_than(facts.report, allowed, facts.time) {
        return None;
    }
    if facts.initiator == 0 {
        Some(Reason::Late)
    } else {
        Some(Reason::LateWithInitiator)
    }
}

// "reason 15: later than 180,000 ms after the cancellation"
#[tactic(auto, using(crate::proofs::Table::reason_laws))]
fn again_reason(cancelled: u32, time: u32) -> Option<Reason>
    ensures { stored_as result ≡ again_reason cancelled time }
{
    if later_than(cancelled, Receipt::THREE_MINUTES, time) {
        Some(Reason::LateAgain)
    } else {
        None
    }
}

// "The second is not judged by 8 or 9 but by reason 15".
#[tactic(auto, using(crate::proofs::Table::reason_laws))]
fn time_reason(facts: Facts) -> Option<Reason>
    ensures { stored_as result ≡ time_reason facts.again facts.initiator facts.report facts.close facts.time }
{
    if facts.again != 0 {
        again_reason(facts.again - 1, facts.time)
    } else {
        late_reason(facts)
    }
}

// "11 price is the trade's and the trade is no block. 12 price is not the one required. 13 no customer contracts."
#[tactic(auto, using(crate::proofs::Table::reason_laws))]
fn price_reason(facts: Facts) -> Option<Reason>
    ensures { stored_as result ≡ price_reason facts.asked facts.price facts.block facts.there facts.customers }
{
    if facts.asked == facts.price && facts.block != 1 {
        return Some(Reason::PricedAsBlock);
    }
    if facts.asked != required(facts.block, facts.price, facts.there) {
        return Some(Reason::NotThePriceRequired);
    }
    if facts.customers == 0 {
        return Some(Reason::NoCustomers);
    }
    None
}

// "first that holds"
#[tactic(auto, using(crate::proofs::Table::whole_laws))]
pub fn reason_of(facts: Facts) -> Option<Reason>
    ensures { stored_as result ≡ reason_of facts }
{
    trade_reason(facts)
        .or(time_reason(facts))
        .or(price_reason(facts))
}

// An order that was cancelled in time, with its initiator named.
#[derive(Drop)]
pub struct Naming;

impl Naming {
    // "judged after 9 and before 11": the first and the last of those that give way to it. 15 stands "in 8's place".
    pub const FIRST: u32 = Reason::PricedAsBlock as u32;

    pub const LAST: u32 = Reason::NoCustomers as u32;

    pub const NUMBER: u32 = Reason::InitiatorNamed as u32;
}

// The reason on an order that was cancelled in time, by the one that it would have.
#[tactic(auto, using(crate::proofs::Table::word_laws))]
pub fn named(why: u32) -> u32
    ensures { result ≡ named why }
{
    match why {
        Reason::NONE | Naming::FIRST..=Naming::LAST => Naming::NUMBER,
        _ => why,
    }
}

// "the least of order size, customer contracts and trade size"
pub fn least_of(size: u32, customers: u32, traded: u32) -> u32
    ensures { result ≡ least_of size customers traded }
{
    size.min(customers.min(traded))
}

// A claim's own limit.
#[derive(Drop)]
pub struct Claim;

impl Claim {
    // "For a trade after it, each claim is also at most 10": after the closing record.
    pub const MOST_AT_THE_CLOSE: u32 = 10;
}

// What is left of a claim for a trade that was made in the closing window (1), or before it.
#[tactic(auto, using(crate::proofs::Table::word_laws))]
fn limited(closing: u32, claim: u32) -> u32
    ensures { result ≡ limited (closing == 1) claim }
{
    if closing == 1 {
        claim.min(Claim::MOST_AT_THE_CLOSE)
    } else {
        claim
    }
}

// "0 for a reason other than 0; else the least of" the three
#[tactic(auto, using(crate::proofs::Table::word_laws))]
pub fn claim_of(why: u32, size: u32, customers: u32, traded: u32, closing: u32) -> u32
    ensures { result ≡ claim_of why size customers traded closing }
{
    if why == Reason::NONE {
        limited(closing, least_of(size, customers, traded))
    } else {
        0
    }
}
