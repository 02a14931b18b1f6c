// The words, and the rule behind each reason: paragraphs of source document 000; what the paper marks *desk* is said to be the desk's reading.
use reasons::Reason;
use std::fmt;

// "ms after midnight" as a clock shows it, with the milliseconds behind.
#[derive(Clone, Copy)]
pub struct Clock(pub u64);

impl fmt::Display for Clock {
    fn fmt<W: fmt::Write>(&self, f: &mut fmt::Formatter<W>) -> fmt::Result {
        let time = self.0;
        let hours = time / 3600000;
        let minutes = time / 60000 % 60;
        let seconds = time / 1000 % 60;
        let milliseconds = time % 1000;
        write!(f, "{hours:02}:{minutes:02}:{seconds:02}.{milliseconds:03}")
    }
}

// The reason; the sent order that excuses home; and the exchange that initiated the trade, which home named.
#[derive(Clone, Copy)]
pub struct Why {
    pub reason: Option<Reason>,
    pub excuser: Option<u32>,
    pub initiator: u32,
}

const EXCUSED: &str =
    " was more than 20 seconds old at the trade, and neither filled in full nor followed by a worse quote (that such a quote ends the excuse is the desk's reading), 6.94(b)(2)";

impl Why {
    // Rule 6.94(b), "Exceptions to Trade-Through Liability": reasons 2 to 9 are its paragraphs. Of 14 the third sentence of 6.94(b)(9): "cancel the Satisfaction Order and inform
    // the Aggrieved Party of the identity of the Participant Exchange that initiated the Trade-Through".
    fn say<W: fmt::Write>(&self, reason: Reason, f: &mut fmt::Formatter<W>) -> fmt::Result {
        match reason {
            Reason::HadSent => {
                if let Some(order) = self.excuser {
                    write!(f, "home's sent order {order}")?;
                }
                f.write_str(EXCUSED)
            }
            Reason::SenderNonFirm => f.write_str("the sender was non-firm, 6.94(b)(3)"),
            Reason::HomeNonFirm => f.write_str(
                "home was non-firm and no other exchange initiated the trade, 6.94(b)(4)",
            ),
            Reason::SenderInRotation => f.write_str("the sender was in rotation, 6.94(b)(5)"),
            Reason::HomeInRotation => f.write_str("home was in rotation, 6.94(b)(6)"),
            Reason::Complex => f.write_str("the trade was complex, 6.94(b)(7)"),
            Reason::Late => f.write_str("it came too late, 6.94(b)(8)"),
            Reason::LateWithInitiator => f.write_str("it came too late, 6.94(b)(9)"),
            Reason::NotTradedThrough => f.write_str(
                "the sender was not traded through, and so is no aggrieved party, 6.92(a)(1)",
            ),
            Reason::PricedAsBlock => {
                f.write_str("its price is the trade's, and the trade is no block, 6.94(a)(2)(i)")
            }
            Reason::NotThePriceRequired => {
                f.write_str("its price is not the one required, 6.92(a)(18)")
            }
            Reason::NoCustomers => f.write_str(
                "no customer contracts in the bid or offer traded through, 6.94(a)(2)(ii)",
            ),
            Reason::InitiatorNamed => {
                let initiator = self.initiator;
                write!(
                    f,
                    "home cancelled the order in time and named exchange {initiator}, which initiated the trade, 6.94(b)(9)"
                )
            }
            Reason::LateAgain => f.write_str("it was sent again too late, 6.94(a)(2)(i)"),
        }
    }
}

impl fmt::Display for Why {
    fn fmt<W: fmt::Write>(&self, f: &mut fmt::Formatter<W>) -> fmt::Result {
        let number = Reason::stored(self.reason);
        write!(f, "reason {number}: ")?;
        match self.reason {
            Some(reason) => self.say(reason, f),
            None => f.write_str("none, to be filled, 6.94(a)(2)"),
        }
    }
}
