// The day totals of the journal on standard input: `sent N filled N cancelled N pending N`, or the refusal.
#![tactic(auto)]

use journal::DayTotals;

fn total(rt: &HostRuntime, journal: &[u8]) {
    match journal::totals(journal) {
        Ok(
            DayTotals {
                sent,
                filled,
                cancelled,
                pending,
            },
        ) => feed::print(
            rt,
            format_args!("sent {sent} filled {filled} cancelled {cancelled} pending {pending}\n"),
        ),
        Err(refused) => feed::say_refused(&mut rt.stdout(), refused),
    }
}

fn main(rt: HostRuntime) {
    feed::with_journal(&rt, |journal| total(&rt, journal));
}
