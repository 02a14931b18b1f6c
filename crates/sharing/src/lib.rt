// How what is due on a trade is shared out among its lines.
#![tactic(auto)]

ghost use Rattle.std.specs.Prelude.{◌≡◌, ◌≤◌, length, map};
ghost use Rattle.rules.specs.Limits.{most_trade_lines};
ghost use Rattle.sharing.specs.Turns.{sooner_of, NextTurn, Given, emptied, full, SharedOut};

use fairness::Portion;

// The line that the next contract goes to: its number, its fill with that contract, its customer contracts.
#[derive(Clone, Copy)]
struct Turn {
    line: usize,
    fill: u32,
    customers: u32,
}

// "the unfilled line with the least (fill + 1) per customer contract, the earliest on a tie": of the best line so far and a later one.
fn sooner(best: Turn, line: usize, portion: Portion) -> Turn
    ensures { result ≡ sooner_of best line portion }
{
    if portion.claim <= portion.filled {
        return best;
    }
    let more = portion.filled + 1;
    if u64::from(more) * u64::from(best.customers)
        < u64::from(best.fill) * u64::from(portion.customers)
    {
        return Turn {
            line,
            fill: more,
            customers: portion.customers,
        };
    }
    best
}

// Whose turn it is: nobody's, where every line is filled. While the lines are passed, nobody's turn is one contract on no customer
// contracts, which comes after any line's; with an Option in its place the loop took two thirds longer.
fn next_turn(portions: &[Portion]) -> Option<Turn>
    ensures { NextTurn portions.now result }
{
    let mut best = Turn {
        line: portions.len(),
        fill: 1,
        customers: 0,
    };
    for (i, portion) in portions.iter().enumerate() {
        best = sooner(best, i, *portion);
    }
    if best.line < portions.len() {
        Some(best)
    } else {
        None
    }
}

// "one contract at a time, each to the unfilled line with the least (fill + 1) per customer contract": so many more, or until every line is filled.
// In a function of its own the lines are reached by one address; laid out in its caller it is a twentieth slower.
#[inline(never)]
fn give_in_turn(portions: &mut [Portion], contracts: u64)
    ensures { Given contracts portions.old portions.new }
{
    for _ in 0..contracts {
        let Some(turn) = next_turn(portions) else {
            return;
        };
        portions[turn.line].filled = turn.fill;
    }
}

// No line is filled.
fn empty(portions: &mut [Portion])
    ensures { portions.new ≡ map emptied portions.old }
{
    for portion in portions.iter_mut() {
        portion.filled = 0;
    }
}

// Each line is filled up to its claim.
fn fill(portions: &mut [Portion])
    ensures { portions.new ≡ map full portions.old }
{
    for portion in portions.iter_mut() {
        portion.filled = portion.claim;
    }
}

// The fills of our own sheet. Where all claims are due each line gets its claim at once.
pub fn share_out(portions: &mut [Portion], due: u64)
    requires { length portions.old ≤ most_trade_lines }
    ensures { SharedOut due portions.old portions.new }
{
    fill(portions);
    if due == fairness::total(portions) {
        return;
    }
    empty(portions);
    give_in_turn(portions, due);
}
