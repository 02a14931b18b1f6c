// What a sheet says, checked against the tables of its journal: "20; then line by line 21, 22, 24; then trade by trade 25, 26".
// Reasons, claims and due totals come from the tables alone; the sheet is never asked what is due.
#![tactic(auto)]

ghost use Rattle.std.specs.Prelude.{◌≡◌, ◌<◌, ◌≤◌, length};
ghost use Rattle.rules.specs.Limits.{most_trades, most_satisfaction_orders, most_trade_lines};
ghost use Rattle.rules.specs.SheetCheck.{check_line, check_lines};
ghost use Rattle.claims.specs.Lines.{Filing};
ghost use Rattle.checker.specs.Beside.{beside_at, besides, FillsGathered};
ghost use Rattle.checker.specs.Check.{checked_as, LineJudged, TradeChecked, TradesChecked, CheckedAs};

use claims::Line;
use counted::SatisfactionOrder;
use fairness::Portion;
use rows::{Refusal, Refused, TradeLines};
use said::Said;
use trades::Trades;

// 21, 22, 24, of the numbers themselves. Any two words have room for their sum in 64 bits.
fn judge_line(line: usize, size: u32, reason: u32, claim: u32, said: Said) -> Result<(), Refused>
    ensures { LineJudged line size reason claim said result }
{
    if u64::from(said.filled) + u64::from(said.cancelled) != u64::from(size) {
        return Err(Refusal::DoesNotAddUp.at(line));
    }
    if said.reason != reason {
        return Err(Refusal::WrongReason.at(line));
    }
    if claim < said.filled {
        return Err(Refusal::AboveClaim.at(line));
    }
    Ok(())
}

fn check_line(
    claims: &[u32; Line::WORDS],
    said: &[Said; SatisfactionOrder::MOST],
    i: usize,
) -> Result<(), Refused>
    requires { i < most_satisfaction_orders }
    ensures { checked_as result ≡ check_line (beside_at claims.now said.now i) }
{
    judge_line(
        i,
        claims[i * 8 + Line::SIZE],
        claims[i * 8 + Line::REASON],
        claims[i * 8 + Line::CLAIM],
        said[i],
    )
}

// "line by line"
fn check_lines(
    claims: &[u32; Line::WORDS],
    said: &[Said; SatisfactionOrder::MOST],
    lines: usize,
) -> Result<(), Refused>
    requires { lines ≤ most_satisfaction_orders }
    ensures { checked_as result ≡ check_lines (besides claims.now said.now lines) }
{
    for i in 0..lines {
        check_line(claims, said, i)?;
    }
    Ok(())
}

// What the sheet fills on trade m's lines, in their order.
pub fn gather_fills(
    claims: &[u32; Line::WORDS],
    lines: usize,
    said: &[Said; SatisfactionOrder::MOST],
    m: usize,
    portions: &mut [Portion; TradeLines::MOST],
)
    requires m_lt_most_trades { (m < most_trades) × Filing claims.now lines }
    requires portions_len { length portions.old ≡ most_trade_lines }
    ensures { FillsGathered claims.now said.now m portions.old portions.new }
{
    let k = claims::lines_of(claims, m);
    for i in 0..k {
        let line = claims::line_of(claims, m, i);
        portions[i].filled = said[line].filled;
    }
}

// 25, 26. The amount due is the tables' own. Fills and customer contracts are words, so that their products have room in 64 bits:
// `fairness` takes them there.
fn check_trade(
    claims: &[u32; Line::WORDS],
    trades: &[u32; Trades::WORDS],
    lines: usize,
    said: &[Said; SatisfactionOrder::MOST],
    m: usize,
) -> Result<(), Refused>
    requires { (m < most_trades) × Filing claims.now lines }
    ensures { TradeChecked claims.now trades.now lines said.now m result }
{
    let mut portions = [Portion::NOTHING; TradeLines::MOST];
    let k = claims::gather(claims, m, &mut portions);
    gather_fills(claims, lines, said, m, &mut portions);
    let its = &portions[..k];
    let filled = fairness::total(its);
    let due = u64::from(claims::due_total(claims, trades, m));
    if filled != due {
        return Err(Refusal::NotTheDueTotal.at(m));
    }
    if !fairness::keeps_rule(its) {
        return Err(Refusal::ShareRuleBroken.at(m));
    }
    Ok(())
}

// "trade by trade"
fn check_trades(
    claims: &[u32; Line::WORDS],
    trades: &[u32; Trades::WORDS],
    lines: usize,
    said: &[Said; SatisfactionOrder::MOST],
    traded: usize,
) -> Result<(), Refused>
    requires { (traded ≤ most_trades) × Filing claims.now lines }
    ensures { TradesChecked claims.now trades.now lines said.now traded result }
{
    for m in 0..traded {
        check_trade(claims, trades, lines, said, m)?;
    }
    Ok(())
}

// The sheet of a journal with so many trades and so many Satisfaction Orders, whose tables these are.
pub fn check_sheet(
    claims: &[u32; Line::WORDS],
    trades: &[u32; Trades::WORDS],
    traded: usize,
    lines: usize,
    sheet: &[u8],
) -> Result<(), Refused>
    requires { (traded ≤ most_trades) × Filing claims.now lines }
    ensures { CheckedAs claims.now trades.now traded lines sheet.now result }
{
    let mut said = [Said::NOTHING; SatisfactionOrder::MOST];
    said::read_sheet(sheet, lines, &mut said)?;
    check_lines(claims, &said, lines)?;
    check_trades(claims, trades, lines, &said, traded)
}
