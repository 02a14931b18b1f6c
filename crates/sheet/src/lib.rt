// Our own sheet, out of the tables that the walk of a journal leaves.
#![tactic(auto)]

ghost use Rattle.std.specs.Prelude.{◌≡◌, ◌-◌, ◌*◌, ◌≤◌, ◌<◌, length};
ghost use Rattle.rules.specs.Limits.{most_trades, most_satisfaction_orders};
ghost use Rattle.text.specs.Lent.{Takes};
ghost use Rattle.claims.specs.Lines.{many_of, Filing, Findable};
ghost use Rattle.sheet.specs.Tables.{Scattered, FillsTrade, OwnFills};
ghost use Rattle.sheet.specs.Written.{three_at, bytes_to, PutsNumber, PutsLine, PutsLines, OwnWritten};

use claims::Line;
use counted::SatisfactionOrder;
use fairness::Portion;
use rows::{Refusal, TradeLines};
use trades::Trades;

// Of trade m's first lines each gets its fill, at the word of its number.
fn scatter(
    claims: &[u32; Line::WORDS],
    m: usize,
    portions: &[Portion],
    fills: &mut [u32; SatisfactionOrder::MOST],
)
    requires findable { Findable claims.now m }
    requires portions_bound { length portions.now ≤ many_of claims.now m }
    ensures { Scattered claims.now m portions.now fills.old fills.new (length portions.now) }
{
    for i in 0..portions.len() {
        let line = claims::line_of(claims, m, i);
        fills[line] = portions[i].filled;
    }
}

// The due total of trade m shared out among its lines.
fn fill_trade(
    claims: &[u32; Line::WORDS],
    trades: &[u32; Trades::WORDS],
    m: usize,
    fills: &mut [u32; SatisfactionOrder::MOST],
)
    requires { Findable claims.now m }
    ensures { FillsTrade claims.now trades.now m fills.old fills.new }
{
    let mut portions = [Portion::NOTHING; TradeLines::MOST];
    let k = claims::gather(claims, m, &mut portions);
    let due = claims::due_total(claims, trades, m);
    let its = &mut portions[..k];
    sharing::share_out(its, u64::from(due));
    scatter(claims, m, its, fills);
}

// What each line is filled in our own sheet.
pub fn own_fills(
    claims: &[u32; Line::WORDS],
    trades: &[u32; Trades::WORDS],
    traded: usize,
    lines: usize,
    fills: &mut [u32; SatisfactionOrder::MOST],
)
    requires { (traded ≤ most_trades) × Filing claims.now lines }
    ensures { OwnFills claims.now trades.now traded lines fills.old fills.new }
{
    for m in 0..traded {
        fill_trade(claims, trades, m, fills);
    }
}

// "A sheet line: reason, filled, cancelled." And "The rest of the order is cancelled."
pub fn own_line(
    claims: &[u32; Line::WORDS],
    fills: &[u32; SatisfactionOrder::MOST],
    i: usize,
) -> [u32; 3]
    requires { i < most_satisfaction_orders }
    ensures { result ≡ three_at claims.now fills.now i }
{
    let filled = fills[i];
    let cancelled = claims[i * 8 + Line::SIZE].saturating_sub(filled);
    [claims[i * 8 + Line::REASON], filled, cancelled]
}

// How many bytes the lines take.
fn sheet_width(
    claims: &[u32; Line::WORDS],
    fills: &[u32; SatisfactionOrder::MOST],
    lines: usize,
) -> usize
    requires { lines ≤ most_satisfaction_orders }
    ensures { Takes (bytes_to claims.now fills.now lines) (lines * 12) result }
{
    let mut sum: usize = 0;
    for i in 0..lines {
        let line = own_line(claims, fills, i);
        sum += several::widths(&line, 3);
    }
    sum
}

// Every number of an accepted journal's lines can be stored: a promise of what is true then, where `several` asks for it beforehand.
fn put_number(out: &mut [u8], at: usize, x: u32) -> usize
    ensures { PutsNumber out.old at x out.new result }
{
    number::write_at(out, at, x).unwrap_or(at)
}

fn put_line(out: &mut [u8], at: usize, line: [u32; 3]) -> usize
    ensures { PutsLine out.old at line out.new result }
{
    let after_reason = put_number(out, at, line[0]);
    let after_filled = put_number(out, after_reason, line[1]);
    put_number(out, after_filled, line[2])
}

// Line after line; there is room for them.
fn put_lines(
    out: &mut [u8],
    claims: &[u32; Line::WORDS],
    fills: &[u32; SatisfactionOrder::MOST],
    lines: usize,
) -> usize
    requires { lines ≤ most_satisfaction_orders }
    ensures { PutsLines out.old claims.now fills.now lines out.new result }
{
    let mut at: usize = 0;
    for i in 0..lines {
        at = put_line(out, at, own_line(claims, fills, i));
    }
    at
}

// Our own sheet of the journal whose tables these are, or 9 and nothing.
pub fn write_own(
    claims: &[u32; Line::WORDS],
    trades: &[u32; Trades::WORDS],
    traded: usize,
    lines: usize,
    out: &mut [u8],
) -> Result<usize, Refusal>
    requires { (traded ≤ most_trades) × Filing claims.now lines }
    ensures { OwnWritten claims.now trades.now traded lines out.old result out.new }
{
    let mut fills = [0u32; SatisfactionOrder::MOST];
    own_fills(claims, trades, traded, lines, &mut fills);
    if out.len() < sheet_width(claims, &fills, lines) {
        return Err(Refusal::OutputTooShort);
    }
    Ok(put_lines(out, claims, &fills, lines))
}
