// What a desk asks of a journal beyond its acceptance and its totals: the printed day, our own sheet, and the check of any sheet.
#![tactic(auto)]

ghost use Rattle.std.specs.Prelude.{◌≡◌, ◌≤◌, length};
ghost use Rattle.rules.specs.Limits.{most_trades, most_satisfaction_orders};
ghost use Rattle.rules.specs.Writing.{write_day, write_sheet};
ghost use Rattle.rules.specs.SheetCheck.{check_sheet};
ghost use Rattle.number.specs.Writing.{leaves};
ghost use Rattle.journal.specs.Entries.{left_by};
ghost use Rattle.claims.specs.Lines.{Filing};
ghost use Rattle.list.specs.Listing.{most_rows, list_words};
ghost use Rattle.checker.specs.Check.{checked_as};
ghost use Rattle.answers.specs.Answers.{answered_as, DayPrinted};

use claims::Line;
use counted::SatisfactionOrder;
use list::Row;
use rows::{Refusal, Refused};
use survey::Surveyed;
use trades::{Shown, Trades};

// "A writer's place is always 0"
fn answered(written: Result<usize, Refusal>) -> Result<usize, Refused>
    ensures { result ≡ answered_as written }
{
    written.map_err(|refusal| refusal.at(0))
}

// The list of a whole journal whose tables these are, F from our own sheet.
fn print_whole(
    claims: &[u32; Line::WORDS],
    trades: &[u32; Trades::WORDS],
    whole: Surveyed,
    rows: &[u32],
    out: &mut [u8],
) -> Result<usize, Refused>
    requires traded_le_most_trades { (whole.trades ≤ most_trades) × Filing claims.now whole.lines }
    requires listed_le_most_rows { (whole.listed ≤ most_rows) × (length rows.now ≡ list_words) × (whole.lines ≤ most_satisfaction_orders) }
    ensures { DayPrinted claims.now trades.now whole.trades whole.lines rows.now whole.listed out.old result out.new }
{
    let mut fills = [0u32; SatisfactionOrder::MOST];
    sheet::own_fills(claims, trades, whole.trades, whole.lines, &mut fills);
    answered(printed::print(rows, whole.listed, claims, &fills, whole.lines, out))
}

// "a list, each line ended by LF": the verdict on every event. The journal's refusal, then 9.
pub fn print_day(s: &[u8], out: &mut [u8]) -> Result<usize, Refused>
    ensures { left_by result out.new ≡ leaves (write_day s.now (length out.old)) out.old }
{
    let mut trades = [0u32; Trades::WORDS];
    let mut shown = [0u32; Shown::WORDS];
    let mut claims = [0u32; Line::WORDS];
    let mut rows = [0u32; Row::MOST * Row::WORDS];
    let whole = survey::survey(s, &mut trades, &mut shown, &mut claims, &mut rows)?;
    print_whole(&claims, &trades, whole, &rows, out)
}

// "Sheet writer: the journal's refusal, then 9."
pub fn write_sheet(s: &[u8], out: &mut [u8]) -> Result<usize, Refused>
    ensures { left_by result out.new ≡ leaves (write_sheet s.now (length out.old)) out.old }
{
    let mut trades = [0u32; Trades::WORDS];
    let mut shown = [0u32; Shown::WORDS];
    let mut claims = [0u32; Line::WORDS];
    let mut rows = [0u32; 1];
    let whole = survey::survey(s, &mut trades, &mut shown, &mut claims, &mut rows)?;
    answered(sheet::write_own(&claims, &trades, whole.trades, whole.lines, out))
}

// "Sheet order: the journal's refusal first; 20; then line by line 21, 22, 24; then trade by trade 25, 26."
pub fn check_sheet(s: &[u8], sheet: &[u8]) -> Result<(), Refused>
    ensures { checked_as result ≡ check_sheet s.now sheet.now }
{
    let mut trades = [0u32; Trades::WORDS];
    let mut shown = [0u32; Shown::WORDS];
    let mut claims = [0u32; Line::WORDS];
    let mut rows = [0u32; 1];
    let accepted = survey::survey(s, &mut trades, &mut shown, &mut claims, &mut rows)?;
    checker::check_sheet(&claims, &trades, accepted.trades, accepted.lines, sheet)
}
