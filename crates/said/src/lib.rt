// What a sheet says, read into memory. Bytes that are not "exactly three readable numbers per Satisfaction Order" are refused here (20).
#![tactic(auto)]

ghost use Rattle.std.specs.Prelude.{◌≡◌, ◌≤◌, length};
ghost use Rattle.rules.specs.Limits.{most_satisfaction_orders};
ghost use Rattle.said.specs.Said.{three_at, LinesRead, SheetRead};

use counted::SatisfactionOrder;
use rows::{Refusal, Refused};

// "A sheet line: reason, filled, cancelled."
#[derive(Clone, Copy)]
pub struct Said {
    pub reason: u32,
    pub filled: u32,
    pub cancelled: u32,
}

impl Said {
    // A line that is not read yet.
    pub const NOTHING: Said = Said {
        reason: 0,
        filled: 0,
        cancelled: 0,
    };
}

// One line of a sheet with the place after it, or the place of the number that can't be read.
fn read_line(sheet: &[u8], at: usize) -> Result<(Said, usize), usize>
    ensures { result ≡ three_at sheet.now at }
{
    let Some((reason, after_reason)) = number::read_at(sheet, at) else {
        return Err(at);
    };
    let Some((filled, after_filled)) = number::read_at(sheet, after_reason) else {
        return Err(after_reason);
    };
    let Some((cancelled, next)) = number::read_at(sheet, after_filled) else {
        return Err(after_filled);
    };
    Ok((
        Said {
            reason,
            filled,
            cancelled,
        },
        next,
    ))
}

// How many lines could be read, and the place after the last of them, or of the number that can't be read. No Result: `explain` tells
// both, whether a number can't be read or not.
#[derive(Clone, Copy)]
pub struct Reach {
    pub lines: usize,
    pub place: usize,
}

// The first lines of a sheet, as many as are asked for, or those before a number that can't be read.
pub fn read_lines(sheet: &[u8], lines: usize, said: &mut [Said; SatisfactionOrder::MOST]) -> Reach
    requires { (lines ≤ most_satisfaction_orders) × (length said.old ≡ most_satisfaction_orders) }
    ensures { LinesRead sheet.now lines said.new result }
{
    let mut at: usize = 0;
    for i in 0..lines {
        match read_line(sheet, at) {
            Ok((line, next)) => {
                said[i] = line;
                at = next;
            }
            Err(place) => {
                return Reach { lines: i, place };
            }
        }
    }
    Reach { lines, place: at }
}

// 20: "exactly three readable numbers per Satisfaction Order". Where the sheet ends too early, no number can be read at its end.
pub fn read_sheet(
    sheet: &[u8],
    lines: usize,
    said: &mut [Said; SatisfactionOrder::MOST],
) -> Result<(), Refused>
    requires { (lines ≤ most_satisfaction_orders) × (length said.old ≡ most_satisfaction_orders) }
    ensures { SheetRead sheet.now lines said.new result }
{
    let reach = read_lines(sheet, lines, said);
    let place = reach.place;
    if reach.lines < lines || place < sheet.len() {
        return Err(Refusal::NotThreeEach.at(place));
    }
    Ok(())
}
