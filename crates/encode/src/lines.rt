// Lines of numbers in decimal, each filled up with spaces to one length, so that a read takes one line.
ghost use Rattle.std.specs.Prelude.{◌≤◌};

use crate::Fault;
use std::io;
use std::slice::Iter;

#[derive(Drop)]
struct Line;

impl Line {
    // 229 numbers of at most ten digits and a space each, and some more
    const BYTES: usize = 4096;

    // A number that has passed this is kept as it is: it cannot be stored, however it goes on.
    const ENOUGH: u32 = 400000000;
}

fn figure(digit: u8) -> u32
    ensures { result ≤ 9 }
{
    match digit {
        b'0'..=b'9' => u32::from(digit - b'0'),
        _ => 0,
    }
}

fn with_digit(value: u32, digit: u8) -> u32 {
    if Line::ENOUGH < value {
        return value;
    }
    value * 10 + figure(digit)
}

// The next number, and what stands behind its last digit; where there is no number, 0.
fn number(text: &mut Iter<'_, u8>) -> u32 {
    text.skip_while(|byte| !byte.is_ascii_digit())
        .take_while(|byte| byte.is_ascii_digit())
        .fold(0, |value, digit| with_digit(value, *digit))
}

// The line's own number comes first, and is its answer; those after it fill the row. Or the input has ended.
pub fn read(rt: &(impl io::Input + Eprint), row: &mut [u32]) -> Result<Option<u32>, Fault> {
    let mut text = [0u8; Line::BYTES];
    let n = feed::standard_input(rt, &mut text).ok_or(Fault::Unread)?;
    if n == 0 {
        return Ok(None);
    }
    let mut text = text.iter();
    let line = number(&mut text);
    for cell in row.iter_mut() {
        *cell = number(&mut text);
    }
    Ok(Some(line))
}
