// A header out of a row of plain numbers, as other languages and a text hand it in; and how many numbers there are of it and of a record.
#![tactic(auto)]

ghost use Rattle.std.specs.Prelude.{◌≡◌, ◌+◌, ◌≤◌, length};
ghost use Rattle.rules.specs.Limits.{most_exchanges};
ghost use Rattle.rules.specs.Header.{sizes_of};
ghost use Rattle.given.specs.Given.{head_from};

use header::Head;
use limits::{Batch, FirmSize};

// How many numbers there are.
#[derive(Drop)]
pub struct Given;

impl Given {
    // home, N, close, sizes, of which 2N count
    pub const HEADER: usize = Head::NUMBERS;

    // fields of a record, of which as many count as it has
    pub const FIELDS: usize = 8;

    // kind, milliseconds, fields
    pub const RECORD_LEAST: usize = 2 + Given::FIELDS;

    // kind, milliseconds, the fields of the longest batch
    pub const RECORD_MOST: usize = 2 + Batch::WORDS;
}

#[tactic(auto, unfolding(crate::specs::Given::words_at))]
pub fn head_of(numbers: &[u32]) -> Head
    requires { 3 + sizes_of most_exchanges ≤ length numbers.now }
    ensures { result ≡ head_from numbers.now }
{
    let mut sizes = [0u32; FirmSize::WORDS];
    sizes.copy_from_slice(&numbers[Head::FRONT..Head::NUMBERS]);
    Head {
        home: numbers[0],
        exchanges: numbers[1],
        close: numbers[2],
        sizes,
    }
}
