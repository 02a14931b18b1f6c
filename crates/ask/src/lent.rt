// Lent memory: what it holds before a call.
#[derive(Drop)]
pub struct Lent;

impl Lent {
    pub const BYTE: u8 = 0xA5;

    pub const WORD: u32 = 0xA5A5A5A5;

    pub const LONG: u64 = 0xA5A5A5A5A5A5A5A5;

    // One more than the reader of a record writes at most, and one more than there are day totals: the last must be kept.
    pub const WORDS: usize = desk::Handed::RECORD_WORDS_MOST + 1;

    pub const LONGS: usize = desk::Handed::TOTALS + 1;

    // Whether every byte is as it was lent. A loop, since in a build with checks `all` took five times as long.
    pub fn kept(out: &[u8]) -> bool {
        for byte in out {
            if *byte != Lent::BYTE {
                return false;
            }
        }
        true
    }
}
