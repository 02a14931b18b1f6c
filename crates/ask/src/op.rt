// What is asked: an entry by its number.
#[derive(Clone, Copy)]
pub enum Op {
    Journal,
    Day,
    Sheet,
    Check,
    Totals,
    WriteHeader,
    WriteRecord,
    ReadRecord,
    Rewrite,
}

// A number that no entry has.
#[derive(Clone, Copy)]
pub struct Unknown;

impl TryFrom<u8> for Op {
    type Error = Unknown;

    fn try_from(number: u8) -> Result<Op, Unknown> {
        match number {
            1 => Ok(Op::Journal),
            2 => Ok(Op::Day),
            3 => Ok(Op::Sheet),
            4 => Ok(Op::Check),
            5 => Ok(Op::Totals),
            6 => Ok(Op::WriteHeader),
            7 => Ok(Op::WriteRecord),
            8 => Ok(Op::ReadRecord),
            9 => Ok(Op::Rewrite),
            _ => Err(Unknown),
        }
    }
}
