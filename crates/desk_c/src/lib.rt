// The desk's functions under their C names: each is desk's own, with desk's contract. include/hasurenta.h declares them.
#![tactic(auto)]

ghost use Rattle.std.specs.Prelude.{◌≡◌, length};
ghost use Rattle.rules.specs.Journal.{journal};
ghost use Rattle.rules.specs.SheetCheck.{check_sheet};
ghost use Rattle.rules.specs.Writing.{rewrite_journal, write_sheet, write_day};
ghost use Rattle.desk.specs.Exports.{code_of, unwritten, Gives, write_totals};
ghost use Rattle.desk.specs.Records.{write_header_from, write_record_from, read_record_from};

#[unsafe(no_mangle)]
pub extern "C" fn hasurenta_journal(j: &[u8]) -> u64
    ensures { result ≡ code_of (unwritten (journal j.now)) }
{
    desk::hasurenta_journal(j)
}

#[unsafe(no_mangle)]
pub extern "C" fn hasurenta_totals(j: &[u8], out: &mut [u64]) -> u64
    ensures { Gives (write_totals j.now (length out.old)) out.old result out.new }
{
    desk::hasurenta_totals(j, out)
}

#[unsafe(no_mangle)]
pub extern "C" fn hasurenta_day(j: &[u8], out: &mut [u8]) -> u64
    ensures { Gives (write_day j.now (length out.old)) out.old result out.new }
{
    desk::hasurenta_day(j, out)
}

#[unsafe(no_mangle)]
pub extern "C" fn hasurenta_sheet(j: &[u8], out: &mut [u8]) -> u64
    ensures { Gives (write_sheet j.now (length out.old)) out.old result out.new }
{
    desk::hasurenta_sheet(j, out)
}

#[unsafe(no_mangle)]
pub extern "C" fn hasurenta_check(j: &[u8], sheet: &[u8]) -> u64
    ensures { result ≡ code_of (unwritten (check_sheet j.now sheet.now)) }
{
    desk::hasurenta_check(j, sheet)
}

#[unsafe(no_mangle)]
pub extern "C" fn hasurenta_rewrite(j: &[u8], out: &mut [u8]) -> u64
    ensures { Gives (rewrite_journal j.now (length out.old)) out.old result out.new }
{
    desk::hasurenta_rewrite(j, out)
}

#[unsafe(no_mangle)]
pub extern "C" fn hasurenta_write_header(numbers: &[u32], out: &mut [u8]) -> u64
    ensures { Gives (write_header_from numbers.now (length out.old)) out.old result out.new }
{
    desk::hasurenta_write_header(numbers, out)
}

#[unsafe(no_mangle)]
pub extern "C" fn hasurenta_write_record(numbers: &[u32], out: &mut [u8]) -> u64
    ensures { Gives (write_record_from numbers.now (length out.old)) out.old result out.new }
{
    desk::hasurenta_write_record(numbers, out)
}

#[unsafe(no_mangle)]
pub extern "C" fn hasurenta_read_record(numbers: &[u32], bytes: &[u8], out: &mut [u32]) -> u64
    ensures { Gives (read_record_from numbers.now bytes.now (length out.old)) out.old result out.new }
{
    desk::hasurenta_read_record(numbers, bytes, out)
}
