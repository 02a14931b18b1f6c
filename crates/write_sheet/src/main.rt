// Our own sheet of the journal on standard input, as bytes on standard output. A refusal goes to standard error: on standard output stands a whole sheet or nothing.
#![tactic(auto)]

use feed::Room;

fn main(rt: HostRuntime) {
    feed::with_journal(&rt, |journal| {
        let mut sheet = [0u8; Room::OWN_SHEET];
        let answered = answers::write_sheet(journal, &mut sheet);
        feed::answer(&rt, answered, &sheet, &mut rt.stderr());
    });
}
