// "The day program reads a journal on standard input. It prints `refused 2 at 0` (number, place), or a list".
#![tactic(auto)]

#[derive(Drop)]
struct List;

impl List {
    // A line is told by a record of six numbers or more, so there are fewer than 5,462; it takes at most 25 bytes, as `16383 F 13 100000 100000` does with its LF.
    const ROOM: usize = 262144;
}

fn main(rt: HostRuntime) {
    feed::with_journal(&rt, |journal| {
        let mut list = [0u8; List::ROOM];
        let answered = answers::print_day(journal, &mut list);
        feed::answer(&rt, answered, &list, &mut rt.stdout());
    });
}
