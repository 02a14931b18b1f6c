// Checks a sheet against its journal: `check_sheet JOURNAL SHEET` prints `accepted`, or the refusal.
#![tactic(auto)]

use std::env;

// Prints the check's answer.
fn check(rt: &HostRuntime, journal: &[u8], sheet: &[u8]) {
    match answers::check_sheet(journal, sheet) {
        Ok(()) => feed::print(rt, "accepted\n"),
        Err(refused) => feed::say_refused(&mut rt.stdout(), refused),
    }
}

fn main(rt: HostRuntime) {
    let Some(mut words) = feed::or_say(&rt, "argument", env::args(&rt)) else {
        return;
    };
    match (words.next(), words.next(), words.next(), words.next()) {
        (_, Some(journal), Some(sheet), None) => {
            feed::with_files(&rt, journal.as_str(), sheet.as_str(), |journal, sheet| {
                check(&rt, journal, sheet);
            });
        }
        _ => {
            let _ = eprintln!(rt; "usage: check_sheet JOURNAL SHEET");
        }
    }
}
