// When home cancelled each Satisfaction Order and named the exchange that initiated its trade. The tables of the survey keep no such time, so the
// records are read once more.
use counted::SatisfactionOrder;
use feed::records::Records;
use rows::Rec;

pub type Times = [Option<u32>; SatisfactionOrder::MOST];

// "the Satisfaction Order's number and the exchange named". An accepted journal cancels an order at most once, and names the initiator.
pub fn read(records: Records<'_>) -> Times {
    let mut times = [None; SatisfactionOrder::MOST];
    for entry in records {
        let rec = entry.taken.rec;
        if rec.kind == Rec::NAMING {
            let row = rec.row;
            if let Some(time) = times.get_mut(row[0] as usize) {
                *time = Some(rec.time);
            }
        }
    }
    times
}
