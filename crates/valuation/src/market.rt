// The two markets that energy and reserve are settled in.
#[derive(Clone, Copy)]
pub enum Market {
    // What was scheduled the day before, at the prices of the day before.
    DayAhead,
    // What departs from that, at the prices of the day itself.
    RealTime,
}
