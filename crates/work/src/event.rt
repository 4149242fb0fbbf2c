// What can happen: a tick; a hold; a go; the knob turned to a percent, above 100 meaning 100.
#[derive(Clone, Copy)]
pub enum Event {
    Tick,
    Hold,
    Go,
    Knob(u64),
}
