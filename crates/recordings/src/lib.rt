// Two recordings of one frame, by two receivers on one mast (request E9): which of them is chosen, and what is true of it. It has no code.
#![tactic(auto)]

// Which recording is chosen.
#[derive(Clone, Copy, Debug, PartialEq, Eq)]
pub enum Which {
    First,
    Second,
}
