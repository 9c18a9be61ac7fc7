// The run of logs and demand 3: the definitions in specs/ and the theorem in proofs/, which the log commit's contract cites.
// What the updates that a log asks leave of a sound stock: definitions and laws only.
#![tactic(auto)]

// Document 01's log entry: the axis and the index of a ray, the ends of an outer hit on it and those of an inner one.
#[derive(Clone, Copy, Debug, PartialEq)]
pub struct Entry {
    pub axis: f64,
    pub index: f64,
    pub outer_lo: f64,
    pub outer_hi: f64,
    pub inner_lo: f64,
    pub inner_hi: f64,
}
