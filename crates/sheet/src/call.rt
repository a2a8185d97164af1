// The calls on a sheet, as data.

// One call on a sheet: settle with so many bounds of the work area, strike or restore a zone, ask for the verdict.
#[derive(Clone, Copy, Debug, PartialEq, Eq)]
pub enum Call {
    Settle(usize),
    Strike(usize),
    Restore(usize),
    Verdict,
}
