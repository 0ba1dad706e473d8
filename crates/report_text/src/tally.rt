// The numbers of a session.

/// How many calls there were, how many of them were skipped, and how many reports.
#[derive(Clone, Copy, Debug, PartialEq, Eq)]
pub struct Tally {
    pub calls: u64,
    pub skipped: u64,
    pub reports: u64,
}
