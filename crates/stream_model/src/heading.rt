//! The headings of a stream file's sections.

/// The line that begins a section.
#[derive(Clone, Copy, Debug, PartialEq, Eq)]
pub enum Heading {
    Setup,
    /// The stream of a thread.
    Stream(u32),
    Teardown,
}
