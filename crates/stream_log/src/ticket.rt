//! What a token knows of its log.

use crate::line::Line;
use std::collections::LinkedList;

/// A thread, and the list as it was when the thread's token was given. No value of it is made.
pub(crate) struct Ticket {
    pub thread: u32,
    pub list: LinkedList<Line>,
}
