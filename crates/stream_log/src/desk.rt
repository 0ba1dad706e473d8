//! What the owner knows of its log.

use crate::line::Line;
use crate::ticket::Ticket;
use std::collections::LinkedList;

/// The list, the words of the entry that is being stored, the threads whose tokens the owner holds, and a token that it took and
/// hasn't yet compared with the list. No value of it is made.
pub(crate) struct Desk {
    pub list: LinkedList<Line>,
    pub pending: LinkedList<u64>,
    pub held: LinkedList<u32>,
    pub kept: Option<Ticket>,
}
