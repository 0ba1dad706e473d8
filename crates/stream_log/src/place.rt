//! What a seat at a log's table knows.

use crate::desk::Desk;
use crate::ticket::Ticket;

/// The view of a seat: that of the owner, that of a thread's token, or that of a token that was taken back. No value of it is made.
pub(crate) enum Place {
    Owner(Desk),
    Token(Ticket),
    Spent,
}
