// Where the values of an entry stand.
ghost use Rattle.std.specs.Prelude.{◌≡◌, ◌≤◌};

/// The values of an entry of a map, in 12 bytes: so many of the map's flat list, from `start` on.
#[derive(Clone, Copy)]
pub struct Span {
    pub start: u32,
    pub len: u32,
    /// How many values the entry can hold in its place.
    pub room: u32,
}

const _: () = prove!(size_of::<Span>() == 12);

/// So many values from a place on.
pub fn span_of(start: usize, len: usize) -> Span
    requires start { start ≤ 4294967295 }
    requires len { len ≤ 4294967295 }
    ensures { result ≡ record { start = start; len = len; room = len } }
{
    Span {
        start: start as u32,
        len: len as u32,
        room: len as u32,
    }
}

/// The span with other values in its place.
pub fn with_len(span: Span, len: usize) -> Span
    requires { len ≤ span.room }
    ensures { result ≡ record span { len = len } }
{
    Span {
        len: len as u32,
        ..span
    }
}
