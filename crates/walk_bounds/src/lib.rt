//! How much a call can find, use and bear in the parts of a chain, by its size and the number of threads alone.
//! Promises bounds for which room can be taken before a trace is replayed, so that no call of it takes memory.
//! Leaves to others who takes the room.
#![tactic(auto)]

ghost use Rattle.std.specs.Prelude.{◌≡◌, ◌≤◌, ◌+◌, ◌*◌, ◌==◌, ℕ, true, List, length};
ghost use Rattle.std.specs.List.{list_any};
ghost use Rattle.command_tables.specs.Calls.{CallContent};
ghost use Rattle.object_model.specs.Uses.{InUse};
ghost use Rattle.layer_model.specs.Walks.{PartState, enter_parts, leave_parts};
ghost use Rattle.thread_layer.specs.Room.{uses_held};
ghost use Rattle.dispatch_chain.specs.Room.{AllCanOpen, AreRoomy, PartRoom};
ghost use Rattle.session_model.specs.Steps.{NoneOpen};
ghost use Rattle.walk_bounds.specs.Bounds.{AllHaveUses, AllLight, AreLight, HaveBorn, failures_most, uses_most, uses_together};

/// A walk finds in each part at most three failures at each argument, whatever was replayed before.
pub fn a_walk_finds_few()
    ensures { (thread number k : ℕ) (states : List PartState) (c : CallContent) → length (enter_parts thread number k states c).found.reports ≤ length states * failures_most c }
{}

/// No open call of a threads part has more uses than so many, where none had and the call that comes down can't; and each is of one of these
/// threads, no two of one, where the call's thread has none open. The uses of a call are bounded by its size and by how many objects were born.
pub fn a_walk_stays_light()
    ensures down { (n born : ℕ) (threads : List ℕ) (thread number k : ℕ) (states : List PartState) (c : CallContent) → uses_most born c ≤ n → HaveBorn born states → list_any (λ t. thread == t) threads ≡ true
        → NoneOpen thread states → AllLight n threads states → AllLight n threads (enter_parts thread number k states c).states }
    ensures up { (n : ℕ) (threads : List ℕ) (thread : ℕ) (states : List PartState) (forms : List CallContent) (hs : List ℕ) → AllLight n threads states → AllLight n threads (leave_parts thread states forms hs).states }
{}

/// A call on its way down bears nothing, and on its way up at most its results.
pub fn a_walk_bears_few()
    ensures down { (born thread number k : ℕ) (states : List PartState) (c : CallContent) → HaveBorn born states → HaveBorn born (enter_parts thread number k states c).states }
    ensures up { (born thread : ℕ) (states : List PartState) (forms : List CallContent) (hs : List ℕ) → HaveBorn born states → HaveBorn (born + length hs) (leave_parts thread states forms hs).states }
{}

/// The open calls of light parts are at most as many as the threads, with so many uses each.
pub fn light_calls_fit()
    ensures { (n : ℕ) (threads : List ℕ) (opens : List InUse) → AreLight n threads opens → (length opens ≤ length threads) × (uses_held opens ≤ length threads * n) }
{}

/// Parts with room for the uses of all threads together have room for what is open in them; and the room that is reserved for so many uses is that.
pub fn light_parts_are_roomy()
    ensures roomy { (n : ℕ) (threads : List ℕ) (states : List PartState) (rooms : List PartRoom) → AllLight n threads states → AllHaveUses (uses_together threads n) states rooms → AreRoomy states rooms }
    ensures reserved { (uses : ℕ) (states : List PartState) (rooms : List PartRoom) → AllCanOpen uses states rooms → AllHaveUses uses states rooms }
{}
