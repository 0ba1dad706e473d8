//! Calls beside each other with what all share.
ghost use Rattle.std.specs.Prelude.{◌≡◌, length};
ghost use Rattle.std.specs.Thread.{IsSync};
ghost use Rattle.stream_threads.specs.Sharing.{Leaves, LeavesEach, Takes, TakesEach};

use std::thread;
use std::thread::Threads;

// A call by itself: within a closure the toolchain makes none of a function that takes two references.
fn call_with<Q, T, F: Fn(&Q, &mut T)>(f: &F, shared: &Q, item: &mut T)
    requires { Takes F.Fn f.now shared item.old }
    ensures { Leaves F.Fn f.entry.now shared.entry item.old item.new }
{
    f(shared, item)
}

/// Calls `f` with each item and with what all share, each in a thread of its own where one can be made. What is shared stands beside `f` and isn't
/// captured: the toolchain finds no proof that threads may share what holds stored functions beside the names that a trait brings.
pub(crate) fn each_with<H: Threads + Sync, Q: Sync, T: Send, F: Fn(&Q, &mut T) + Sync>(
    rt: &H,
    shared: &Q,
    items: &mut [T],
    f: &F,
)
    requires accepts { TakesEach F.Fn f.now shared items.old }
    ensures len { length items.new ≡ length items.old }
    ensures changes { LeavesEach F.Fn f.entry.now shared.entry items.old items.new }
{
    let count = items.len();
    if count == 0 {
        return;
    }
    thread::for_each_mut(
        rt,
        items,
        count,
        &|_i: usize, item: &mut T|
            requires sync { IsSync F.row × IsSync Q.row }
            requires pre { Takes F.Fn f.now shared item.now }
            ensures { Leaves F.Fn f.entry.now shared.entry item.entry.now item.exit.now }
        { call_with(f, shared, item) },
    );
}
