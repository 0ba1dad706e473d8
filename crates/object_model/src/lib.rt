//! Objects of a checker's history: which are born, owned and alive, when each written rule fails at a call, and what a call uses.
//! Promises the laws of these definitions: what is alive is born and not ended, and the numbers of objects do not matter.
//! Leaves to others what names and traces are, and which place of a chain is given which history.
#![tactic(auto)]

mod samples;

ghost use Rattle.std.specs.Prelude.{◌≡◌, Bool, true, not, ◌&&◌, map};
ghost use Rattle.object_model.specs.History.{History, Call, alive, is_born, is_ended, children};
ghost use Rattle.object_model.specs.Renaming.{renamed, renamed_call, renamed_use, IsOneToOne, KnowsAll, KnowsArgs};
ghost use Rattle.object_model.specs.Rules.{failures};
ghost use Rattle.object_model.specs.Uses.{uses, overlaps};

use command_tables::ObjectType;

/// An object of the application, known by its type and a number that it alone has in its type.
#[derive(Clone, Copy, Debug, PartialEq, Eq, Hash)]
pub struct Object {
    pub ty: ObjectType,
    pub number: u64,
}

/// What stands in one place of a call. A written name that stands for no object is `Unborn` and never `Null`.
#[derive(Clone, Copy, Debug, PartialEq, Eq)]
pub enum Argument {
    Null,
    Unborn,
    The(Object),
}

/// A checking or wrapping part of a layer. The parts of a chain are numbered from 1, from the application down.
#[derive(Clone, Copy, Debug, PartialEq, Eq)]
pub enum PartKind {
    /// Reports uses that overlap between threads.
    Threads,
    /// Reports arguments that don't live or have another owner, and parents that are destroyed before their children.
    Lifetimes,
    /// Gives the layers above it handles of its own.
    Unique,
}

/// An object and the number, from 0, of the driver that calls on it go to.
#[derive(Clone, Copy, Debug, PartialEq, Eq)]
pub struct Routed {
    pub object: Object,
    pub driver: u32,
}

/// An object is alive exactly where it is born and no call that isn't skipped, begun after its first birth, has ended it.
pub fn alive_is_born_and_not_ended()
    ensures { (h : History) (o : Object) → alive h o ≡ (is_born h o && not (is_ended h o)) }
{}

/// Other numbers for the same objects, one to one on those that are known, change nothing that is asked of a history.
pub fn numbers_do_not_matter()
    ensures alive { (known : Object → Bool) (f : Object → Object) → IsOneToOne known f →
        (h : History) → KnowsAll known h → (o : Object) → known o ≡ true → alive (renamed f h) (f o) ≡ alive h o }
    ensures children { (known : Object → Bool) (f : Object → Object) → IsOneToOne known f →
        (h : History) → KnowsAll known h → (o : Object) → known o ≡ true → children (renamed f h) (f o) ≡ map f (children h o) }
    ensures failures { (known : Object → Bool) (f : Object → Object) → IsOneToOne known f →
        (h : History) → KnowsAll known h → (c : Call) → KnowsArgs known c.args → failures (renamed f h) (renamed_call f c) ≡ failures h c }
    ensures uses { (known : Object → Bool) (f : Object → Object) → IsOneToOne known f →
        (h : History) → KnowsAll known h → (c : Call) → KnowsArgs known c.args →
        uses (renamed f h) (renamed_call f c) ≡ map (renamed_use f) (uses h c) }
    ensures overlaps { (known : Object → Bool) (f : Object → Object) → IsOneToOne known f →
        (h : History) → KnowsAll known h → (c : Call) → KnowsArgs known c.args → overlaps (renamed f h) (renamed_call f c) ≡ overlaps h c }
{}
