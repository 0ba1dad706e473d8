//! The parts of a chain of layers and its terminator as an exact machine on flat lists: what each keeps, what comes of a call on its way
//! down, and of its results on their way up.
//! Promises that a checking part's steps find what its history says, and keep it standing for that history.
//! Leaves to others the code of the parts, which is proved equal to these steps, and what a trace makes of them.
#![tactic(auto)]

mod examples;

ghost use Rattle.std.specs.Prelude.{◌≡◌, ℕ, false, true, List, ◌∷◌};
ghost use Rattle.command_tables.specs.Calls.{CallContent};
ghost use Rattle.object_model.specs.declared.PartKind.TheVariants as part;
ghost use Rattle.object_model.specs.declared.Object.{Object};
ghost use Rattle.object_model.specs.History.{Begins, Call, History, Returns};
ghost use Rattle.object_model.specs.Rules.{failures};
ghost use Rattle.object_model.specs.Uses.{overlaps};
ghost use Rattle.layer_model.specs.Parts.{LifeModel, UseModel, life_failures, life_leave, life_passed, unique_enter, unique_leave, use_enter, use_failures, use_leave};
ghost use Rattle.layer_model.specs.Ids.{IdMap};
ghost use Rattle.layer_model.specs.Walks.{intercepts};
ghost use Rattle.layer_model.specs.Histories.{LifeMirrors, UseMirrors};

/// A lifetimes part that stands for what it was given finds the failures of that history, and stands for the history with the next call,
/// passed on or skipped, and with the next results.
pub fn a_lifetimes_part_stands_for_its_history()
    ensures finds { (h : History) (m : LifeModel) (c : Call) → LifeMirrors h m → life_failures m c.cmd c.args ≡ failures h c }
    ensures passes { (h : History) (m : LifeModel) (c : Call) → LifeMirrors h m → LifeMirrors (Begins c false ∷ h) (life_passed m c.cmd c.args) }
    ensures skips { (h : History) (m : LifeModel) (c : Call) → LifeMirrors h m → LifeMirrors (Begins c true ∷ h) m }
    ensures leaves { (h : History) (m : LifeModel) (c : Call) (made : List Object) → LifeMirrors h m → LifeMirrors (Returns c made ∷ h) (life_leave m c.cmd c.args made) }
{}

/// The same of a threads part, which skips no call.
pub fn a_threads_part_stands_for_its_history()
    ensures finds { (h : History) (m : UseModel) (c : Call) → UseMirrors h m → use_failures m c.thread c.cmd c.args ≡ overlaps h c }
    ensures passes { (h : History) (m : UseModel) (c : Call) → UseMirrors h m → UseMirrors (Begins c false ∷ h) (use_enter m c.thread c.number c.cmd c.args) }
    ensures leaves { (h : History) (m : UseModel) (c : Call) (made : List Object) → UseMirrors h m → UseMirrors (Returns c made ∷ h) (use_leave m c.thread c.cmd c.args made) }
{}

/// A unique part that doesn't intercept a command changes neither the call nor its results, nor what it keeps: a table may leave it out.
pub fn a_part_may_be_left_out()
    ensures enters { (m : IdMap ℕ) (c : CallContent) → intercepts part.Unique c.cmd ≡ false → unique_enter m c ≡ c }
    ensures leaves { (m : IdMap ℕ) (c : CallContent) (results : List ℕ) → intercepts part.Unique c.cmd ≡ false →
        unique_leave m c results ≡ record { results = results; ids = m } }
{}
