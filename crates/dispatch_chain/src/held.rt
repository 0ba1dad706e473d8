//! The calls that are held on a walk down, for the walk up.
ghost use Rattle.std.specs.Prelude.{◌≡◌, ◌≤◌, ◌<◌, ◌+◌, ◌++◌, ◌∷◌, ℕ, [], length, map, slice_get, take, IfOk, IsOk, OnErr, OnOk, Some};
ghost use Rattle.command_tables.specs.Calls.{call_content};
ghost use Rattle.object_records.specs.Shape.{HasParams};
ghost use Rattle.dispatch_chain.specs.Forms.{AreForms, FitsForm, FormRoom, KeepsForms, form_room};
ghost use Rattle.dispatch_chain.specs.Holding.{AllShaped};

use command_tables::{CommandId, LayerCall, NoMemory};
use std::alloc::Global;
use std::marker::Model;

/// The call as it stood above each part that it came to, from the application down, in buffers that later walks use again. Contracts see
/// besides how much each buffer can hold with no further memory.
pub struct Held {
    alloc: Global,
    cmd: CommandId,
    forms: Vec<LayerCall>,
    // How many of the forms are held.
    count: usize,
}

impl Drop for Held {
    fn drop(self) {
        let Held {
            alloc: _alloc,
            cmd: _cmd,
            forms: _forms,
            count: _count,
        } = self;
    }
}

impl Model for Held {
    ghost use Rattle.std.specs.Prelude.{map, take};
    ghost use Rattle.command_tables.specs.Calls.{call_content};
    ghost use Rattle.dispatch_chain.specs.Forms.{form_room};
    ghost use Rattle.dispatch_chain.specs.Holding.{AreHeld, HeldCalls};

    ghost Value = { HeldCalls };

    ghost view = { λ h. record { cmd = h.cmd; forms = map call_content (take h.count h.forms.items); rooms = map form_room h.forms.items } };

    ghost invariant = { λ h. AreHeld h.cmd h.count h.forms.items };
}

// There is a form behind so many.
#[tactic(auto, using(crate::proofs::Buffers::keeps_same, crate::proofs::Buffers::keeps_more))]
fn make_room(alloc: Global, forms: &mut Vec<LayerCall>, count: usize) -> Result<(), NoMemory>
    requires { count ≤ length forms.old.items }
    ensures within { count ≤ length forms.new.items }
    ensures room { OnOk result (count < length forms.new.items) }
    ensures kept { take count forms.new.items ≡ take count forms.old.items }
    ensures same { count < length forms.old.items → forms.new.items ≡ forms.old.items }
    ensures succeeds { count < length forms.old.items → IsOk result }
    ensures rooms { KeepsForms (map form_room forms.old.items) (map form_room forms.new.items) }
{
    if count == forms.len() {
        let form = LayerCall::with_room(alloc, 0, 0)?;
        forms.push(form)?;
    }
    Ok(())
}

// The form behind so many becomes the call.
#[tactic(auto, using(crate::proofs::Holding::put_behind, crate::proofs::Buffers::fits_there, crate::proofs::Buffers::keeps_set))]
fn refill(forms: &mut Vec<LayerCall>, count: usize, call: &LayerCall) -> Result<(), NoMemory>
    requires { count < length forms.old.items }
    ensures within { count < length forms.new.items }
    ensures kept { take count forms.new.items ≡ take count forms.old.items }
    ensures held { OnOk result (map call_content (take (count + 1) forms.new.items) ≡ map call_content (take count forms.old.items) ++ call_content call.now ∷ []) }
    ensures succeeds { ((r : FormRoom) → slice_get (map form_room forms.old.items) count ≡ Some r → FitsForm r (call_content call.now)) → IsOk result }
    ensures rooms { KeepsForms (map form_room forms.old.items) (map form_room forms.new.items) }
{
    forms[count].copy_from(call)?;
    Ok(())
}

// So many buffers, each with so much room.
#[tactic(auto, using(crate::proofs::Buffers::no_buffers, crate::proofs::Buffers::buffer_more, crate::proofs::Buffers::buffers_made))]
fn buffers(
    alloc: Global,
    parts: usize,
    handles: usize,
    bytes: usize,
) -> Result<Vec<LayerCall>, NoMemory>
    ensures { IfOk result (λ forms. AreForms (map form_room forms.items) parts handles bytes) }
{
    let mut forms = Vec::with_capacity(alloc, parts)?;
    for _part in 0..parts {
        forms.push(LayerCall::with_room(alloc, handles, bytes)?)?;
    }
    Ok(forms)
}

impl Held {
    /// No call is held.
    pub fn new(alloc: Global) -> Held
        ensures { result.forms ≡ [] }
    {
        Held {
            alloc,
            cmd: CommandId::CreateInstance,
            forms: Vec::new(alloc),
            count: 0,
        }
    }

    /// No call is held, and calls of so many parts can be held with no further memory, each with so many handles and payload bytes.
    pub fn with_room(
        alloc: Global,
        parts: usize,
        handles: usize,
        bytes: usize,
    ) -> Result<Held, NoMemory>
        ensures forms { IfOk result (λ held. held.forms ≡ []) }
        ensures rooms { IfOk result (λ held. AreForms held.rooms parts handles bytes) }
    {
        Ok(Held {
            alloc,
            cmd: CommandId::CreateInstance,
            forms: buffers(alloc, parts, handles, bytes)?,
            count: 0,
        })
    }

    /// The calls that are held.
    pub fn forms(&self) -> &[LayerCall]
        ensures forms { map call_content result.now ≡ self.now.forms }
        ensures shaped { AllShaped self.now.cmd self.now.forms }
    {
        &self.forms[..self.count]
    }

    /// No call is held any more; their room stays.
    pub fn clear(&mut self)
        ensures forms { self.new.forms ≡ [] }
        ensures rooms { self.new.rooms ≡ self.old.rooms }
    {
        self.count = 0;
    }

    // A walk of a command begins.
    pub(crate) fn begin(&mut self, cmd: CommandId)
        ensures { self.new ≡ record { cmd = cmd; forms = []; rooms = self.old.rooms } }
    {
        self.cmd = cmd;
        self.count = 0;
    }

    /// The command of the call that is held.
    pub fn command(&self) -> CommandId
        ensures { result ≡ self.now.cmd }
    {
        self.cmd
    }

    // A further call is held.
    #[tactic(auto, using(crate::proofs::Holding::shaped_more))]
    pub(crate) fn hold(&mut self, call: &LayerCall) -> Result<(), NoMemory>
        requires cmd { call.now.cmd ≡ self.old.cmd }
        requires shape { HasParams call.now }
        ensures cmd { self.new.cmd ≡ self.old.cmd }
        ensures forms { OnOk result (self.new.forms ≡ self.old.forms ++ call_content call.now ∷ []) }
        ensures err { OnErr result (self.new.forms ≡ self.old.forms) }
        ensures succeeds { length self.old.forms < length self.old.rooms → ((r : FormRoom) → slice_get self.old.rooms (length self.old.forms) ≡ Some r → FitsForm r (call_content call.now)) → IsOk result }
        ensures rooms { KeepsForms self.old.rooms self.new.rooms }
    {
        make_room(self.alloc, &mut self.forms, self.count)?;
        refill(&mut self.forms, self.count, call)?;
        self.count += 1;
        Ok(())
    }
}
