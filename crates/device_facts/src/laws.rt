//! The law of devices that stand beside each other.
ghost use Rattle.std.specs.Prelude.{◌≡◌, ℕ, List, length};
ghost use Rattle.command_tables.specs.Calls.{ReplyContent};
ghost use Rattle.trace_format.specs.declared.event.Name.{Name};
ghost use Rattle.trace_format.specs.Content.{BeginEvent};
ghost use Rattle.replay_model.specs.Direct.{driver_calls, sends_in, valued};
ghost use Rattle.replay_model.specs.Judged.{begun_of, judged};
ghost use Rattle.replay_model.specs.Past.{is_skipped};
ghost use Rattle.replay_model.specs.Setup.{Setup};
ghost use Rattle.stream_model.specs.FileLines.{FileLine};
ghost use Rattle.stream_model.specs.FileParts.{parts};
ghost use Rattle.device_facts.specs.Apart.{ComesOn, device_replies, device_so_far, merged_so_far};

/// A call on a device has the same arguments, is skipped or not, and tells its drivers the same, behind what the threads of a stream file did on all
/// devices as behind what they did on its own device. Source of the rules of births, owners and ends: Vulkan 1.3 specification, "Fundamentals",
/// section "Object Lifetime".
pub fn a_device_is_by_itself()
    ensures args { (s : Setup) (lines : List FileLine) (device : Name) (turns : List ℕ) (b : BeginEvent) → ComesOn s lines device turns b →
        (begun_of s (judged s (merged_so_far (parts lines) turns)) b).opened.args ≡ (begun_of s (judged s (device_so_far (parts lines) device turns)) b).opened.args }
    ensures skipped { (s : Setup) (lines : List FileLine) (device : Name) (turns : List ℕ) (b : BeginEvent) → ComesOn s lines device turns b →
        is_skipped (begun_of s (judged s (merged_so_far (parts lines) turns)) b).opened ≡ is_skipped (begun_of s (judged s (device_so_far (parts lines) device turns)) b).opened }
    ensures drivers { (s : Setup) (lines : List FileLine) (device : Name) (turns : List ℕ) (b : BeginEvent) → ComesOn s lines device turns b →
        (begun_of s (judged s (merged_so_far (parts lines) turns)) b).opened.drivers ≡ (begun_of s (judged s (device_so_far (parts lines) device turns)) b).opened.drivers }
    ensures calls { (s : Setup) (lines : List FileLine) (device : Name) (turns : List ℕ) (b : BeginEvent) (replies : List ReplyContent) → ComesOn s lines device turns b →
        length replies ≡ sends_in (judged s (merged_so_far (parts lines) turns)) →
        driver_calls (valued (judged s (merged_so_far (parts lines) turns)) replies) (begun_of s (judged s (merged_so_far (parts lines) turns)) b).opened
        ≡ driver_calls (valued (judged s (device_so_far (parts lines) device turns)) (device_replies s (parts lines) device turns replies)) (begun_of s (judged s (device_so_far (parts lines) device turns)) b).opened }
{}
