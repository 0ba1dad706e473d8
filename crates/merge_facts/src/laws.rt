//! The laws of logs in one order.
ghost use Rattle.std.specs.Prelude.{◌≡◌, ◌++◌, ◌∷◌, ℕ, List, None, Some, map, reverse, slice_get};
ghost use Rattle.trace_format.specs.declared.event.Name.{Name};
ghost use Rattle.stream_log.specs.declared.line.Line.{Line};
ghost use Rattle.stream_model.specs.FileLines.{FileLine};
ghost use Rattle.stream_model.specs.FileParts.{parts};
ghost use Rattle.stream_model.specs.Order.{event_thread};
ghost use Rattle.stream_model.specs.Plans.{Along, device_written, events_along, next_turn, plan_cut};
ghost use Rattle.merge_model.specs.Merges.{AreAllTaken, IsMerge, events_on};
ghost use Rattle.log_merge.specs.Merged.{IsLogMerge, NumberedLine, lines_of_log};
ghost use Rattle.merge_facts.specs.Logged.{AreLoggedBy, AreLogsOf, LoggedCall, lines_between, numbered_entries, turns_behind};

/// The entries of a thread stand in the order in which it made them, each from the log of its call.
pub fn a_thread_stands_as_it_was_made()
    ensures { (logs : List (List Line)) (merged : List NumberedLine) (thread : ℕ) (calls : List LoggedCall) → IsLogMerge logs merged → AreLoggedBy logs thread calls →
        lines_between thread merged ≡ numbered_entries calls }
{}

/// The events that the entries say, each the next of its thread, are a merge of the file's streams.
pub fn logs_say_a_merge()
    ensures along { (lines : List FileLine) (devices : List Name) (logs : List (List Line)) (calls : List (List LoggedCall)) (merged : List NumberedLine) → AreLogsOf lines devices logs calls → IsLogMerge logs merged →
        Along (parts lines).streams (turns_behind merged) }
    ensures taken { (lines : List FileLine) (devices : List Name) (logs : List (List Line)) (calls : List (List LoggedCall)) (merged : List NumberedLine) → AreLogsOf lines devices logs calls → IsLogMerge logs merged →
        AreAllTaken (parts lines).streams (turns_behind merged) }
    ensures merge { (lines : List FileLine) (devices : List Name) (logs : List (List Line)) (calls : List (List LoggedCall)) (merged : List NumberedLine) → AreLogsOf lines devices logs calls → IsLogMerge logs merged →
        IsMerge (parts lines).streams (reverse (events_along (parts lines).streams (turns_behind merged))) }
{}

/// Of a device the events of the first entries are those of its log's entries among them, by the device's plan; and each entry is the same event by
/// the file as by the plan of its log's device.
pub fn each_log_is_its_device_of_the_merge()
    ensures turns { (lines : List FileLine) (devices : List Name) (logs : List (List Line)) (calls : List (List LoggedCall)) (merged front rest : List NumberedLine) (k : ℕ) (device : Name) → AreLogsOf lines devices logs calls → IsLogMerge logs merged →
        merged ≡ front ++ rest → slice_get devices k ≡ Some device →
        map event_thread (events_on (device_written (parts lines)) device (events_along (parts lines).streams (turns_behind front))) ≡ reverse (map (λ e. e.thread) (lines_of_log k front)) }
    ensures events { (lines : List FileLine) (devices : List Name) (logs : List (List Line)) (calls : List (List LoggedCall)) (merged front rest : List NumberedLine) (k : ℕ) (device : Name) → AreLogsOf lines devices logs calls → IsLogMerge logs merged →
        merged ≡ front ++ rest → slice_get devices k ≡ Some device →
        events_on (device_written (parts lines)) device (events_along (parts lines).streams (turns_behind front)) ≡ events_along (plan_cut (parts lines) device).streams (reverse (map (λ e. e.thread) (lines_of_log k front))) }
    ensures next { (lines : List FileLine) (devices : List Name) (logs : List (List Line)) (calls : List (List LoggedCall)) (merged front rest : List NumberedLine) (x : NumberedLine) (device : Name) → AreLogsOf lines devices logs calls → IsLogMerge logs merged →
        merged ≡ front ++ x ∷ rest → slice_get devices x.log ≡ Some device →
        next_turn (parts lines).streams x.line.thread (turns_behind front) ≡ next_turn (plan_cut (parts lines) device).streams x.line.thread (reverse (map (λ e. e.thread) (lines_of_log x.log front))) }
{}
