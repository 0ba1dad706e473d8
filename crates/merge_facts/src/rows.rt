//! Two logs of a small file in one order, by computation.
ghost use Rattle.std.specs.Prelude.{◌≡◌, [], ◌∷◌, codes, map};
ghost use Rattle.std.specs.List.{slice_index_or};
ghost use Rattle.trace_format.specs.Samples.{name};
ghost use Rattle.stream_model.specs.Samples.{read, two_by_two};
ghost use Rattle.merge_model.specs.Samples as merging;
ghost use Rattle.log_merge.specs.Merged.{IsLogMerge};
ghost use Rattle.merge_facts.specs.Logged.{AreLogsOf, AreLoggedBy, lines_between, numbered_entries, turns_behind};
ghost use Rattle.merge_facts.specs.Samples.{calls, calls_turned, devices, file, logs, all_entries, one_entry_dropped, said_by, said_by_log, tie_turned};

/// Two threads, each on two devices: what their logs say in one order is a merge, and of each device it is what the device's log says.
pub fn two_logs_in_one_order()
    ensures logs { AreLogsOf file devices logs calls }
    ensures merge { IsLogMerge logs all_entries }
    ensures places { map (map (λ c. c.planned.place)) calls ≡ (0 ∷ 1 ∷ 0 ∷ []) ∷ (0 ∷ 1 ∷ []) ∷ [] }
    ensures thread { lines_between 2 all_entries ≡ numbered_entries (slice_index_or calls 1 []) }
    ensures said { said_by all_entries ≡ merging.merged }
    ensures first_device { said_by_log 0 (name 1 3) ≡ merging.said_on (read two_by_two) (name 1 3) (merging.events_said (said_by all_entries)) }
    ensures other_device { said_by_log 1 (name 1 4) ≡
        codes "b 1 vkDeviceWaitIdle %1.4 VK_SUCCESS" ∷ codes "b 2 vkDeviceWaitIdle %1.4 VK_SUCCESS" ∷ codes "r 1" ∷ codes "r 2" ∷ [] }
{}

/// Of two entries of one time the greater thread's comes first, an entry is dropped, or calls stand in another order than a thread made them.
pub fn entries_in_no_order()
    ensures turned { IsLogMerge logs tie_turned → ⊥ }
    ensures dropped { IsLogMerge logs one_entry_dropped → ⊥ }
    ensures calls { AreLoggedBy logs 1 calls_turned → ⊥ }
{}
