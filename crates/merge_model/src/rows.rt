//! A merge of a small file, by computation.
ghost use Rattle.std.specs.Prelude.{◌≡◌, [], ◌∷◌, codes, length, map, reverse};
ghost use Rattle.trace_format.specs.Samples.{name};
ghost use Rattle.stream_model.specs.Plans.{events_along};
ghost use Rattle.stream_model.specs.Samples.{read, spelled, two_by_two};
ghost use Rattle.merge_model.specs.Merges.{IsMerge};
ghost use Rattle.merge_model.specs.Samples.{events_said, merged, merged_turns, one_dropped, one_of_another, said_on, two_swapped, two_threads};

/// Two threads, each on two devices: what they do by turns is a merge, and on each device it is what they do there.
pub fn two_threads_merged()
    ensures read { map (λ s. length s.events) two_threads ≡ 6 ∷ 4 ∷ [] }
    ensures merge { IsMerge two_threads (events_said merged) }
    ensures by_turns { spelled (reverse (events_along two_threads (reverse merged_turns))) ≡ merged }
    ensures first_device { said_on (read two_by_two) (name 1 3) (events_said merged) ≡
        codes "b 2 vkCreateBuffer %1.3 = %2.1 VK_SUCCESS" ∷ codes "b 1 vkCreateFence %1.3 = %1.5 VK_SUCCESS" ∷ codes "r 2" ∷ codes "r 1" ∷ codes "b 1 vkGetFenceStatus %1.3 %1.5 VK_SUCCESS" ∷ codes "r 1" ∷ [] }
    ensures other_device { said_on (read two_by_two) (name 1 4) (events_said merged) ≡
        codes "b 1 vkDeviceWaitIdle %1.4 VK_SUCCESS" ∷ codes "b 2 vkDeviceWaitIdle %1.4 VK_SUCCESS" ∷ codes "r 1" ∷ codes "r 2" ∷ [] }
    ensures no_device { said_on (read two_by_two) (name 1 2) (events_said merged) ≡ [] }
{}

/// An event is dropped, two of one thread are swapped, or one is of a thread without a stream.
pub fn lists_that_are_no_merge()
    ensures dropped { IsMerge two_threads (events_said one_dropped) → ⊥ }
    ensures swapped { IsMerge two_threads (events_said two_swapped) → ⊥ }
    ensures of_another { IsMerge two_threads (events_said one_of_another) → ⊥ }
{}
