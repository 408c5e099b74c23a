//! What a crash leaves of one line, shown by examples.
ghost use Rattle.std.specs.Prelude.{[], ◌∷◌, ◌++◌, codes};
ghost use Rattle.line_model.specs.Replies.{Device, Pairs};
ghost use Rattle.line_model.specs.Requests.{Get, Put, Range};
ghost use Rattle.map_model.specs.SortedMap.{Map};
ghost use Rattle.surf_run.specs.MapCrash.{IsDevice, IsMapAfter, IsOldOrNewMap, KeepsOneMap};

/// With no line to follow the map is the one that is there. Before its `ok` a put may be there or not; from the first byte of
/// `ok` on it is there; where `device` is said it may be there or not; where `memory` is said it was never there.
pub fn one_put()
    ensures no_line { IsMapAfter [] [] [] [] [] }
    ensures not_there { IsOldOrNewMap [] (Put (97 ∷ []) (98 ∷ [])) [] }
    ensures there { IsOldOrNewMap [] (Put (97 ∷ []) (98 ∷ [])) ((97 ∷ [], 98 ∷ []) ∷ []) }
    ensures nothing_said { IsMapAfter [] (codes "put 61 62" ∷ []) [] [] ((97 ∷ [], 98 ∷ []) ∷ []) }
    ensures before_ok { IsMapAfter [] (codes "put 61 62" ∷ []) [] (codes "ok" ++ 10 ∷ codes "none") ((97 ∷ [], 98 ∷ []) ∷ []) }
    ensures before_memory { IsMapAfter [] (codes "put 61 62" ∷ []) [] (codes "m") ((97 ∷ [], 98 ∷ []) ∷ []) → ⊥ }
    ensures part_of_ok { IsMapAfter [] (codes "put 61 62" ∷ []) (codes "o") [] ((97 ∷ [], 98 ∷ []) ∷ []) }
    ensures part_of_device { IsMapAfter [] (codes "put 61 62" ∷ []) (codes "d") (codes "e") [] }
    ensures device_after_the_write { IsMapAfter [] (codes "put 61 62" ∷ []) (codes "d") (codes "e") ((97 ∷ [], 98 ∷ []) ∷ []) }
    ensures ok_said { KeepsOneMap [] (codes "put 61 62" ∷ []) [] (codes "ok" ++ 10 ∷ []) 3 ((97 ∷ [], 98 ∷ []) ∷ []) }
{}

/// What is said later judges what a crash leaves now: a put that is refused was not there before its reply, whatever the next
/// one is answered; and once a reply was said, the next is judged by what comes after it.
pub fn two_puts()
    ensures refused_was_never_there { KeepsOneMap [] (codes "put 61 62" ∷ codes "put 63 64" ∷ []) [] (codes "memory" ++ 10 ∷ codes "ok" ++ 10 ∷ []) 0 ((97 ∷ [], 98 ∷ []) ∷ []) → ⊥ }
    ensures next_may_be_there { KeepsOneMap [] (codes "put 61 62" ∷ codes "put 63 64" ∷ []) [] (codes "memory" ++ 10 ∷ codes "ok" ++ 10 ∷ []) 7 ((99 ∷ [], 100 ∷ []) ∷ []) }
{}

/// Before `device` come pairs of a range alone, and those of the map.
pub fn failed_reads()
    ensures of_a_range { IsDevice ((97 ∷ [], 98 ∷ []) ∷ []) (Range [] (97 ∷ []) 2) (Pairs ((97 ∷ [], 98 ∷ []) ∷ []) Device) }
    ensures of_a_get { (found : Map) → IsDevice [] (Get (97 ∷ [])) (Pairs found Device) → ⊥ }
{}
