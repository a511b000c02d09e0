//! Runs of walks over collections, and faults.

ghost use Rattle.library_tries.specs.Programs.{AsTold};
ghost use Rattle.library_tries.specs.WalkTries.{walk_of_a_list, walk_of_a_set, walk_of_keys, walk_of_values, walk_behind_a_removal, change_in_a_walk, walk_past_the_end, place_outside, negative_capacity, list_as_a_key};

/// Collections are walked in order of insertion, and as they now are.
pub fn collections_are_walked()
    ensures walk_of_a_list { AsTold walk_of_a_list }
    ensures walk_of_a_set { AsTold walk_of_a_set }
    ensures walk_of_keys { AsTold walk_of_keys }
    ensures walk_of_values { AsTold walk_of_values }
    ensures walk_behind_a_removal { AsTold walk_behind_a_removal }
    ensures change_in_a_walk { AsTold change_in_a_walk }
{}

/// An end, a place, a capacity and a hash that aren't there throw.
pub fn collections_throw()
    ensures walk_past_the_end { AsTold walk_past_the_end }
    ensures place_outside { AsTold place_outside }
    ensures negative_capacity { AsTold negative_capacity }
    ensures list_as_a_key { AsTold list_as_a_key }
{}
