//! Runs of the written methods of HashSet.

ghost use Rattle.library_tries.specs.Programs.{AsTold};
ghost use Rattle.library_tries.specs.SetTries.{add_twice, add_of_one_hash, add_null_twice, contains_an_element, contains_one_of_the_hash, contains_not_null, contains_a_null, taken_from_the_middle, none_is_taken, none_of_the_hash_is_taken, null_is_taken};

/// HashSet.add.
pub fn set_adds()
    ensures add_twice { AsTold add_twice }
    ensures add_of_one_hash { AsTold add_of_one_hash }
    ensures add_null_twice { AsTold add_null_twice }
{}

/// HashSet.contains.
pub fn set_contains()
    ensures contains_an_element { AsTold contains_an_element }
    ensures contains_one_of_the_hash { AsTold contains_one_of_the_hash }
    ensures contains_not_null { AsTold contains_not_null }
    ensures contains_a_null { AsTold contains_a_null }
{}

/// HashSet.remove.
pub fn set_removes()
    ensures taken_from_the_middle { AsTold taken_from_the_middle }
    ensures none_is_taken { AsTold none_is_taken }
    ensures none_of_the_hash_is_taken { AsTold none_of_the_hash_is_taken }
    ensures null_is_taken { AsTold null_is_taken }
{}
