//! Runs of the written methods of ArrayList.

ghost use Rattle.library_tries.specs.Programs.{AsTold};
ghost use Rattle.library_tries.specs.ListTries.{index_of_first, index_of_second, index_of_none, index_in_nothing, index_of_null, index_past_null, index_of_equal, index_of_twice, contains_second, contains_none, contains_null, contains_no_null, removal_in_the_middle, removal_of_none, removal_of_null, removal_of_one_of_two, removal_of_an_object, removal_of_a_place, equal_lists, equal_empty_lists, equal_nulls_in_lists, longer_list, shorter_list, lists_that_differ, null_in_a_list, list_and_null, list_and_text, lists_of_lists};

/// ArrayList.indexOf.
pub fn index_of()
    ensures index_of_first { AsTold index_of_first }
    ensures index_of_second { AsTold index_of_second }
    ensures index_of_none { AsTold index_of_none }
    ensures index_in_nothing { AsTold index_in_nothing }
    ensures index_of_null { AsTold index_of_null }
    ensures index_past_null { AsTold index_past_null }
    ensures index_of_equal { AsTold index_of_equal }
    ensures index_of_twice { AsTold index_of_twice }
{}

/// ArrayList.contains.
pub fn list_contains()
    ensures contains_second { AsTold contains_second }
    ensures contains_none { AsTold contains_none }
    ensures contains_null { AsTold contains_null }
    ensures contains_no_null { AsTold contains_no_null }
{}

/// ArrayList.remove, of an object and of a place.
pub fn list_removes()
    ensures removal_in_the_middle { AsTold removal_in_the_middle }
    ensures removal_of_none { AsTold removal_of_none }
    ensures removal_of_null { AsTold removal_of_null }
    ensures removal_of_one_of_two { AsTold removal_of_one_of_two }
    ensures removal_of_an_object { AsTold removal_of_an_object }
    ensures removal_of_a_place { AsTold removal_of_a_place }
{}

/// ArrayList.equals.
pub fn list_equals()
    ensures equal_lists { AsTold equal_lists }
    ensures equal_empty_lists { AsTold equal_empty_lists }
    ensures equal_nulls_in_lists { AsTold equal_nulls_in_lists }
    ensures longer_list { AsTold longer_list }
    ensures shorter_list { AsTold shorter_list }
    ensures lists_that_differ { AsTold lists_that_differ }
    ensures null_in_a_list { AsTold null_in_a_list }
    ensures list_and_null { AsTold list_and_null }
    ensures list_and_text { AsTold list_and_text }
    ensures lists_of_lists { AsTold lists_of_lists }
{}
