//! Runs of `find` of mt/Hashed, and the written methods of HashMap.

ghost use Rattle.library_tries.specs.Programs.{AsTold};
ghost use Rattle.library_tries.specs.MapTries.{find_in_nothing, find_first, find_second, find_second_of_one_hash, find_none_of_the_hash, find_none, find_null, find_null_of_empty, find_equal, get_found, get_none, get_of_one_hash, get_none_of_the_hash, get_of_null, get_a_null, put_a_new_key, put_replaces, put_of_one_hash, put_null_twice, remove_in_the_middle, remove_none, remove_none_of_the_hash, remove_null, contains_second_key, contains_no_key, contains_key_null};

/// `find` of mt/Hashed.
pub fn find()
    ensures find_in_nothing { AsTold find_in_nothing }
    ensures find_first { AsTold find_first }
    ensures find_second { AsTold find_second }
    ensures find_second_of_one_hash { AsTold find_second_of_one_hash }
    ensures find_none_of_the_hash { AsTold find_none_of_the_hash }
    ensures find_none { AsTold find_none }
    ensures find_null { AsTold find_null }
    ensures find_null_of_empty { AsTold find_null_of_empty }
    ensures find_equal { AsTold find_equal }
{}

/// HashMap.get.
pub fn map_gets()
    ensures get_found { AsTold get_found }
    ensures get_none { AsTold get_none }
    ensures get_of_one_hash { AsTold get_of_one_hash }
    ensures get_none_of_the_hash { AsTold get_none_of_the_hash }
    ensures get_of_null { AsTold get_of_null }
    ensures get_a_null { AsTold get_a_null }
{}

/// HashMap.put.
pub fn map_puts()
    ensures put_a_new_key { AsTold put_a_new_key }
    ensures put_replaces { AsTold put_replaces }
    ensures put_of_one_hash { AsTold put_of_one_hash }
    ensures put_null_twice { AsTold put_null_twice }
{}

/// HashMap.remove.
pub fn map_removes()
    ensures remove_in_the_middle { AsTold remove_in_the_middle }
    ensures remove_none { AsTold remove_none }
    ensures remove_none_of_the_hash { AsTold remove_none_of_the_hash }
    ensures remove_null { AsTold remove_null }
{}

/// HashMap.containsKey.
pub fn map_contains()
    ensures contains_second_key { AsTold contains_second_key }
    ensures contains_no_key { AsTold contains_no_key }
    ensures contains_key_null { AsTold contains_key_null }
{}
