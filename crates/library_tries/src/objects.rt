//! Runs of Objects.equals, Objects.hashCode, String.valueOf, StringBuilder.append.

ghost use Rattle.library_tries.specs.Programs.{AsTold};
ghost use Rattle.library_tries.specs.ObjectTries.{same_are_equal, nulls_are_equal, null_is_no_text, text_is_not_null, boxes_are_equal, texts_are_unequal, null_has_hash_0, hashes_are_equal, null_has_a_text, text_is_its_text, box_has_a_text, append_of_null, append_of_objects};

/// Objects.equals.
pub fn objects_are_compared()
    ensures same_are_equal { AsTold same_are_equal }
    ensures nulls_are_equal { AsTold nulls_are_equal }
    ensures null_is_no_text { AsTold null_is_no_text }
    ensures text_is_not_null { AsTold text_is_not_null }
    ensures boxes_are_equal { AsTold boxes_are_equal }
    ensures texts_are_unequal { AsTold texts_are_unequal }
{}

/// Objects.hashCode.
pub fn hashes_are_given()
    ensures null_has_hash_0 { AsTold null_has_hash_0 }
    ensures hashes_are_equal { AsTold hashes_are_equal }
{}

/// String.valueOf and StringBuilder.append.
pub fn texts_are_given()
    ensures null_has_a_text { AsTold null_has_a_text }
    ensures text_is_its_text { AsTold text_is_its_text }
    ensures box_has_a_text { AsTold box_has_a_text }
    ensures append_of_null { AsTold append_of_null }
    ensures append_of_objects { AsTold append_of_objects }
{}
