//! Runs of the written assertions of both classes.

ghost use Rattle.library_tries.specs.Programs.{AsTold};
ghost use Rattle.library_tries.specs.AssertionTries.{of_4, of_5, equal_holds, equal_fails, equal_throws, equal_throws_of_null, equal_throws_to_null, unequal_holds, unequal_fails, unequal_throws, unequal_throws_of_nulls};

/// The two of `org/junit/Assert`.
pub fn assertions_of_4()
    ensures equal_holds { AsTold (equal_holds of_4) }
    ensures equal_fails { AsTold (equal_fails of_4) }
    ensures equal_throws { AsTold (equal_throws of_4) }
    ensures equal_throws_of_null { AsTold (equal_throws_of_null of_4) }
    ensures equal_throws_to_null { AsTold (equal_throws_to_null of_4) }
    ensures unequal_holds { AsTold (unequal_holds of_4) }
    ensures unequal_fails { AsTold (unequal_fails of_4) }
    ensures unequal_throws { AsTold (unequal_throws of_4) }
    ensures unequal_throws_of_nulls { AsTold (unequal_throws_of_nulls of_4) }
{}

/// The two of `org/junit/jupiter/api/Assertions`.
pub fn assertions_of_5()
    ensures equal_holds { AsTold (equal_holds of_5) }
    ensures equal_fails { AsTold (equal_fails of_5) }
    ensures equal_throws { AsTold (equal_throws of_5) }
    ensures equal_throws_of_null { AsTold (equal_throws_of_null of_5) }
    ensures equal_throws_to_null { AsTold (equal_throws_to_null of_5) }
    ensures unequal_holds { AsTold (unequal_holds of_5) }
    ensures unequal_fails { AsTold (unequal_fails of_5) }
    ensures unequal_throws { AsTold (unequal_throws of_5) }
    ensures unequal_throws_of_nulls { AsTold (unequal_throws_of_nulls of_5) }
{}
