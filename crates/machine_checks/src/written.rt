//! Written methods of the library's table, each with what it has to be: what wrong ones are tried
//! on.

ghost use Rattle.std.specs.Prelude.{[], take};
ghost use Rattle.lib_table.specs.Collected as rows;
ghost use Rattle.lib_table.specs.Written as def;
ghost use Rattle.lib_table.specs.Rows.{IsWrittenBehind};

use lib_table::{ASSERT_UNEQUAL_OBJECTS, CodeRow, FIND_ENTRY, LIST_REMOVE, MAP_PUT};

/// `mt/Hashed.find(Object)`
pub fn find_entry() -> CodeRow
    ensures { IsWrittenBehind [] def.find_entry result }
{
    FIND_ENTRY
}

/// `HashMap.put(Object Object)`
pub fn map_put() -> CodeRow
    ensures { IsWrittenBehind (take 11 rows.hash_map_methods) def.map_put result }
{
    MAP_PUT
}

/// `ArrayList.remove(Object)`
pub fn list_remove() -> CodeRow
    ensures { IsWrittenBehind (take 15 rows.array_list_methods) def.list_remove result }
{
    LIST_REMOVE
}

/// `Assert.assertNotEquals(Object Object)`
pub fn assert_unequal_objects() -> CodeRow
    ensures { IsWrittenBehind (take 9 rows.assert_methods) def.assert_unequal_objects result }
{
    ASSERT_UNEQUAL_OBJECTS
}
