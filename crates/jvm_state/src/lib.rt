//! What a machine's frames hold, and the rows that touch the top frame alone.
#![tactic(auto)]

mod acting;
mod frame;
mod jumping;
mod locals;
mod op;
mod operating;
mod pushing;
mod slot;
mod stacking;
mod store;
mod words;

pub use acting::act;
pub use frame::Frame;
pub use jumping::{
    branch_on_int, branch_on_ints, branch_on_null, branch_on_references, go_on, go_to, key_target,
    switch_by_keys, switch_by_table, target_at,
};
pub use locals::{
    increment, load_int, load_long, load_reference, store_int, store_long, store_reference,
};
pub use op::Op;
pub use operating::{
    compare_longs, convert, negate_int, negate_long, operate_int, operate_long, shift_int,
    shift_long,
};
pub use pushing::{push_int, push_long, push_null, push_reference};
pub use slot::Slot;
pub use stacking::{
    dup, dup_two, dup_two_under_one, dup_two_under_two, dup_under_one, dup_under_two, pop, pop_two,
    swap,
};
pub use store::{act_in, enter};
pub use words::word;
