//! How many mutants there are, without making them. A count stays at 2^64 - 1.

ghost use Rattle.std.specs.Prelude.{◌≡◌, length, sum_by, IfOk};
ghost use Rattle.std.specs.Io.Iter.{u64_saturate};
ghost use Rattle.mutator_ops.specs.Counts.{rows_at, rows_in, code_count, method_count, class_count};
ghost use Rattle.mutator_ops.specs.Mutants.{class_mutants};

use crate::asked::Asked;
use crate::listing::{is_left_out, is_synthetic};
use crate::parts::code_of;
use crate::pool::Pool;
use crate::table::{mutators, row};
use class_model::{Class, Insn, Member, Memory, Mutator};
use std::alloc::Global;

// How many rows of a table apply to an instruction.
fn rows_at(table: &[Mutator], asked: &Asked, insn: &Insn) -> usize
    ensures { result ≡ rows_at table.now asked.now insn.now }
{
    table
        .iter()
        .filter(|mutator| row(**mutator, asked, insn).is_some())
        .count()
}

// How many mutants instructions have.
#[tactic(auto, using(crate::proofs::CountLaws::counts_more))]
fn rows_in(asked: &Asked, insns: &[Insn]) -> u64
    ensures { result ≡ u64_saturate (rows_in asked.now insns.now) }
{
    let table = mutators();
    let mut count = 0u64;
    for insn in insns {
        count = count.saturating_add(rows_at(&table, asked, insn) as u64);
    }
    count
}

fn method_count(pool: &Pool, member: &Member) -> u64
    ensures { result ≡ u64_saturate (method_count pool.now member.now) }
{
    if is_left_out(pool, member) {
        return 0;
    }
    match code_of(member.attrs.as_slice()) {
        Some(code) => rows_in(&Asked::new(pool, member), code.insns.as_slice()),
        None => 0,
    }
}

#[tactic(auto, using(crate::proofs::CountLaws::counts_more))]
fn methods_count(pool: &Pool, methods: &[Member]) -> u64
    ensures { result ≡ u64_saturate (sum_by (method_count pool.now) methods.now) }
{
    let mut count = 0u64;
    for member in methods {
        count = count.saturating_add(method_count(pool, member));
    }
    count
}

fn class_count(alloc: Global, class: &Class) -> Result<u64, Memory>
    ensures { IfOk result (λ n. n ≡ u64_saturate (class_count class.now)) }
{
    if is_synthetic(class.flags) {
        return Ok(0);
    }
    let pool = Pool::new(alloc, class.pool.as_slice())?;
    Ok(methods_count(&pool, class.methods.as_slice()))
}

/// How many mutants a class has. None is made.
#[tactic(auto, using(crate::proofs::CountLaws::class_saturates))]
pub fn count_mutants(alloc: Global, class: &Class) -> Result<u64, Memory>
    ensures { IfOk result (λ n. n ≡ u64_saturate (length (class_mutants class.now))) }
{
    class_count(alloc, class)
}
