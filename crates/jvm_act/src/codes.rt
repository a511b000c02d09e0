//! The codes of a program's methods, each made once.

ghost use Rattle.std.specs.Prelude.{◌≡◌, ◌<◌, ℕ, List, true, if◌then◌else◌, nat_eq, ◌&&◌, [], Some, None, length, IfOk, IfSome, IfNone, OnOk, OnErr};
ghost use Rattle.std.specs.Option.{option_copied};
ghost use Rattle.std.proofs.Common.{get_or};
ghost use Rattle.program_rules.specs.Linked.{method_in};
ghost use Rattle.class_link.specs.Info.{Info};
ghost use Rattle.class_link.specs.declared.linked.LinkedBody.TheVariants as body;
ghost use Rattle.class_link.specs.View.{method_of};
ghost use Rattle.class_table.specs.Table.{look, name_at, entries_at};
ghost use Rattle.jvm_act.specs.Codes.{held, Holds, HoldSame, AreCodes, IsHeld, IsPrepared};
ghost use Rattle.jvm_act.specs.Methods.{IsCodeOf, HasNoCode};

use crate::methods::{MethodCode, handlers_of};
use class_link::{LinkedBody, LinkedCode, LinkedMethod, Shared};
use class_model::{ClassId, Memory};
use class_table::Program;
use jvm_code::decode;
use std::alloc::Global;
use std::marker::Model;

// ---- the code of one method

// The code of a method of the program.
fn method_code(
    alloc: Global,
    p: &Program,
    class: ClassId,
    place: u32,
    method: &LinkedMethod,
    code: &Shared<LinkedCode>,
) -> Result<MethodCode, Memory>
    requires there { method_in (look p.now (name_at p.now class.0)) place
        ≡ Some (method_of (entries_at p.now class.0) method.now) }
    requires body { method.now.body ≡ body.Code code.now }
    ensures { IfOk result (IsCodeOf p.now class.0 place) }
{
    let linked = code.share()?;
    let result = method.result.share()?;
    let decoded = decode(alloc, linked.instructions.as_slice())?;
    let handlers = handlers_of(alloc, p, class, place, method, code)?;
    Ok(MethodCode {
        linked,
        code: decoded,
        handlers,
        result,
    })
}

// The code of the method at a place of a class, if it has code.
#[tactic(auto, using(crate::proofs::Coded::no_method, crate::proofs::Coded::no_body))]
fn make_code(
    alloc: Global,
    p: &Program,
    class: ClassId,
    place: u32,
) -> Result<Option<MethodCode>, Memory>
    requires { class.0 < length p.now }
    ensures code { IfOk result (λ o. IfSome o (IsCodeOf p.now class.0 place)) }
    ensures none { IfOk result (λ o. IfNone o (HasNoCode p.now class.0 place)) }
{
    let Some(method) = p.method(class, place) else {
        return Ok(None);
    };
    match &method.body {
        LinkedBody::Code(code) => {
            let made = method_code(alloc, p, class, place, method, code)?;
            Ok(Some(made))
        }
        LinkedBody::Native(_) => Ok(None),
        LinkedBody::Absent => Ok(None),
    }
}

// ---- what is held

/// The codes of the methods of one class, up to the last one of which any is held.
#[derive(Drop)]
pub struct Row {
    codes: Vec<Option<MethodCode>>,
}

impl Model for Row {
    ghost use Rattle.std.specs.Prelude.{List, Option};
    ghost use Rattle.jvm_act.specs.declared.methods.MethodCode.{MethodCode as Held};

    ghost Value = { List (Option Held) };

    ghost view = { λ r. r.codes.items };
}

// Makes sure that a list has a place.
fn make_slot(codes: &mut Vec<Option<MethodCode>>, at: usize) -> Result<(), Memory>
    ensures same { (i : ℕ) → get_or codes.new.items i None ≡ get_or codes.old.items i None }
    ensures place { OnOk result (at < length codes.new.items) }
{
    while codes.len() <= at {
        codes.push(None)?;
    }
    Ok(())
}

// Holds this where there is place for it.
fn put_at(codes: &mut [Option<MethodCode>], at: usize, code: MethodCode)
    requires { at < length codes.old }
    ensures { (i : ℕ) → get_or codes.new i None
        ≡ (if nat_eq at i then Some code else get_or codes.old i None) }
{
    codes[at] = Some(code);
}

impl Row {
    // Makes place for a method.
    fn make_place(&mut self, place: usize) -> Result<(), Memory>
        ensures same { (i : ℕ) → get_or self.new i None ≡ get_or self.old i None }
        ensures place { OnOk result (place < length self.new) }
    {
        make_slot(&mut self.codes, place)
    }

    // Holds this where there is place for it.
    fn put(&mut self, place: usize, code: MethodCode)
        requires { place < length self.old }
        ensures { (i : ℕ) → get_or self.new i None
            ≡ (if nat_eq place i then Some code else get_or self.old i None) }
    {
        put_at(&mut self.codes, place, code);
    }
}

// Makes place for a method of a class.
fn make_place(rows: &mut Vec<Row>, class: usize, place: usize) -> Result<(), Memory>
    ensures same { HoldSame rows.old.items rows.new.items }
    ensures class { OnOk result (class < length rows.new.items) }
    ensures place { OnOk result (place < length (get_or rows.new.items class [])) }
{
    let alloc = *rows.allocator();
    while rows.len() <= class {
        rows.push(Row {
            codes: Vec::new(alloc),
        })?;
    }
    rows[class].make_place(place)
}

// Holds this where there is place for it.
fn put(rows: &mut [Row], class: usize, place: usize, code: MethodCode)
    requires class { class < length rows.old }
    requires place { place < length (get_or rows.old class []) }
    ensures { Holds class place code rows.old rows.new }
{
    rows[class].put(place, code);
}

// Holds the code of a method. Where memory runs out all is held that was.
fn hold(rows: &mut Vec<Row>, class: usize, place: usize, code: MethodCode) -> Result<(), Memory>
    ensures held { OnOk result (Holds class place code rows.old.items rows.new.items) }
    ensures err { OnErr result (HoldSame rows.old.items rows.new.items) }
{
    make_place(rows, class, place)?;
    put(rows, class, place, code);
    Ok(())
}

// What is held of a method.
fn held_at(rows: &[Row], class: usize, place: usize) -> Option<&MethodCode>
    ensures { option_copied result ≡ held class place rows.now }
{
    let Some(row) = rows.get(class) else {
        return None;
    };
    let Some(code) = row.codes.get(place) else {
        return None;
    };
    match code {
        Some(code) => Some(code),
        None => None,
    }
}

/// The codes of a program's methods, as far as they were asked. What is kept depends on the program
/// alone, not on the run.
#[derive(Drop)]
pub struct Codes {
    rows: Vec<Row>,
}

impl Model for Codes {
    ghost use Rattle.std.specs.Prelude.{List, Option};
    ghost use Rattle.jvm_act.specs.declared.methods.MethodCode.{MethodCode as Held};

    ghost Value = { List (List (Option Held)) };

    ghost view = { λ c. c.rows.items };
}

impl Codes {
    /// Nothing was asked yet, which is right for each program.
    #[tactic(auto, using(crate::proofs::Held::none_held))]
    pub fn new(alloc: Global) -> Codes
        ensures { (p : List Info) → AreCodes p result }
    {
        Codes {
            rows: Vec::new(alloc),
        }
    }

    /// The code of a method, where it is held.
    #[tactic(auto, using(crate::proofs::Held::found))]
    pub fn get(&self, p: &Program, class: ClassId, place: u32) -> Option<&MethodCode>
        requires { AreCodes p.now self.now }
        ensures code { IfSome result (λ m. IsCodeOf p.now class.0 place m.now) }
        ensures none { IfNone result (held class.0 place self.now ≡ None) }
    {
        match held_at(&self.rows, class.0 as usize, place as usize) {
            Some(code) => Some(code),
            None => None,
        }
    }

    // Whether the code of a method is held.
    #[tactic(auto, using(crate::proofs::Held::is_held))]
    fn holds(&self, p: &Program, class: ClassId, place: u32) -> bool
        requires { AreCodes p.now self.now }
        ensures { result ≡ true → IsHeld p.now class.0 place self.now }
    {
        match held_at(&self.rows, class.0 as usize, place as usize) {
            Some(_) => true,
            None => false,
        }
    }

    // Keeps the code of a method.
    #[tactic(auto, using(crate::proofs::Held::held_more, crate::proofs::Held::held_same, crate::proofs::Held::held_now))]
    fn keep(
        &mut self,
        p: &Program,
        class: ClassId,
        place: u32,
        code: MethodCode,
    ) -> Result<(), Memory>
        requires codes { AreCodes p.now self.old }
        requires right { IsCodeOf p.now class.0 place code }
        ensures codes { AreCodes p.now self.new }
        ensures held { OnOk result (IsHeld p.now class.0 place self.new) }
    {
        hold(&mut self.rows, class.0 as usize, place as usize, code)?;
        Ok(())
    }

    /// Holds the code of a method from now on, if the method has code. Where it was asked before it
    /// takes two indices and no memory.
    pub fn prepare(
        &mut self,
        alloc: Global,
        p: &Program,
        class: ClassId,
        place: u32,
    ) -> Result<bool, Memory>
        requires codes { AreCodes p.now self.old }
        requires class { class.0 < length p.now }
        ensures codes { AreCodes p.now self.new }
        ensures prepared { IfOk result (λ b. IsPrepared p.now class.0 place b self.new) }
    {
        if self.holds(p, class, place) {
            return Ok(true);
        }
        let made = make_code(alloc, p, class, place)?;
        match made {
            Some(code) => {
                self.keep(p, class, place, code)?;
                Ok(true)
            }
            None => Ok(false),
        }
    }
}
