//! The types of an operand stack.

ghost use Rattle.std.specs.Prelude.{◌≡◌, [], ◌∷◌, ◌++◌, true, false, IfSome, IfNone, OnOk, ℕ, List, nat_le, reverse, map, IfOk};
ghost use Rattle.type_rules.specs.Assignability.{height};
ghost use Rattle.type_rules.specs.Rows.{is_reference, is_any_reference};
ghost use Rattle.vframes.specs.View.{types_in, two_slots, words_of};
ghost use Rattle.vframes.specs.Takes.{TakesInt, TakesNoInt, TakesLong, TakesNoLong, TakesWord, TakesNoWord, TakesSuch, TakesNoSuch, TakesTwo, TakesNoTwo};
ghost use Rattle.std.specs.List.{list_any};
ghost use Rattle.vframes.specs.Fresh.{is_fresh, slot_replaced};
ghost use Rattle.vframes.specs.declared.slot_type.SlotType.TheVariants.{Obj};
ghost use Rattle.vframes.specs.declared.named.Named.{Named};

use crate::fresh::Fresh;
use crate::slot_type::SlotType;
use class_model::Memory;
use std::alloc::Global;
use std::marker::Model;

/// Two words of a stack: a long, or two types of one word each, the upper one first.
#[derive(Clone, Copy)]
pub enum Two {
    Long,
    Words(SlotType, SlotType),
}

/// The types of an operand stack. Contracts see the top first.
#[derive(Drop)]
pub struct Stack {
    items: Vec<SlotType>,
    words: u128,
}

impl Model for Stack {
    ghost use Rattle.std.specs.Prelude.{List, map, reverse, ◌≡◌, ◌≤◌};
    ghost use Rattle.vframes.specs.declared.slot_type.SlotType.{SlotType};
    ghost use Rattle.vframes.specs.View.{words_of};

    ghost Value = { List SlotType };

    ghost view = { λ s. reverse s.items.items };

    ghost invariant = { λ s. s.words ≡ words_of (reverse s.items.items) };
}

fn copy_items(alloc: Global, items: &[SlotType]) -> Result<Vec<SlotType>, Memory>
    ensures { IfOk result (λ copy. copy.items ≡ items.now) }
{
    let mut copy = Vec::with_capacity(alloc, items.len())?;
    for t in items {
        copy.push(*t)?;
    }
    Ok(copy)
}

/// The words that these types take.
pub fn words_of(types: &[SlotType]) -> u128
    ensures { result ≡ words_of types.now }
{
    let mut words = 0u128;
    for t in types {
        words += t.width() as u128;
    }
    words
}

impl Stack {
    /// No types.
    pub fn new(alloc: Global) -> Stack
        ensures { result ≡ [] }
    {
        Stack {
            items: Vec::new(alloc),
            words: 0,
        }
    }

    /// These types, of which the last one is the top.
    pub fn of(alloc: Global, types: &[SlotType]) -> Result<Stack, Memory>
        ensures { IfOk result (λ s. s ≡ reverse types.now) }
    {
        let items = copy_items(alloc, types)?;
        let words = words_of(types);
        Ok(Stack { items, words })
    }

    /// The types, the top last.
    pub fn as_slice(&self) -> &[SlotType]
        ensures { reverse result.now ≡ self.now }
    {
        self.items.as_slice()
    }

    /// Puts a type on the top.
    pub fn push(&mut self, t: SlotType) -> Result<(), Memory>
        ensures { OnOk result (self.new ≡ t ∷ self.old) }
    {
        let _count = self.items.len();
        self.items.push(t)?;
        self.words += t.width() as u128;
        Ok(())
    }

    /// Takes the top off.
    pub fn pop(&mut self) -> Option<SlotType>
        ensures some { IfSome result (λ t. self.old ≡ t ∷ self.new) }
        ensures none { IfNone result (self.old ≡ []) }
    {
        let t = self.items.pop()?;
        self.words -= t.width() as u128;
        Some(t)
    }

    /// Whether it takes no more than so many words.
    #[tactic(auto, using(crate::proofs::Words::words_are))]
    pub fn fits(&self, room: u16) -> bool
        ensures { (ns : List Named) → result ≡ nat_le (height (types_in ns self.now)) room }
    {
        self.words <= room as u128
    }

    /// An equal stack.
    pub fn copy(&self) -> Result<Stack, Memory>
        ensures { IfOk result (λ s. s ≡ self.now) }
    {
        let alloc = *self.items.allocator();
        let items = copy_items(alloc, &self.items)?;
        Ok(Stack {
            items,
            words: self.words,
        })
    }

    /// Whether an object that isn't initialised stands on it.
    pub fn has(&self, fresh: Fresh) -> bool
        ensures { result ≡ list_any (is_fresh fresh) self.now }
    {
        fresh.is_among(&self.items)
    }

    /// The stack with a class in the place of an object that isn't initialised, wherever it stands.
    pub fn initialise(&self, fresh: Fresh, class: usize) -> Result<Stack, Memory>
        ensures { IfOk result (λ s. s ≡ map (slot_replaced fresh (Obj class)) self.now) }
    {
        let alloc = *self.items.allocator();
        let items = fresh.replace(alloc, &self.items, SlotType::Obj(class))?;
        Ok(Stack {
            items,
            words: self.words,
        })
    }

    /// Takes an int off the top.
    pub fn take_int(&mut self) -> bool
        ensures yes { result ≡ true → TakesInt self.old self.new }
        ensures no { result ≡ false → TakesNoInt self.old }
    {
        match self.pop() {
            Some(SlotType::Int) => true,
            Some(SlotType::Top) => false,
            Some(SlotType::Long) => false,
            Some(SlotType::Null) => false,
            Some(SlotType::UninitThis) => false,
            Some(SlotType::Uninit(_)) => false,
            Some(SlotType::Obj(_)) => false,
            None => false,
        }
    }

    /// Takes a long off the top.
    pub fn take_long(&mut self) -> bool
        ensures yes { result ≡ true → TakesLong self.old self.new }
        ensures no { result ≡ false → TakesNoLong self.old }
    {
        match self.pop() {
            Some(SlotType::Long) => true,
            Some(SlotType::Top) => false,
            Some(SlotType::Int) => false,
            Some(SlotType::Null) => false,
            Some(SlotType::UninitThis) => false,
            Some(SlotType::Uninit(_)) => false,
            Some(SlotType::Obj(_)) => false,
            None => false,
        }
    }

    /// Takes a type of one word off the top.
    pub fn take_word(&mut self) -> Option<SlotType>
        ensures some { IfSome result (λ t. TakesWord self.old t self.new) }
        ensures none { IfNone result (TakesNoWord self.old) }
    {
        match self.pop() {
            Some(SlotType::Long) => None,
            Some(SlotType::Top) => Some(SlotType::Top),
            Some(SlotType::Int) => Some(SlotType::Int),
            Some(SlotType::Null) => Some(SlotType::Null),
            Some(SlotType::UninitThis) => Some(SlotType::UninitThis),
            Some(SlotType::Uninit(at)) => Some(SlotType::Uninit(at)),
            Some(SlotType::Obj(name)) => Some(SlotType::Obj(name)),
            None => None,
        }
    }

    /// Takes a reference off the top, initialised or not.
    pub fn take_any_reference(&mut self) -> Option<SlotType>
        ensures some { IfSome result (λ t. TakesSuch is_any_reference self.old t self.new) }
        ensures none { IfNone result (TakesNoSuch is_any_reference self.old) }
    {
        match self.pop() {
            Some(SlotType::Null) => Some(SlotType::Null),
            Some(SlotType::UninitThis) => Some(SlotType::UninitThis),
            Some(SlotType::Uninit(at)) => Some(SlotType::Uninit(at)),
            Some(SlotType::Obj(name)) => Some(SlotType::Obj(name)),
            Some(SlotType::Top) => None,
            Some(SlotType::Int) => None,
            Some(SlotType::Long) => None,
            None => None,
        }
    }

    /// Takes an initialised reference off the top.
    pub fn take_reference(&mut self) -> Option<SlotType>
        ensures some { IfSome result (λ t. TakesSuch is_reference self.old t self.new) }
        ensures none { IfNone result (TakesNoSuch is_reference self.old) }
    {
        match self.pop() {
            Some(SlotType::Null) => Some(SlotType::Null),
            Some(SlotType::Obj(name)) => Some(SlotType::Obj(name)),
            Some(SlotType::UninitThis) => None,
            Some(SlotType::Uninit(_)) => None,
            Some(SlotType::Top) => None,
            Some(SlotType::Int) => None,
            Some(SlotType::Long) => None,
            None => None,
        }
    }

    /// Takes two words off the top.
    pub fn take_two(&mut self) -> Option<Two>
        ensures some { IfSome result (λ ts. TakesTwo self.old ts self.new) }
        ensures none { IfNone result (TakesNoTwo self.old) }
    {
        let Some(upper) = self.pop() else {
            return None;
        };
        if upper.is_wide() {
            return Some(Two::Long);
        }
        let Some(lower) = self.take_word() else {
            return None;
        };
        Some(Two::Words(upper, lower))
    }

    /// Puts two words on the top.
    pub fn push_two(&mut self, two: Two) -> Result<(), Memory>
        ensures { OnOk result (self.new ≡ two_slots two ++ self.old) }
    {
        match two {
            Two::Long => {
                self.push(SlotType::Long)?;
                Ok(())
            }
            Two::Words(upper, lower) => {
                self.push(lower)?;
                self.push(upper)?;
                Ok(())
            }
        }
    }
}
