//! The frames that a method states, by instruction.

ghost use Rattle.std.specs.Prelude.{◌≡◌, slice_get, IfOk};
ghost use Rattle.std.specs.Option.{option_copied};
ghost use Rattle.vframes.specs.Named.{AreNamed};
ghost use Rattle.vframes.specs.StatedFrames.{filled, AreKept, table_of};
ghost use Rattle.vframes.specs.Fits.{leads_among, leads_in, IsStatedAt};

use crate::frame::Frame;
use crate::full::frame_in_full;
use crate::named::Named;
use crate::stated::{Local, StatedFrame, is_assignable_to_stated};
use class_model::Memory;
use class_table::Program;
use std::alloc::Global;
use std::marker::Model;

/// The frames that a method states, by instruction. Locals that frames share are kept once.
#[derive(Drop)]
pub struct StatedFrames {
    frames: Vec<Option<StatedFrame>>,
    store: Vec<Local>,
    max_locals: u16,
}

impl Model for StatedFrames {
    ghost use Rattle.std.specs.Prelude.{List, Option};
    ghost use Rattle.vframes.specs.StatedFrames.{StatedTypes, table_of, AreKept};

    ghost Value = { List (Option StatedTypes) };

    ghost view = { λ s. table_of s.store.items s.max_locals s.frames.items };

    ghost invariant = { λ s. AreKept s.store.items s.max_locals s.frames.items };
}

impl StatedFrames {
    /// The table of these frames, whose locals stand in this store.
    pub fn new(frames: Vec<Option<StatedFrame>>, store: Vec<Local>, max_locals: u16) -> StatedFrames
        requires { AreKept store.items max_locals frames.items }
        ensures { result ≡ table_of store.items max_locals frames.items }
    {
        StatedFrames {
            frames,
            store,
            max_locals,
        }
    }

    /// Whether an instruction states a frame to which this one is assignable.
    pub fn leads(&self, program: &Program, names: &[Named], from: &Frame, to: u32) -> bool
        requires { AreNamed program.now names.now }
        ensures { result ≡ leads_among program.now names.now from.now self.now to }
    {
        leads_in(
            &self.frames,
            &self.store,
            self.max_locals,
            program,
            names,
            from,
            to,
        )
    }

    /// The frame that is stated for an instruction, in full.
    pub fn in_full(&self, alloc: Global, at: u32) -> Result<Option<Frame>, Memory>
        ensures { IfOk result (λ f. IsStatedAt self.now at f) }
    {
        full_at(alloc, &self.frames, &self.store, self.max_locals, at)
    }
}

// The frame that is stated for an instruction.
fn stated_at(frames: &[Option<StatedFrame>], at: u32) -> Option<&StatedFrame>
    ensures { option_copied result ≡ filled (slice_get frames.now at) }
{
    match frames.get(at as usize) {
        Some(Some(frame)) => Some(frame),
        Some(None) => None,
        None => None,
    }
}

fn leads_in(
    frames: &[Option<StatedFrame>],
    store: &[Local],
    max_locals: u16,
    program: &Program,
    names: &[Named],
    from: &Frame,
    to: u32,
) -> bool
    requires named { AreNamed program.now names.now }
    requires kept { AreKept store.now max_locals frames.now }
    ensures { result ≡ leads_in program.now names.now store.now max_locals from.now frames.now to }
{
    match stated_at(frames, to) {
        Some(stated) => is_assignable_to_stated(program, names, store, max_locals, from, stated),
        None => false,
    }
}

fn full_at(
    alloc: Global,
    frames: &[Option<StatedFrame>],
    store: &[Local],
    max_locals: u16,
    at: u32,
) -> Result<Option<Frame>, Memory>
    requires { AreKept store.now max_locals frames.now }
    ensures { IfOk result (λ f. IsStatedAt (table_of store.now max_locals frames.now) at f) }
{
    match stated_at(frames, at) {
        Some(stated) => {
            let frame = frame_in_full(alloc, store, max_locals, stated)?;
            Ok(Some(frame))
        }
        None => Ok(None),
    }
}
