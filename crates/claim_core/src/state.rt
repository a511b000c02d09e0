ghost use Rattle.std.specs.Prelude.{◌≡◌, ◌<◌, ◌+◌, ◌^◌, [], ◌↔◌, OnOk, OnErr, IfOk, IfSome, IsNone, length, map, replicate, false};
ghost use Rattle.claim_core.specs.Claims.{started, after, reply_of, AnswersClaim, AnswersLook, IsInRange, noted, place_in as place_of, least_of};
ghost use Rattle.claim_core.specs.Agreement.{ClaimsAgree, IsUndetected, IsLeastDetected};
ghost use Rattle.claim_core.specs.Ending.{IsLeastOnceDone};
ghost use Rattle.claim_core.specs.Held.{Drains, drained_of, lists_of};

use crate::events::{ClaimEntry, Event, Reply};
use class_model::Memory;
use std::alloc::Global;
use std::marker::Model;

/// Stands for no place in a least place. Every place is below it.
const NO_PLACE: u64 = 65535;

/// What the workers drew, looked at and detected, and the least detected place of each mutant.
#[derive(Drop)]
pub struct ClaimState {
    cells: u64,
    next: u64,
    least: Vec<u64>,
    workers: Vec<Worker>,
}

#[derive(Drop)]
struct Worker {
    entries: Vec<ClaimEntry>,
    drained: bool,
}

impl Model for ClaimState {
    ghost use Rattle.claim_core.specs.Claims.{Claims};

    ghost Value = { Claims };

    ghost use Rattle.claim_core.specs.Held.{claims_of, IsKept};

    ghost view = { claims_of };

    ghost invariant = { IsKept };
}

impl ClaimState {
    /// The state in which nothing is drawn and nothing detected.
    pub fn new(alloc: Global, mutants: u64, cells: u64, workers: u64) -> Result<ClaimState, Memory>
        requires some { 0 < workers }
        requires few { mutants < 2 ^ 32 }
        requires room { cells + workers < 2 ^ 64 }
        ensures started { IfOk result (λ state. state ≡ started mutants cells workers) }
        ensures mutants { IfOk result (λ state. length state.least ≡ mutants) }
        ensures workers { IfOk result (λ state. length state.lists ≡ workers) }
        ensures agree { IfOk result ClaimsAgree }
    {
        let least = vec![in alloc; NO_PLACE; mutants as usize]?;
        let workers = idle(alloc, workers)?;
        Ok(ClaimState {
            cells,
            next: 0,
            least,
            workers,
        })
    }

    /// Does what the event says. A worker that was told that no cell is left is told so again, and
    /// draws no more. On want of memory the state is as it was.
    pub fn step(&mut self, event: &Event) -> Result<Reply, Memory>
        requires { IsInRange self.old event.now }
        ensures state { OnOk result (self.new ≡ after event.now self.old) }
        ensures reply { IfOk result (λ reply. reply ≡ reply_of event.now self.old) }
        ensures err { OnErr result (self.new ≡ self.old) }
        ensures keeps { ClaimsAgree self.old → ClaimsAgree self.new }
        ensures mutants { length self.new.least ≡ length self.old.least }
        ensures workers { length self.new.lists ≡ length self.old.lists }
    {
        match *event {
            Event::Claim { worker } => {
                let cell = self.claim(worker)?;
                Ok(Reply::Cell(cell))
            }
            Event::Look { worker, mutant } => {
                let place = self.look(worker, mutant)?;
                Ok(Reply::Place(place))
            }
            Event::Detect {
                worker,
                mutant,
                place,
            } => {
                self.detect(worker, mutant, place)?;
                Ok(Reply::Done)
            }
        }
    }

    // The number that the worker draws, where it is a cell's.
    fn claim(&mut self, worker: u64) -> Result<Option<u64>, Memory>
        requires { IsInRange self.old (Event.Claim worker) }
        ensures state { OnOk result (self.new ≡ after (Event.Claim worker) self.old) }
        ensures reply { IfOk result (AnswersClaim self.old worker) }
        ensures err { OnErr result (self.new ≡ self.old) }
    {
        if self.workers[worker as usize].drained {
            return Ok(None);
        }
        let number = self.next;
        note(&mut self.workers, worker, ClaimEntry::Claimed(number))?;
        self.next = number + 1;
        if number < self.cells {
            return Ok(Some(number));
        }
        drain(&mut self.workers, worker);
        Ok(None)
    }

    fn look(&mut self, worker: u64, mutant: u64) -> Result<Option<u64>, Memory>
        requires { IsInRange self.old (Event.Look worker mutant) }
        ensures state { OnOk result (self.new ≡ after (Event.Look worker mutant) self.old) }
        ensures reply { IfOk result (AnswersLook self.old worker mutant) }
        ensures err { OnErr result (self.new ≡ self.old) }
    {
        let least = self.least[mutant as usize];
        note(&mut self.workers, worker, ClaimEntry::Looked(mutant, least))?;
        Ok(place_in(least))
    }

    fn detect(&mut self, worker: u64, mutant: u64, place: u64) -> Result<(), Memory>
        requires { IsInRange self.old (Event.Detect worker mutant place) }
        ensures state { OnOk result (self.new ≡ after (Event.Detect worker mutant place) self.old) }
        ensures err { OnErr result (self.new ≡ self.old) }
    {
        note(
            &mut self.workers,
            worker,
            ClaimEntry::Detected(mutant, place),
        )?;
        let least = &mut self.least[mutant as usize];
        *least = (*least).min(place);
        Ok(())
    }

    /// The least place at which any worker detected the mutant.
    pub fn least(&self, mutant: u64) -> Option<u64>
        requires { mutant < length self.now.least }
        ensures agree { ClaimsAgree self.now }
        ensures place { result ≡ place_of (least_of self.now mutant) }
        ensures none { IsNone result ↔ IsUndetected self.now mutant }
        ensures some { IfSome result (IsLeastDetected self.now mutant) }

        // Once all cells of a table are done, it is the least of the mutant's detecting cells.
        ensures end { IsLeastOnceDone self.now mutant result }
    {
        place_in(self.least[mutant as usize])
    }
}

fn place_in(least: u64) -> Option<u64>
    ensures { result ≡ place_of least }
{
    if least == NO_PLACE { None } else { Some(least) }
}

// As many workers, each with an empty list.
fn idle(alloc: Global, workers: u64) -> Result<Vec<Worker>, Memory>
    ensures lists { IfOk result (λ made. lists_of made.items ≡ replicate workers []) }
    ensures drained { IfOk result (λ made. map drained_of made.items ≡ replicate workers false) }
{
    let mut made = Vec::with_capacity(alloc, workers as usize)?;
    for _ in 0..workers {
        made.push(Worker {
            entries: Vec::new(alloc),
            drained: false,
        })?;
    }
    Ok(made)
}

// Appends the entry to the worker's list.
fn note(workers: &mut [Worker], worker: u64, entry: ClaimEntry) -> Result<(), Memory>
    requires { worker < length workers.old }
    ensures ok { OnOk result (lists_of workers.new ≡ noted (lists_of workers.old) worker entry) }
    ensures err { OnErr result (lists_of workers.new ≡ lists_of workers.old) }
    ensures drained { map drained_of workers.new ≡ map drained_of workers.old }
{
    workers[worker as usize].entries.push(entry)?;
    Ok(())
}

// The worker drew a number at or past the cells.
fn drain(workers: &mut [Worker], worker: u64)
    requires { worker < length workers.old }
    ensures lists { lists_of workers.new ≡ lists_of workers.old }
    ensures drained { Drains workers.old worker workers.new }
{
    workers[worker as usize].drained = true;
}
