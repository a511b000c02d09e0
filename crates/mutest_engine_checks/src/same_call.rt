//! The top call once more, for the wrong bodies in `must-fail/`: each puts another body in the
//! place of this one, which the same contract refuses.

ghost use Rattle.std.specs.Prelude.{◌≡◌, ◌<◌, ◌^◌};
ghost use Rattle.mutest_engine.specs.Words.{words_of};
ghost use Rattle.mutest_engine.specs.SuiteFiles.{texts};
ghost use Rattle.mutest_engine.specs.Ends.{AgreesUntold, ReadsFailed, WritesFailed, PutsFailed, MeterStays};
ghost use Rattle.mutest_engine.specs.Promises.{Puts, PutsUntold, AgreesHeld, LeavesHeld, LeavesScratch, LeavesSeen, WritesLast, MeterHeld};

use mt_edge::{Gate, Keeper, Meter, Sink, Tree};
use mutest_engine::{Status, run};
use std::alloc::Global;
use std::sync::Wait;
use std::thread::Threads;

/// `run`, with its contract.
pub fn called<W: Threads + Wait + Sync, T: Tree, S: Sink, G: Gate + Sync, K: Keeper + Send>(
    rt: &W,
    alloc: Global,
    words: &Vec<String>,
    tree: &mut T,
    out: &mut S,
    gate: &G,
    keeper: K,
    meter: &mut Meter,
) -> (Status, K)
    requires { meter.old < 2 ^ 62 }
    // Where the tree tells its files, each status comes exactly where words and files say so, but
    // for faults and want of memory.
    ensures status { AgreesHeld (T.holds tree.old) words.now result.0 }
    // Where all records of the history are true, status, text and files are those of running every
    // test on every mutant from scratch, however many workers there are; and the meter rises by the
    // steps of the runs that the history lacks.
    ensures scratch { LeavesScratch S.faults S.written out.old out.new (T.holds tree.old)
        (T.holds tree.new) words.now meter.old meter.new result.0 }
    // Whatever the tree tells: all goes by one suite, one history and one folder of sources; and
    // where the history's records are true, by running every test on every mutant.
    ensures seen { LeavesSeen S.faults S.written out.old out.new (T.holds tree.old)
        (T.holds tree.new) words.now meter.old meter.new result.0 }
    // Whatever the tree tells: what the words alone decide.
    ensures status_untold { AgreesUntold (words_of (texts words.now)) result.0 }
    // A fault comes only where the object's faults rose.
    ensures read_faults { ReadsFailed (T.reading tree.old) (T.reading tree.new) result.0 }
    ensures write_faults { WritesFailed (T.writing tree.old) (T.writing tree.new) result.0 }
    ensures put_faults { PutsFailed (S.faults out.old) (S.faults out.new) result.0 }
    // What the sink got.
    ensures printed { Puts S.faults S.written out.old out.new (T.holds tree.old) words.now
        result.0 }
    ensures printed_untold { PutsUntold S.faults S.written out.old out.new words.now result.0 }
    // What the tree holds then.
    ensures files { LeavesHeld (T.holds tree.old) (T.holds tree.new) words.now result.0 }
    // Nothing is written before the last run that is needed.
    ensures last { WritesLast (T.holds tree.old) (T.holds tree.new) words.now meter.old meter.new }
    // The steps of the runs that were made: with one worker exactly those of the needed runs that
    // the history lacks.
    ensures meter { MeterHeld (T.holds tree.old) words.now meter.old meter.new result.0 }
    // Whatever the tree tells: none before the first run.
    ensures meter_untold { MeterStays meter.old meter.new result.0 }
    // No call is made on the keeper.
    ensures keeper { result.1 ≡ keeper }
{
    let (status, keeper) = run(rt, alloc, words, tree, out, gate, keeper, meter);
    (status, keeper)
}
