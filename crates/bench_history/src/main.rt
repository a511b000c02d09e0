//! Reads a history, writes it again, indexes it and looks records up; prints what came of it, and
//! with two words, a file and a number of look-ups, how many milliseconds each took. Without words
//! it takes the file `runs.history` and six look-ups, and tells no times. Two words more are how
//! often all look-ups that find a record are made, and those that find none; else each is once.
//!
//! The program that is looked out for has under each name the class of the first record that
//! consults it. A look-up is for the test of a record, where the second class that the record
//! consults has the recorded bytes, or others that no record has. The records are taken from all
//! over the history, so that each history has the same share of records that match as it is.
#![tactic(auto)]

ghost use Rattle.history_rules.specs.Laws.{AreWritable};
ghost use Rattle.history_file.specs.Rows.{records_of};

use class_model::read_text;
use history_file::{History, Row, read_history, write_history};
use history_index::{HistoryIndex, Lookout, Standings, Swap};
use history_rules::HistoryFault;
use machine_rules::Limits;
use mt_edge::{HostTree, Tree};
use std::alloc::Global;
use std::env;
use std::time::Instant;

const PROFILE: u16 = 1;

// How far the record of a look-up is behind that of the look-up before: a prime, so that it is
// none of the numbers of tests or of records of a test.
const STRIDE: usize = 1_000_003;

// What is asked for.
#[derive(Drop)]
struct Job {
    path: String,
    // how many look-ups
    count: usize,
    // how often those that find a record are made, and those that find none
    rounds: (u32, u32),
    timed: bool,
}

// Prints what was done, and since when, if times are told.
fn say(rt: &HostRuntime, timed: bool, start: Instant, done: &str) -> anyhow::Result<()> {
    if timed {
        let milliseconds = start.elapsed(rt)?.as_millis();
        println!(rt; "{done}, {milliseconds} ms")?;
    } else {
        println!(rt; "{done}")?;
    }
    Ok(())
}

// How the names of the history stand in the program.
fn standings_of(alloc: Global, index: &HistoryIndex) -> anyhow::Result<Standings> {
    let history = index.history();
    let (texts, classes) = (history.texts(), history.classes());
    let mut known = vec![in alloc; false; texts.len()]?;
    let mut standings = Standings::new(alloc, index)?;
    for row in history.rows() {
        for entry in row.consulted.as_slice() {
            let at = entry.name as usize;
            if at >= known.len() || at >= texts.len() || known[at] || entry.class == 0 {
                continue;
            }
            known[at] = true;
            let Ok(name) = read_text(alloc, texts[at]) else {
                anyhow::bail!("no name");
            };
            let Some(class) = classes.get(entry.class as usize - 1) else {
                anyhow::bail!("no class");
            };
            standings.put(alloc, index, &name, Some(*class))?;
        }
    }
    Ok(standings)
}

fn lookout_of(alloc: Global, index: &HistoryIndex) -> anyhow::Result<Lookout> {
    let limits = match index.history().rows().first() {
        Some(row) => Limits {
            heap: row.heap,
            depth: row.depth,
        },
        None => Limits { heap: 0, depth: 0 },
    };
    let bounds = vec![in alloc; u64::MAX; index.tests().len()]?;
    let standings = standings_of(alloc, index)?;
    let lookout = Lookout::new(alloc, index, standings, limits, bounds.as_slice())?;
    Ok(lookout)
}

// The class of a record that another one of the program is: its number, found by its bytes, or by
// these without the first, which no record has.
fn swap_of(index: &HistoryIndex, row: &Row, changed: bool) -> Option<Swap> {
    let entry = row.consulted.as_slice().get(1)?;
    let place = (entry.class as usize).checked_sub(1)?;
    let bytes = index.history().classes().get(place)?;
    let bytes = if changed { bytes.get(1..)? } else { *bytes };
    Some(Swap {
        name: entry.name,
        class: index.class(bytes),
    })
}

// A look-up: the number of a test, and a class that another one of the program is.
#[derive(Clone, Copy)]
struct Question {
    test: Option<u32>,
    swap: Option<Swap>,
}

fn questions_of(
    alloc: Global,
    index: &HistoryIndex,
    count: usize,
    changed: bool,
) -> anyhow::Result<Vec<Question>> {
    let rows = index.history().rows();
    let mut questions = Vec::new(alloc);
    for k in 0..count {
        let Some(place) = k.wrapping_mul(STRIDE).checked_rem(rows.len()) else {
            break;
        };
        let Some(row) = rows.get(place) else {
            break;
        };
        questions.push(Question {
            test: index.test_of(row),
            swap: swap_of(index, row, changed),
        })?;
    }
    Ok(questions)
}

// How many of these look-ups find a record.
fn look_up(lookout: &Lookout, questions: &[Question]) -> u64 {
    let mut found: u64 = 0;
    for question in questions {
        if lookout.lookup(question.test, question.swap).is_some() {
            found = found.saturating_add(1);
        }
    }
    found
}

// Whether the history is written as its bytes were.
fn written_as(alloc: Global, history: &History, bytes: &[u8]) -> &'static str
    requires { AreWritable (records_of history.now) }
{
    match write_history(alloc, PROFILE, history) {
        Ok(written) if written.as_slice() == bytes => "written as it was",
        Ok(_) => "written otherwise",
        Err(_) => "not written",
    }
}

// How long look-ups take, told in millionths of a second.
fn say_found(
    rt: &HostRuntime,
    timed: bool,
    lookout: &Lookout,
    questions: &[Question],
    rounds: u32,
) -> anyhow::Result<()> {
    let start = Instant::now(rt)?;
    let mut found = 0;
    for _ in 0..rounds {
        found = look_up(lookout, questions);
    }
    let count = questions.len();
    if timed {
        let micros = start.elapsed(rt)?.as_micros();
        println!(rt; "{found} of {count} found, {micros} us")?;
    } else {
        println!(rt; "{found} of {count} found")?;
    }
    Ok(())
}

fn ask_all(rt: &HostRuntime, job: &Job, index: &HistoryIndex) -> anyhow::Result<()> {
    let alloc = rt.alloc();
    let start = Instant::now(rt)?;
    let lookout = lookout_of(alloc, index)?;
    say(rt, job.timed, start, "looked out")?;
    for (changed, rounds) in [(false, job.rounds.0), (true, job.rounds.1)] {
        let questions = questions_of(alloc, index, job.count, changed)?;
        say_found(rt, job.timed, &lookout, questions.as_slice(), rounds)?;
    }
    Ok(())
}

fn say_read(
    rt: &HostRuntime,
    timed: bool,
    start: Instant,
    history: &History,
) -> anyhow::Result<()> {
    let (records, classes) = (history.rows().len(), history.classes().len());
    let done = format!(in rt.alloc(); "read {records} records of {classes} classes")?;
    say(rt, timed, start, done.as_str())
}

fn say_fault(
    rt: &HostRuntime,
    timed: bool,
    start: Instant,
    fault: HistoryFault,
) -> anyhow::Result<()> {
    let done = format!(in rt.alloc(); "{fault:?}")?;
    say(rt, timed, start, done.as_str())
}

fn write_again(rt: &HostRuntime, timed: bool, history: &History, bytes: &[u8]) -> anyhow::Result<()>
    requires { AreWritable (records_of history.now) }
{
    let start = Instant::now(rt)?;
    let done = written_as(rt.alloc(), history, bytes);
    say(rt, timed, start, done)
}

fn index_all(rt: &HostRuntime, job: &Job, history: History) -> anyhow::Result<()> {
    let alloc = rt.alloc();
    let start = Instant::now(rt)?;
    let index = HistoryIndex::build(alloc, history)?;
    let tests = index.tests().len();
    let done = format!(in alloc; "indexed by {tests} tests")?;
    say(rt, job.timed, start, done.as_str())?;
    ask_all(rt, job, &index)
}

fn run(rt: &HostRuntime, job: &Job, bytes: &[u8]) -> anyhow::Result<()> {
    let start = Instant::now(rt)?;
    match read_history(rt.alloc(), PROFILE, bytes) {
        Ok(history) => {
            say_read(rt, job.timed, start, &history)?;
            write_again(rt, job.timed, &history, bytes)?;
            index_all(rt, job, history)
        }
        Err(fault) => say_fault(rt, job.timed, start, fault),
    }
}

fn number(word: Option<String>) -> anyhow::Result<u32> {
    match word {
        Some(word) => Ok(word.parse::<u32>()?),
        None => Ok(1),
    }
}

fn asked(rt: &HostRuntime) -> anyhow::Result<Job> {
    let mut words = env::args(rt)?.skip(1);
    match (words.next(), words.next()) {
        (Some(path), Some(count)) => Ok(Job {
            path,
            count: count.parse::<usize>()?,
            rounds: (number(words.next())?, number(words.next())?),
            timed: true,
        }),
        _ => Ok(Job {
            path: String::from_str(rt.alloc(), "runs.history")?,
            count: 6,
            rounds: (1, 1),
            timed: false,
        }),
    }
}

fn main(rt: HostRuntime) -> anyhow::Result<()> {
    let job = asked(&rt)?;
    let mut tree = HostTree::new(&rt);
    let Some(bytes) = tree.read(job.path.as_str())? else {
        anyhow::bail!("there is no such file");
    };
    run(&rt, &job, bytes.as_slice())
}
