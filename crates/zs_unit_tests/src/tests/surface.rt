//! The public types and calls of the crates that start no thread: each field and each argument is
//! passed with its type, so that another type doesn't compile.
ghost use Rattle.std.specs.Prelude.{◌≤◌, ◌<◌, length};
ghost use Rattle.zs_drive.specs.Clocks.{max_tick};
ghost use Rattle.zs_step.specs.Compiled.{last_seen};
ghost use Rattle.zs_step.specs.History.{history_of, IsInOrder};

use super::support::{expect_text, push_record};
use futures::Future;
use futures::task::{Context, Poll};
use std::alloc::{Alloc, AllocError, Global};
use std::process::Abort;
use std::test::Fail;
use zs_agenda::{Agenda, AgendaFault, Clock};
use zs_drive::{Attempted, DriveFault, Ended, Ending, Job, Mode, Task};
use zs_effect::{Attempt, Beat, Outcome, Script, ScriptFault};
use zs_step::{Compiled, Decision, Interval, StepFault, Stepped, follow, plain};
use zs_term::{
    Checked, Cmp, Func, Kind, NoMemory, Out, Outs, Pick, Term, TermFault, Test, check, read, write,
    write_out,
};

// A test, from its fields.
fn test_of(cmp: Cmp, than: u64) -> Test {
    Test { cmp, than }
}

// A schedule without parts, in the order of the test.
fn leaf_of(place: u64) -> Term {
    match place {
        0 => Term::Forever,
        1 => Term::Recurs(1u64),
        2 => Term::Spaced(2u64),
        3 => Term::Fixed(3u64),
        4 => Term::Exponential(4u64, 5u64),
        5 => Term::Fibonacci(6u64),
        6 => Term::Identity,
        _ => Term::Elapsed,
    }
}

// A schedule of `identity` and `elapsed`, or of the first alone, in the order of the test.
fn compound_of(alloc: Global, place: u64) -> Result<Term, AllocError> {
    let first: Box<Term> = Box::new(alloc, Term::Identity)?;
    let second: Box<Term> = Box::new(alloc, Term::Elapsed)?;
    match place {
        0 => Ok(Term::Both(first, second)),
        1 => Ok(Term::Either(first, second)),
        2 => Ok(Term::AndThen(first, second)),
        3 => Ok(Term::WhileInput(first, test_of(Cmp::Lt, 7))),
        4 => Ok(Term::WhileOutput(first, Pick::Whole, test_of(Cmp::Lt, 7))),
        5 => Ok(Term::CollectAll(first)),
        _ => Ok(Term::Map(first, Func::Add(8u64))),
    }
}

// `identity` with a test of its input.
fn tested(alloc: Global, cmp: Cmp) -> Result<Term, AllocError> {
    let part = Box::new(alloc, Term::Identity)?;
    Ok(Term::WhileInput(part, test_of(cmp, 7)))
}

// One of those schedules with a test of its output.
fn picked(alloc: Global, place: u64, pick: Pick) -> Result<Term, AllocError> {
    let part = Box::new(alloc, compound_of(alloc, place)?)?;
    Ok(Term::WhileOutput(part, pick, test_of(Cmp::Lt, 7)))
}

// One of those schedules with a function of its output.
fn mapped(alloc: Global, place: u64, func: Func) -> Result<Term, AllocError> {
    let part = Box::new(alloc, compound_of(alloc, place)?)?;
    Ok(Term::Map(part, func))
}

// Checks a term, and spells it.
fn spelling(alloc: Global, term: Term) -> Result<String, AllocError> {
    let checked: Result<Checked, TermFault> = check(alloc, term);
    match checked {
        Ok(schedule) => {
            let text: Result<String, NoMemory> = write(alloc, &schedule);
            text
        }
        Err(fault) => format!(in alloc; "{fault}"),
    }
}

// A term has this spelling.
fn expect_term<R: Abort + Alloc<A = Global>>(rt: &R, term: Result<Term, AllocError>, wanted: &str) {
    let term = term.expect(rt, "memory");
    let found = spelling(rt.alloc(), term).expect(rt, "memory");
    expect_text(rt, &found, wanted, "a term");
}

#[test]
fn each_form_of_a_schedule_has_its_spelling(rt: HostRuntime) {
    for (place, wanted) in [
        (0u64, "forever"),
        (1, "recurs(1)"),
        (2, "spaced(2)"),
        (3, "fixed(3)"),
        (4, "exponential(4, 5)"),
        (5, "fibonacci(6)"),
        (6, "identity"),
        (7, "elapsed"),
    ] {
        expect_term(&rt, Ok(leaf_of(place)), wanted);
    }
    for (place, wanted) in [
        (0u64, "(identity && elapsed)"),
        (1, "(identity || elapsed)"),
        (2, "(identity andThenEither elapsed)"),
        (3, "identity.whileInput(< 7)"),
        (4, "identity.whileOutput(< 7)"),
        (5, "identity.collectAll"),
        (6, "identity.map(+ 8)"),
    ] {
        expect_term(&rt, compound_of(rt.alloc(), place), wanted);
    }
}

#[test]
fn each_comparison_pick_and_function_has_its_spelling(rt: HostRuntime) {
    for (cmp, wanted) in [
        (Cmp::Lt, "identity.whileInput(< 7)"),
        (Cmp::Le, "identity.whileInput(<= 7)"),
        (Cmp::Eq, "identity.whileInput(= 7)"),
        (Cmp::Ne, "identity.whileInput(!= 7)"),
        (Cmp::Gt, "identity.whileInput(> 7)"),
        (Cmp::Ge, "identity.whileInput(>= 7)"),
    ] {
        expect_term(&rt, tested(rt.alloc(), cmp), wanted);
    }
    for (place, pick, wanted) in [
        (6u64, Pick::Whole, "identity.map(+ 8).whileOutput(< 7)"),
        (0, Pick::First, "(identity && elapsed).whileOutput(_1 < 7)"),
        (0, Pick::Second, "(identity && elapsed).whileOutput(_2 < 7)"),
        (5, Pick::Size, "identity.collectAll.whileOutput(size < 7)"),
    ] {
        expect_term(&rt, picked(rt.alloc(), place, pick), wanted);
    }
    for (place, func, wanted) in [
        (0u64, Func::First, "(identity && elapsed).map(_1)"),
        (0, Func::Second, "(identity && elapsed).map(_2)"),
        (5, Func::Size, "identity.collectAll.map(size)"),
        (
            2,
            Func::Merge,
            "(identity andThenEither elapsed).map(merge)",
        ),
        (6, Func::Const(1u64), "identity.map(+ 8).map(as 1)"),
        (6, Func::Add(2u64), "identity.map(+ 8).map(+ 2)"),
        (6, Func::Mul(3u64), "identity.map(+ 8).map(* 3)"),
    ] {
        expect_term(&rt, mapped(rt.alloc(), place, func), wanted);
    }
}

// A name of a form, with the types of its two parts or of its one.
fn of_two(_first: &Box<Kind>, _second: &Box<Kind>, name: &'static str) -> &'static str {
    name
}

fn of_one(_part: &Box<Kind>, name: &'static str) -> &'static str {
    name
}

// The form of a kind.
fn kind_name(kind: &Kind) -> &'static str {
    match kind {
        Kind::Num => "a number",
        Kind::Pair(first, second) => of_two(first, second, "a pair"),
        Kind::Sum(left, right) => of_two(left, right, "one of two sides"),
        Kind::Items(item) => of_one(item, "a list"),
    }
}

// Reads a text: returns the form of its kind.
fn kind_of(alloc: Global, text: &str) -> Result<&'static str, TermFault> {
    let schedule: Result<Checked, TermFault> = read(alloc, text);
    let schedule: Checked = schedule?;
    let (_term, kind): (&Term, &Kind) = (schedule.term(), schedule.kind());
    Ok(kind_name(kind))
}

#[test]
fn each_schedule_has_a_kind(rt: HostRuntime) {
    for (text, wanted) in [
        ("identity", "a number"),
        ("(identity && elapsed)", "a pair"),
        ("(identity andThenEither elapsed)", "one of two sides"),
        ("identity.collectAll", "a list"),
    ] {
        let found = kind_of(rt.alloc(), text).expect(&rt, "a schedule");
        expect_text(&rt, found, wanted, text);
    }
}

fn boxed(alloc: Global, out: Out) -> Result<Box<Out>, AllocError> {
    Ok(Box::new(alloc, out)?)
}

// A list of the numbers 2 and 3.
fn list_of(alloc: Global) -> Result<Outs, AllocError> {
    let mut items: Vec<Out> = Vec::new(alloc);
    items.push(Out::Num(2u64))?;
    items.push(Out::Num(3u64))?;
    Ok(Outs::new(items))
}

// The pair of a left side and of that list.
fn output_of(alloc: Global) -> Result<Out, AllocError> {
    let left: Box<Out> = boxed(alloc, Out::Num(1))?;
    let left: Box<Out> = boxed(alloc, Out::Left(left))?;
    let right: Box<Out> = boxed(alloc, Out::Items(list_of(alloc)?))?;
    Ok(Out::Pair(left, right))
}

// The number of items of a list.
fn count_of(list: &Outs) -> usize {
    let items: &[Out] = list.items();
    items.len()
}

#[test]
fn each_form_of_an_output_has_its_text(rt: HostRuntime) {
    let out: Out = output_of(rt.alloc()).expect(&rt, "memory");
    let text: Result<String, NoMemory> = write_out(rt.alloc(), &out);
    let text = text.expect(&rt, "memory");
    expect_text(&rt, &text, "(Left(1),[2,3])", "a left side and a list");
    let out: Out = Out::Right(boxed(rt.alloc(), out).expect(&rt, "memory"));
    let text = write_out(rt.alloc(), &out).expect(&rt, "memory");
    expect_text(&rt, &text, "Right((Left(1),[2,3]))", "a right side");
    let list = list_of(rt.alloc()).expect(&rt, "memory");
    assert!(rt; count_of(&list) == 2);
}

// `plain`, with the types of its arguments and result.
fn answer_of(
    alloc: Global,
    checked: &Checked,
    pairs: &[(u64, u64)],
) -> Result<(Out, Decision), StepFault>
    requires some { 0 < length pairs.now }
    requires order { IsInOrder (history_of pairs.now) }
{
    plain(alloc, checked, pairs)
}

// `follow`, in the same way.
fn answers_of(
    alloc: Global,
    checked: Checked,
    pairs: &[(u64, u64)],
) -> Result<Vec<Stepped>, StepFault>
    requires order { IsInOrder (history_of pairs.now) }
{
    follow(alloc, checked, pairs)
}

// A step, in the same way.
fn step(compiled: &mut Compiled, now: u64, input: u64) -> Result<Stepped, StepFault>
    requires order { last_seen compiled.old ≤ now }
{
    compiled.step(now, input)
}

// The result of a step, from its fields.
fn stepped_of(out: Out, decision: Decision, visits: u64) -> Stepped {
    Stepped {
        out,
        decision,
        visits,
    }
}

// Compiles a schedule: returns the spelling of its term, and whether it is broken.
fn compiled_of(alloc: Global, checked: Checked) -> Result<(String, bool), Fail> {
    let compiled: Result<Compiled, StepFault> = Compiled::new(alloc, checked);
    let compiled: Compiled = compiled?;
    let (term, broken): (&Checked, bool) = (compiled.term(), compiled.broken());
    Ok((write(alloc, term)?, broken))
}

#[test]
fn a_compiled_schedule_has_its_term_and_is_whole(rt: HostRuntime) -> Result<(), Fail> {
    let checked = read(rt.alloc(), "recurs(3)")?;
    let (found, broken) = compiled_of(rt.alloc(), checked)?;
    assert!(rt; !broken);
    expect_text(&rt, &found, "recurs(3)", "the term");
    let stepped = stepped_of(Out::Num(1), Decision::Next(2u64), 3);
    assert!(rt; (stepped.decision, stepped.visits) == (Decision::Next(2), 3));
    Ok(())
}

#[test]
fn intervals_meet_at_their_starts(rt: HostRuntime) {
    let (early, late): (Interval, Interval) = (Interval::after(3u64), Interval::after(8u64));
    let (both, any): (Interval, Interval) = (early.intersect(&late), early.union(&late));
    let starts: (u64, u64) = (both.start(), any.start());
    assert!(rt; starts == (8, 3));
}

// An entry of a script, from its fields.
fn beat_of(ms: u64, outcome: Outcome) -> Beat {
    Beat { ms, outcome }
}

// A script of one entry.
fn script_of(alloc: Global, beat: Beat) -> Result<Script, Fail> {
    let mut beats: Vec<Beat> = Vec::new(alloc);
    beats.push(beat)?;
    let script: Result<Script, ScriptFault> = Script::new(beats);
    Ok(script?)
}

// An attempt that sees a moment: its end.
fn end_of(beat: Beat, begun: u64, now: u64) -> u64
    requires later { begun ≤ now }
{
    let mut attempt: Attempt = Attempt::start(beat, begun);
    attempt.see(now);
    attempt.end()
}

// A poll of an attempt, with the types of its argument and result.
fn poll_attempt(attempt: &mut Attempt, cx: &mut Context<'_>) -> Poll<Outcome> {
    attempt.poll(cx)
}

#[test]
fn an_attempt_takes_the_time_of_its_entry(rt: HostRuntime) -> Result<(), Fail> {
    let script = script_of(rt.alloc(), beat_of(5, Outcome::Bad(7u64)))?;
    let beat: Beat = script.beat(1u64);
    assert!(rt; beat == beat_of(5, Outcome::Bad(7)));
    assert!(rt; end_of(beat, 10, 11) == 15);
    assert!(rt; end_of(beat_of(5, Outcome::Good(1u64)), u64::MAX - 3, u64::MAX) == u64::MAX);
    Ok(())
}

// A job, from its fields.
fn job_of(name: String, mode: Mode, schedule: Checked, start: u64, script: Script) -> Job {
    Job {
        name,
        mode,
        schedule,
        start,
        script,
    }
}

// A task of such a job.
fn task_of(alloc: Global, number: u64) -> Result<Task, Fail> {
    let script = script_of(alloc, beat_of(5, Outcome::Bad(7)))?;
    let schedule = read(alloc, "recurs(3)")?;
    let name = String::from_str(alloc, "a")?;
    let job = job_of(name, Mode::Retry, schedule, 9, script);
    let task: Result<Task, DriveFault> = Task::new(alloc, number, job);
    Ok(task?)
}

// What is known of a task.
fn known(alloc: Global, task: &Task) -> Result<String, AllocError> {
    let (number, name, mode): (u64, &str, Mode) = (task.number(), task.name(), task.mode());
    let (polls, due, broken): (u64, Option<u64>, bool) = (task.polls(), task.due(), task.broken());
    let (records, ending): (&[Attempted], Option<Ending>) = (task.records(), task.ending());
    let count = records.len();
    format!(in alloc; "{number} {name} {mode:?}: {polls} {due:?} {broken} {count} {ending:?}")
}

// The moment of the next poll, with its type.
fn see(task: &mut Task, now: u64)
    requires later { task.old.seen ≤ now }
    requires bounded { now ≤ max_tick }
{
    task.see(now);
}

// A poll of a task, with the types of its argument and result.
fn poll_task(task: &mut Task, cx: &mut Context<'_>) -> Poll<Result<Ending, DriveFault>> {
    task.poll(cx)
}

#[test]
fn a_task_is_known_by_its_number_and_job(rt: HostRuntime) -> Result<(), Fail> {
    let task = task_of(rt.alloc(), 7)?;
    let found = known(rt.alloc(), &task);
    drop(task);
    expect_text(
        &rt,
        &found?,
        "7 a Retry: 0 Some(9) false 0 None",
        "the task",
    );
    Ok(())
}

// A record, and how it ended, from their fields.
fn record_of(begun: u64, ended: Option<Ended>) -> Attempted {
    Attempted { begun, ended }
}

fn ended_of(at: u64, outcome: Outcome, step: Option<(Out, Decision)>) -> Ended {
    Ended { at, outcome, step }
}

// The text of a record.
fn text_of(alloc: Global, record: &Attempted) -> Result<String, AllocError> {
    let mut text = String::new(alloc);
    push_record(&mut text, record)?;
    Ok(text)
}

#[test]
fn a_record_has_its_attempts_end_and_step(rt: HostRuntime) -> Result<(), Fail> {
    let ended = ended_of(5, Outcome::Bad(7), Some((Out::Num(0), Decision::Stop)));
    let found = text_of(rt.alloc(), &record_of(2, Some(ended)))?;
    expect_text(&rt, &found, "2..5 Bad(7) 0 Stop\n", "a record");
    Ok(())
}

#[test]
fn each_mode_outcome_decision_and_ending_has_its_name(rt: HostRuntime) -> Result<(), Fail> {
    let (retry, repeat): (Mode, Mode) = (Mode::Retry, Mode::Repeat);
    let (good, bad): (Outcome, Outcome) = (Outcome::Good(1u64), Outcome::Bad(2u64));
    let (stop, next): (Decision, Decision) = (Decision::Stop, Decision::Next(3u64));
    let (succeeded, failed) = (Ending::Succeeded(4u64), Ending::Failed(5u64));
    let finished: Ending = Ending::Finished;
    let found = format!(in rt.alloc();
        "{retry:?} {repeat:?} {good:?} {bad:?} {stop:?} {next:?} {succeeded:?} {failed:?} {finished:?}"
    )?;
    let wanted = "Retry Repeat Good(1) Bad(2) Stop Next(3) Succeeded(4) Failed(5) Finished";
    expect_text(&rt, &found, wanted, "the forms");
    Ok(())
}

// Sets a job's timer, if it has none and the moment is ahead.
fn set(agenda: &mut Agenda, job: u64, moment: u64) -> Result<(), AgendaFault> {
    let is_set: bool = agenda.is_set(job);
    if is_set {
        return Ok(());
    }
    let taken: Option<u64> = agenda.taken();
    match taken {
        Some(taken) if moment <= taken => Ok(()),
        _ => agenda.set(job, moment),
    }
}

// A new queue of one timer: the next moment, and what a take returns.
fn taken_of(alloc: Global) -> Result<(Option<u64>, Option<(u64, Vec<u64>)>), AgendaFault> {
    let agenda: Result<Agenda, AgendaFault> = Agenda::new(alloc);
    let mut agenda: Agenda = agenda?;
    set(&mut agenda, 3, 50)?;
    let next: Option<u64> = agenda.next();
    let taken: Result<Option<(u64, Vec<u64>)>, AgendaFault> = agenda.take();
    Ok((next, taken?))
}

#[test]
fn a_timer_fires_at_its_moment(rt: HostRuntime) -> Result<(), Fail> {
    let (next, taken) = taken_of(rt.alloc())?;
    let found = format!(in rt.alloc(); "{next:?} {taken:?}")?;
    expect_text(&rt, &found, "Some(50) Some((50, [3]))", "a timer");
    Ok(())
}

#[test]
fn a_clock_of_milliseconds_ends_at_its_horizon(rt: HostRuntime) {
    let clock: Option<Clock> = Clock::every_ms(100u64);
    let clock: Clock = clock.expect(&rt, "within the limit");
    let (horizon, last): (u64, Option<u64>) = (clock.horizon(), clock.tick(100u64));
    assert!(rt; (horizon, last, clock.tick(101)) == (100, Some(100), None));
    assert!(rt; Clock::every_ms(999_999_999_999_999).is_some());
    assert!(rt; Clock::every_ms(1_000_000_000_000_000).is_none());
}

#[test]
fn each_fault_has_its_text(rt: HostRuntime) -> Result<(), Fail> {
    for (fault, wanted) in [
        (TermFault::NoTerm { at: 7u64 }, "no term at byte 7"),
        (TermFault::TooBig, "too big"),
        (
            TermFault::BadNumber { at: 8u64 },
            "number too large at byte 8",
        ),
        (TermFault::BadFactor, "factor is 0"),
        (TermFault::NoKind, "no kind"),
        (TermFault::BadWindow, "window is 0"),
        (TermFault::Memory, "out of memory"),
    ] {
        let found = format!(in rt.alloc(); "{fault}")?;
        expect_text(&rt, &found, wanted, "a fault");
    }
    let (empty, long, no_time) = (
        ScriptFault::Empty,
        ScriptFault::TooLong,
        ScriptFault::ZeroMs,
    );
    let found = format!(in rt.alloc(); "{empty}, {long}, {no_time}")?;
    let wanted = "empty, more than 1000 entries, an entry takes 0 ms";
    expect_text(&rt, &found, wanted, "the faults of scripts");
    let (step, task, agenda) = (StepFault::Memory, DriveFault::Memory, AgendaFault::Memory);
    let found = format!(in rt.alloc(); "{step}, {task}, {agenda}")?;
    let wanted = "out of memory, out of memory, out of memory";
    expect_text(&rt, &found, wanted, "the other faults");
    Ok(())
}
