// Each table is data, and one loop runs it.
use abrlab_top::{Printed, run, run_in_memory};
use lab_io::{MemShelf, MemSink};
use std::alloc::{AllocError, Global};
use std::process::Abort;
use std::test::Fail;

mod check;
mod compare;
mod cuts;
mod demo;
mod failures;
mod files;
mod made;
mod near;
mod plan;
mod players;
mod reach;
mod regret;
mod rules;
mod simulate;
mod statuses;
mod tables;
mod usage;

// A file: its name and what it holds.
type File = (&'static str, &'static str);

// No file of its own.
const NO_FILE: File = ("", "");

// What stands on `out`.
#[derive(Clone, Copy)]
enum Text {
    Is(&'static str),
    Begins(&'static str),
    Ends(&'static str),
    // So many lines, which end with this text.
    Counts(usize, &'static str),
}

// A run, and what it answers; a file of its own comes before the others.
struct Case {
    name: &'static str,
    words: &'static str,
    file: File,
    files: &'static [File],
    status: u8,
    out: Text,
    err: &'static str,
}

// The calls that fail, by their numbers.
#[derive(Clone, Copy)]
struct Faults<'a> {
    fetches: &'a [u64],
    puts: &'a [u64],
    notes: &'a [u64],
}

const NONE: Faults<'static> = Faults {
    fetches: &[],
    puts: &[],
    notes: &[],
};

// What a run answered, and the sinks after it.
#[derive(Drop)]
struct Answer {
    status: u8,
    out: MemSink,
    err: MemSink,
}

// How many lines end in these bytes.
fn lines_in(bytes: &[u8]) -> usize {
    bytes.iter().filter(|byte| **byte == b'\n').count()
}

impl Text {
    // Whether the bytes are so.
    fn fits(&self, written: &[u8]) -> bool {
        match self {
            Text::Is(text) => written == text.as_bytes(),
            Text::Begins(text) => written.starts_with(text.as_bytes()),
            Text::Ends(text) => written.ends_with(text.as_bytes()),
            Text::Counts(count, text) => {
                lines_in(written) == *count && written.ends_with(text.as_bytes())
            }
        }
    }
}

impl Answer {
    // Whether it has this status, with these texts on `out` and `err`.
    fn is(&self, status: u8, out: &Text, err: &str) -> bool {
        self.status == status
            && out.fits(self.out.written())
            && self.err.written() == err.as_bytes()
    }

    // Whether it failed to write this text.
    fn lacks_output(&self, text: &str) -> bool {
        self.status == 5
            && self.out.faults() == 1
            && text.as_bytes().starts_with(self.out.written())
            && self.err.written() == b"abrlab: output failed\n".as_slice()
    }
}

// The words of a line.
fn words(alloc: Global, line: &str) -> Result<Vec<String>, AllocError> {
    let mut words = Vec::new(alloc);
    for word in line.split_whitespace() {
        words.push(String::from_str(alloc, word)?)?;
    }
    Ok(words)
}

// A file in memory.
fn file(alloc: Global, name: &str, text: &str) -> Result<(String, Vec<u8>), AllocError> {
    let name = String::from_str(alloc, name)?;
    Ok((name, Vec::from_slice(alloc, text.as_bytes())?))
}

// Puts these files behind those that are there; where a name stands twice, its first file counts.
fn push_files(
    alloc: Global,
    held: &mut Vec<(String, Vec<u8>)>,
    files: &[(&str, &str)],
) -> Result<(), AllocError> {
    for (name, text) in files {
        held.push(file(alloc, name, text)?)?;
    }
    Ok(())
}

// These files in memory.
fn file_list(alloc: Global, files: &[(&str, &str)]) -> Result<Vec<(String, Vec<u8>)>, AllocError> {
    let mut held = Vec::new(alloc);
    push_files(alloc, &mut held, files)?;
    Ok(held)
}

fn sink(alloc: Global, failing: &[u64]) -> Result<MemSink, AllocError> {
    Ok(MemSink::new(alloc, Vec::from_slice(alloc, failing)?))
}

// Runs the words of a line over these files.
fn run_files(
    alloc: Global,
    line: &str,
    files: Vec<(String, Vec<u8>)>,
    faults: Faults,
) -> Result<Answer, AllocError> {
    let mut shelf = MemShelf::new(alloc, files, Vec::from_slice(alloc, faults.fetches)?);
    let words = words(alloc, line)?;
    let mut out = sink(alloc, faults.puts)?;
    let mut err = sink(alloc, faults.notes)?;
    let status = run(alloc, &words, &mut shelf, &mut out, &mut err);
    Ok(Answer { status, out, err })
}

// Runs the words of a line over these files.
fn run_words(
    alloc: Global,
    line: &str,
    files: &[(&str, &str)],
    faults: Faults,
) -> Result<Answer, AllocError> {
    run_files(alloc, line, file_list(alloc, files)?, faults)
}

// What a run answers, over its own file and the others.
fn answer_of(alloc: Global, case: &Case) -> Result<Answer, AllocError> {
    let mut files = file_list(alloc, &[case.file])?;
    push_files(alloc, &mut files, case.files)?;
    run_files(alloc, case.words, files, NONE)
}

// A run comes to what it should.
fn assert_answer(rt: &impl Abort, alloc: Global, case: &Case) -> Result<(), Fail> {
    let answer = answer_of(alloc, case)?;
    assert!(rt;
        answer.is(case.status, &case.out, case.err),
        "{}: {}",
        case.name,
        case.words
    );
    Ok(())
}

// A plan as a certificate, the check of what it printed, and what that answers.
struct Round {
    plan: &'static str,
    check: &'static str,
    files: &'static [File],
    status: u8,
    out: Text,
    err: &'static str,
}

// What the words of a check answer to a certificate `c` beside these files.
fn answer_on(
    alloc: Global,
    words: &str,
    files: &[(&str, &str)],
    certificate: &str,
) -> Result<Answer, AllocError> {
    let mut held = file_list(alloc, files)?;
    push_files(alloc, &mut held, &[("c", certificate)])?;
    run_files(alloc, words, held, NONE)
}

// A check answers what it should to what the plan printed.
fn assert_round(rt: &impl Abort, alloc: Global, round: &Round) -> Result<(), Fail> {
    let plan = run_words(alloc, round.plan, round.files, NONE)?;
    let certificate = str::from_utf8(plan.out.written())?;
    let answer = answer_on(alloc, round.check, round.files, certificate)?;
    assert!(rt;
        answer.is(round.status, &round.out, round.err),
        "{}",
        round.check
    );
    Ok(())
}

// A plan, what it prints, and what the check of its certificate answers. The words of the task are those that both have.
struct Planned {
    task: &'static str,
    plan: &'static str,
    check: &'static str,
    text: &'static str,
    verdict: &'static str,
}

impl Planned {
    // What the plan prints over these files, with these words more.
    fn plan_over(
        &self,
        alloc: Global,
        more: &str,
        files: &[(&str, &str)],
    ) -> Result<Answer, AllocError> {
        let words = format!(in alloc; "plan {} {} {more}", self.task, self.plan)?;
        run_words(alloc, &words, files, NONE)
    }

    // What the check answers to a certificate beside these files.
    fn verdict_on(
        &self,
        alloc: Global,
        certificate: &str,
        files: &[(&str, &str)],
    ) -> Result<Answer, AllocError> {
        let words = format!(in alloc; "check {} {} --certificate c", self.task, self.check)?;
        answer_on(alloc, &words, files, certificate)
    }
}

// Over these files a plan prints what it should, and the check answers what it should to its certificate.
fn assert_planned(
    rt: &impl Abort,
    alloc: Global,
    planned: &Planned,
    files: &[(&str, &str)],
) -> Result<(), Fail> {
    let plan = planned.plan_over(alloc, "", files)?;
    assert!(rt; plan.is(0, &Text::Is(planned.text), ""), "{}", planned.task);
    let certificate = planned.plan_over(alloc, "--as-certificate", files)?;
    let answer = planned.verdict_on(alloc, str::from_utf8(certificate.out.written())?, files)?;
    assert!(rt;
        answer.is(0, &Text::Is(planned.verdict), ""),
        "{}",
        planned.task
    );
    Ok(())
}

// What a run of `simulate` in memory comes to.
fn print_steady(alloc: Global) -> Result<Printed, AllocError> {
    let words = words(alloc, simulate::STEADY)?;
    Ok(run_in_memory(alloc, &words, file_list(alloc, &files::STEADY)?))
}

#[test]
fn over_memory(rt: HostRuntime) -> Result<(), Fail> {
    let printed = print_steady(rt.alloc())?;
    let text = simulate::STEADY_TEXT.as_bytes();
    assert!(rt; printed.status == 0 && printed.out.written() == text);
    assert!(rt; printed.err.written().is_empty());
    Ok(())
}
