// Command lines, and what is read of them.
use super::*;
use std::process::Abort;
use std::test::Fail;

mod check;
mod compare;
mod demo;
mod options;
mod plan;
mod simulate;

fn words_of(alloc: Global, line: &str) -> Result<Vec<String>, Fail> {
    let mut words = Vec::new(alloc);
    for word in line.split(' ') {
        words.push(word.to_string(alloc)?)?;
    }
    Ok(words)
}

/// What becomes of the words of a line.
fn outcome(alloc: Global, head: &str, tail: &str) -> Result<&'static str, Fail> {
    let line = format!(in alloc; "{head}{tail}")?;
    let words = words_of(alloc, line.as_str())?;
    Ok(match read_words(alloc, words.as_slice()) {
        Ok(_) => "read",
        Err(WordsErr::Usage) => "refused",
        Err(WordsErr::Memory) => "memory",
    })
}

fn expect(
    rt: &impl Abort,
    alloc: Global,
    head: &str,
    tails: &[&str],
    wanted: &str,
) -> Result<(), Fail> {
    for tail in tails {
        assert_eq!(rt; outcome(alloc, head, tail)?, wanted, "{head}{tail}");
    }
    Ok(())
}

// The words of the line are read, and this is what they ask for.
fn says(rt: &impl Abort, alloc: Global, line: &str, wanted: &str) -> Result<(), Fail> {
    let words = words_of(alloc, line)?;
    match read_words(alloc, words.as_slice()) {
        Ok(command) => assert_eq!(rt; format!(in alloc; "{command:?}")?.as_str(), wanted),
        Err(why) => assert_eq!(rt; format!(in alloc; "{why:?}")?.as_str(), wanted, "{line}"),
    }
    Ok(())
}
