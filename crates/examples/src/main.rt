// Answers the jobs in its folder and compares each answer with the one that stands beside it, and then a table of faulty
// texts with their fault lines.
#![tactic(auto)]

use answer::{Answer, answer_text};
use anyhow::{Context, anyhow};
use job::{MAX_LOG, MAX_TEXT};
use std::alloc::{AllocError, Global};
use std::fs;

const NAMES: [&str; 4] = ["clean_hit", "stalled_reel", "pinned_event", "faulty_text"];

fn main(rt: HostRuntime) -> anyhow::Result<()> {
    run(&rt)
}

fn run(rt: &HostRuntime) -> anyhow::Result<()> {
    for name in NAMES {
        compare_example(rt, name)?;
    }
    let faults = compare_faults(rt)?;
    println!(rt; "{faults} faulty texts: as expected")?;
    compare_lengths(rt.alloc())?;
    println!(rt; "texts of the longest length and one byte more: as expected")?;
    Ok(())
}

// The answer to a text, whatever it is. The log is an array, as the call is lent one.
fn answer_to(heap: Global, text: &[u8]) -> Result<String, AllocError> {
    let mut log = [0; MAX_LOG];
    match answer_text(heap, text, &mut log)? {
        Answer::Report(lines) | Answer::Fault(lines) => Ok(lines),
    }
}

// Answers the job of that name, and compares.
fn compare_example(rt: &HostRuntime, name: &str) -> anyhow::Result<()> {
    let path = format!(in rt.alloc(); "{name}.job")?;
    let text = fs::read(rt, path.as_str())?;
    let path = format!(in rt.alloc(); "{name}.out")?;
    let expected = fs::read(rt, path.as_str())?;
    let answer = answer_to(rt.alloc(), &text)?;
    if answer.as_bytes() != expected.as_slice() {
        return Err(anyhow!("an answer differs"));
    }
    println!(rt; "{name}: as expected")?;
    Ok(())
}

// Compares each line of the table, and answers how many there are.
fn compare_faults(rt: &HostRuntime) -> anyhow::Result<usize> {
    let table = fs::read_to_string(rt, "faults.txt")?;
    for row in table.lines() {
        compare_row(rt, row)?;
    }
    Ok(table.lines().count())
}

// A line of the table: the fault line, a bar, and the text, in which \x and two digits stand for a byte.
fn compare_row(rt: &HostRuntime, row: &str) -> anyhow::Result<()> {
    let (expected, spelled) = row.split_once('|').context("a row has no bar")?;
    let text = unspelled(rt.alloc(), spelled)?;
    let answer = answer_to(rt.alloc(), &text)?;
    if answer.as_str().trim_end() != expected {
        println!(rt; "{row}: {answer}")?;
        return Err(anyhow!("a fault line differs"));
    }
    Ok(())
}

// The bytes that a row of the table spells.
fn unspelled(heap: Global, spelled: &str) -> Result<Vec<u8>, AllocError> {
    let mut bytes = Vec::new(heap);
    let mut rest = spelled.as_bytes().iter();
    while let Some(byte) = rest.next() {
        if *byte == b'\\' {
            let _x = rest.next();
            let high = digit(rest.next());
            let low = digit(rest.next());
            bytes.push(high.wrapping_mul(16).wrapping_add(low))?;
        } else {
            bytes.push(*byte)?;
        }
    }
    Ok(bytes)
}

// The value of a digit in base sixteen, 0 where there is none.
fn digit(byte: Option<&u8>) -> u8 {
    match byte.copied() {
        Some(digit @ b'0'..=b'9') => digit - b'0',
        Some(digit @ b'a'..=b'f') => digit - b'a' + 10,
        _ => 0,
    }
}

// A job that blanks bring to the longest length is read, and one byte more is too long.
fn compare_lengths(heap: Global) -> anyhow::Result<()> {
    let job = b"mismatch size 1 1 bounds 1 0 pins 0 trace 1 1 log 1 1";
    let mut text = job.to_vec(heap)?;
    text.resize(MAX_TEXT, b' ')?;
    if answer_to(heap, &text)?.as_str() != "report 1\n1 0 1\nend 1 0 0\n" {
        return Err(anyhow!("a text of the longest length is refused"));
    }
    text.push(b' ')?;
    if answer_to(heap, &text)?.as_str() != "fault job 4 32768\n" {
        return Err(anyhow!("a text that is too long is read"));
    }
    Ok(())
}
