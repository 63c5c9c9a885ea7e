//! The lines of a report.
use crate::choice::Choice;
use crate::shape::Shape;
use crate::topic::{TOPICS, Topic};
use crate::work::{Work, time};
use std::alloc::{AllocError, Global};
use std::io;

// How often each work is done; the least time counts.
const REPEATS: u32 = 3;

/// Prints the least time of each chosen work, for each shape of rows.
pub(crate) fn report(rt: &HostRuntime, choice: Choice<'_>, rows: usize) -> io::Result<()> {
    for topic in TOPICS {
        report_topic(rt, choice, topic, rows)?;
    }
    Ok(())
}

fn report_topic(rt: &HostRuntime, choice: Choice<'_>, topic: Topic, rows: usize) -> io::Result<()> {
    for &shape in topic.shapes() {
        let mut lines = lines_of(rt.alloc(), choice, topic)?;
        take_turns(rt, &mut lines, shape, rows)?;
        print_lines(rt, lines.as_slice(), shape, rows)?;
    }
    Ok(())
}

// A work, and the least time that it took.
#[derive(Clone, Copy)]
struct Line {
    work: Work,
    name: &'static str,
    nanoseconds: u64,
}

// The works of a topic that are chosen.
fn lines_of(alloc: Global, choice: Choice<'_>, topic: Topic) -> Result<Vec<Line>, AllocError> {
    let mut lines = Vec::new(alloc);
    for &(work, name) in topic.works() {
        if choice.takes(topic, name) {
            lines.push(Line {
                work,
                name,
                nanoseconds: u64::MAX,
            })?;
        }
    }
    Ok(lines)
}

// Does the works by turns, so that a pause of the machine affects all of them.
fn take_turns(
    rt: &HostRuntime,
    lines: &mut Vec<Line>,
    shape: Shape,
    rows: usize,
) -> io::Result<()> {
    for _ in 0..REPEATS {
        take_turn(rt, lines, shape, rows)?;
    }
    Ok(())
}

fn take_turn(rt: &HostRuntime, lines: &mut Vec<Line>, shape: Shape, rows: usize) -> io::Result<()> {
    for line in lines.iter_mut() {
        let timing = time(rt, line.work, shape, rows)?;
        if timing.came == 0 {
            println!(rt; "{}, {}: it went wrong", shape.name, line.name)?;
        }
        line.nanoseconds = line.nanoseconds.min(timing.nanoseconds);
    }
    Ok(())
}

fn print_lines(rt: &HostRuntime, lines: &[Line], shape: Shape, rows: usize) -> io::Result<()> {
    for line in lines {
        print_line(rt, line, shape, rows)?;
    }
    Ok(())
}

fn print_line(rt: &HostRuntime, line: &Line, shape: Shape, rows: usize) -> io::Result<()> {
    let tenths = line.nanoseconds / 100_000;
    let each_second = (rows as u64).saturating_mul(1_000_000_000) / line.nanoseconds.max(1);
    println!(rt;
        "{rows:>8}  {:<13}  {:<22} {:>6}.{} {each_second:>9}",
        shape.name,
        line.name,
        tenths / 10,
        tenths % 10
    )
}
