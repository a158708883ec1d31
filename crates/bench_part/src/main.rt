// Runs a script of bus calls on reference parts: each line of standard input is printed with its answer.
#![tactic(auto)]

mod play;
mod script;

use bus::call::Call;
use play::play;
use script::{Line, Setup};
use std::io::{BufRead, BufReader};
use texts::BusAnswer;

// A part, and the calls on it, each with the line that asks for it.
#[derive(Drop)]
struct Section {
    setup: Setup,
    calls: Vec<(String, Call)>,
}

// Makes the calls of a section, and prints each line with its answer.
fn finish(rt: &HostRuntime, section: &Section) -> anyhow::Result<()> {
    let heap = rt.alloc();
    let calls: Vec<Call> = section.calls.iter().map(|(_, call)| *call).collect(heap)?;
    let answers = play(heap, &section.setup, &calls)?.answers;
    for ((line, _), answer) in section.calls.iter().zip(answers.iter()) {
        println!(rt; "{line}: {}", BusAnswer(*answer))?;
    }
    Ok(())
}

// Begins the section of a new part.
fn begin(rt: &HostRuntime, line: &str, setup: Setup) -> anyhow::Result<Section> {
    let heap = rt.alloc();
    match play(heap, &setup, &[])?.checked {
        Ok(()) => println!(rt; "{line}: made")?,
        Err(refusal) => println!(rt; "{line}: refused {}", refusal.number())?,
    }
    Ok(Section {
        setup,
        calls: Vec::new(heap),
    })
}

fn run(rt: &HostRuntime) -> anyhow::Result<()> {
    let heap = rt.alloc();
    let mut section = begin(rt, "part bench FF steady 10000", Setup::standard())?;
    for line in BufReader::new(heap, rt.stdin())?.lines(heap) {
        let line = line?;
        match Line::parse(heap, &line)? {
            Line::Part(setup) => {
                finish(rt, &section)?;
                section = begin(rt, &line, setup)?;
            }
            Line::Call(call) => section.calls.push((line, call))?,
        }
    }
    finish(rt, &section)
}

fn main(rt: HostRuntime) -> anyhow::Result<()> {
    run(&rt)
}
