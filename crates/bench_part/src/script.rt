// The lines of a script.
use anyhow::{Context, anyhow};
use bus::call::Call;
use bus::load::Load;
use std::alloc::Global;
use std::str::Split;

// Which part to make: its kind, the byte that fills its memory, and its cycle times.
#[derive(Drop)]
pub struct Setup {
    pub chip: Chip,
    pub fill: u8,
    pub timing: Timing,
}

#[derive(Clone, Copy)]
pub enum Chip {
    At29c010a,
    Bench,
}

#[derive(Drop)]
pub enum Timing {
    Steady(u16),
    Uneven(Vec<u16>),
}

#[derive(Drop)]
pub enum Line {
    Part(Setup),
    Call(Call),
}

fn word<'a>(words: &mut Split<'a, char>) -> anyhow::Result<&'a str> {
    words.next().context("a word is missing")
}

impl Setup {
    pub(crate) fn standard() -> Setup {
        Setup {
            chip: Chip::Bench,
            fill: 0xFF,
            timing: Timing::Steady(10000),
        }
    }

    fn parse(heap: Global, mut words: Split<'_, char>) -> anyhow::Result<Setup> {
        let chip = match word(&mut words)? {
            "AT29C010A" => Chip::At29c010a,
            "bench" => Chip::Bench,
            _ => return Err(anyhow!("no such kind of part")),
        };
        let fill = u8::from_str_radix(word(&mut words)?, 16)?;
        let timing = match word(&mut words)? {
            "steady" => Timing::Steady(word(&mut words)?.parse::<u16>()?),
            "uneven" => Timing::Uneven(times(heap, words)?),
            _ => return Err(anyhow!("no such behaviour")),
        };
        Ok(Setup { chip, fill, timing })
    }
}

fn times(heap: Global, words: Split<'_, char>) -> anyhow::Result<Vec<u16>> {
    words
        .map(|word| -> anyhow::Result<u16> { Ok(word.parse::<u16>()?) })
        .try_collect(heap)
}

fn parse_call(op: &str, words: &mut Split<'_, char>) -> anyhow::Result<Call> {
    let gap = word(words)?.parse::<u16>()?;
    let address = word(words)?;
    let byte = word(words)?;
    match op {
        "L" => {
            let address = u32::from_str_radix(address, 16)?;
            let byte = u8::from_str_radix(byte, 16)?;
            Ok(Call::Load(Load { address, byte }, gap))
        }
        "R" => Ok(Call::Read(u32::from_str_radix(address, 16)?, gap)),
        "W" => Ok(Call::Wait(gap)),
        _ => Err(anyhow!("no such call")),
    }
}

impl Line {
    // A line such as `part bench FF steady 10000`, `L 1 5555 AA`, `R 1 5555 -`, `W 151 - -` or `I`.
    pub(crate) fn parse(heap: Global, line: &str) -> anyhow::Result<Line> {
        let mut words = line.split(' ');
        match word(&mut words)? {
            "part" => Ok(Line::Part(Setup::parse(heap, words)?)),
            "I" => Ok(Line::Call(Call::Identify)),
            op => Ok(Line::Call(parse_call(op, &mut words)?)),
        }
    }
}
