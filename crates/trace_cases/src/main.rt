// Reads cases from standard input and prints what each line of a trace says; then some cycles that are not written.
// A case is one line: `=` and a line of names, `>` and a line of values, or a comment.
#![tactic(auto)]

use std::io;
use std::io::{BufRead, BufReader};
use trace::{Column, Columns, Cycle, LineRefusal};
use writer::write_and_read;

// Room for the longest line. What the line leaves of it shows as `~`.
const PLACE: [u8; 16] = [b'~'; 16];

// Cycles at the edges of the writer's checks, each with the room that it gets.
const WRITES: [(Cycle, usize); 6] = [
    (
        Cycle::Load {
            gap: 0,
            address: 0x100000,
            data: 0,
        },
        16,
    ),
    (
        Cycle::Read {
            gap: 0,
            address: 0x100000,
        },
        15,
    ),
    (
        Cycle::Read {
            gap: 0,
            address: 0xFFFFFFFF,
        },
        0,
    ),
    (
        Cycle::Read {
            gap: 0,
            address: 0xFFFFF,
        },
        15,
    ),
    (Cycle::Wait { gap: 0 }, 15),
    (
        Cycle::Load {
            gap: 65535,
            address: 0xFFFFF,
            data: 255,
        },
        16,
    ),
];

fn print_refusal(rt: &HostRuntime, refusal: LineRefusal) -> io::Result<()> {
    let number = refusal.number();
    let column = refusal.column().map_or("-", Column::name);
    println!(rt; "refused {number} {column}")
}

fn print_columns(rt: &HostRuntime, columns: Columns) -> io::Result<()> {
    if columns.is_standard() {
        println!(rt; "standard columns")
    } else {
        println!(rt; "columns")
    }
}

fn print_write(rt: &HostRuntime, cycle: Cycle, place: &mut [u8]) -> io::Result<()> {
    match write_and_read(cycle, place) {
        Ok(back) => {
            if back != cycle {
                println!(rt; "another cycle:")?;
            }
        }
        Err(refusal) => {
            let number = refusal.number();
            println!(rt; "not written {number}:")?;
        }
    }
    rt.write_all(place)?;
    println!(rt; "")
}

fn run_case(rt: &HostRuntime, columns: &mut Columns, case: &[u8]) -> io::Result<()> {
    match case {
        [b'=', line @ ..] => match Columns::from_names(line) {
            Ok(named) => {
                *columns = named;
                print_columns(rt, named)
            }
            Err(refusal) => print_refusal(rt, refusal),
        },
        [b'>', line @ ..] => match Cycle::from_line(*columns, line) {
            Ok(cycle) => {
                let mut place = PLACE;
                print_write(rt, cycle, &mut place)
            }
            Err(refusal) => print_refusal(rt, refusal),
        },
        comment => {
            rt.write_all(comment)?;
            println!(rt; "")
        }
    }
}

fn run_cases(rt: &HostRuntime) -> io::Result<()> {
    let input = BufReader::new(rt.alloc(), rt.stdin())?;
    let mut columns = Columns::standard();
    for case in input.split(rt.alloc(), b'\n') {
        let case = case?;
        run_case(rt, &mut columns, case.as_slice())?;
    }
    Ok(())
}

// The checks of the writer: first the address, then the place.
fn run_writes(rt: &HostRuntime) -> io::Result<()> {
    println!(rt; "# an address above FFFFF, then a place under 16 bytes")?;
    for (cycle, room) in WRITES {
        let mut place = PLACE;
        let room = room.min(place.len());
        print_write(rt, cycle, &mut place[..room])?;
    }
    Ok(())
}

fn main(rt: HostRuntime) -> io::Result<()> {
    run_cases(&rt)?;
    run_writes(&rt)
}

#[cfg(test)]
mod tests {
    use super::*;

    // Columns beside lent memory, as a report keeps them.
    #[derive(Drop)]
    struct Kept<'a> {
        columns: Columns,
        places: &'a mut [u8],
    }

    // Proved only where `Columns` has no ghost field.
    fn keep(kept: Kept<'_>) -> Option<Kept<'_>> {
        Some(kept)
    }

    #[test]
    fn columns_stand_beside_lent_memory(rt: HostRuntime) {
        let mut place = PLACE;
        let kept = keep(Kept {
            columns: Columns::standard(),
            places: &mut place,
        });
        assert!(rt; kept.is_some());
    }
}
