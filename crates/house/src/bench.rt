// A chip on its bus: a write and its polling, a lock, refusals and identification.
use bus::call::Call;
use bus::load::Load;
use chip::part::Part;
use kinds::part_kind::At29c010a;
use kinds::steady::Steady;
use parts::making::make;
use parts::run::run;
use texts::BusAnswer;

// The chip's 1,024 sectors, and how long a cycle takes it in microseconds.
const CHIP_BYTES: usize = 1024 * 128;

const CYCLE_TIME: u16 = 250;

fn load(address: u32, byte: u8, gap: u16) -> Call {
    Call::Load(Load { address, byte }, gap)
}

// A protected write into sector 63, polled until two statuses are followed by the byte itself.
fn write_and_poll() -> [Call; 9] {
    [
        load(0x5555, 0xAA, 1),
        load(0x2AAA, 0x55, 1),
        load(0x5555, 0xA0, 1),
        load(0x1F80, 0x42, 1),
        Call::Read(0x1F80, 1),
        Call::Read(0x1F80, 100),
        load(0x1F81, 0x43, 100),
        Call::Read(0x1F80, 100),
        Call::Read(0x1F80, 100),
    ]
}

// The upper boot block locked for good, identification, and codes that the bus does not let through.
fn lock_and_identify() -> [Call; 12] {
    [
        load(0x5555, 0xAA, 1),
        load(0x2AAA, 0x55, 1),
        load(0x5555, 0x80, 1),
        load(0x5555, 0xAA, 1),
        load(0x2AAA, 0x55, 1),
        load(0x5555, 0x40, 1),
        load(0x1FFFF, 0xFF, 1),
        Call::Identify,
        load(0x20000, 0x00, 1),
        load(0x5555, 0xAA, 1),
        load(0x2AAA, 0x55, 1),
        load(0x5555, 0x90, 1),
    ]
}

// Makes the calls, and prints each with its answer.
fn calls(rt: &HostRuntime, part: &mut Part<'_, Steady>, calls: &[Call]) -> anyhow::Result<()> {
    let answers = run(rt.alloc(), part, calls)?;
    for (call, answer) in calls.iter().zip(answers.iter()) {
        println!(rt; "  {call}: {}", BusAnswer(*answer))?;
    }
    Ok(())
}

pub(crate) fn show(rt: &HostRuntime) -> anyhow::Result<()> {
    let mut memory = vec![in rt.alloc(); 0xFF; CHIP_BYTES]?;
    let mut part = make::<At29c010a, Steady>(&mut memory, Steady::new(CYCLE_TIME));
    println!(rt; "a write to a chip, polled")?;
    calls(rt, &mut part, &write_and_poll())?;
    println!(rt; "a lock, and what the bus refuses")?;
    calls(rt, &mut part, &lock_and_identify())
}
