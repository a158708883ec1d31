// Kinds of part.
ghost use Rattle.std.specs.Prelude.{ℕ, ◌≤◌};
ghost use Rattle.std.proofs.Common.{lit≤};

// A kind states its number of sectors and its device code.
pub trait PartKind {
    const SECTORS: u32;

    ghost SECTORS: { ℕ };

    const DEVICE: u8;

    ghost DEVICE: { ℕ };

    ghost bound: { (256 ≤ SECTORS) × (SECTORS ≤ 8192) };
}

// 128 KiB.
#[derive(Clone, Copy)]
pub struct At29c010a;

impl PartKind for At29c010a {
    const SECTORS: u32 = 1024;

    ghost SECTORS = { 1024 };

    const DEVICE: u8 = 0xD5;

    ghost DEVICE = { 0xD5 };

    ghost bound = { (lit≤ tt, lit≤ tt) };
}

// The bench part, 32 KiB.
#[derive(Clone, Copy)]
pub struct Bench;

impl PartKind for Bench {
    const SECTORS: u32 = 256;

    ghost SECTORS = { 256 };

    const DEVICE: u8 = 0x00;

    ghost DEVICE = { 0x00 };

    ghost bound = { (lit≤ tt, lit≤ tt) };
}
