// The codes that a load period may begin with.
ghost use Rattle.std.specs.Prelude.{◌≡◌};
ghost use Rattle.bus.specs.Codes.{at, unlock, unlock_twice, coded_code, six_code};

use crate::load::Load;

// The last byte of the six loads that lift data protection, and of those before a boot block's lockout.
pub const LIFT: u8 = 0x20;

pub const LOCKOUT: u8 = 0x40;

// The load of each code at one of its two addresses.
fn first(byte: u8) -> Load
    ensures { result ≡ at 0x5555 byte }
{
    Load {
        address: 0x5555,
        byte,
    }
}

fn second() -> Load
    ensures { result ≡ at 0x2AAA 0x55 }
{
    Load {
        address: 0x2AAA,
        byte: 0x55,
    }
}

// The two loads that every code begins with.
pub fn unlock() -> [Load; 2]
    ensures { result ≡ unlock }
{
    [first(0xAA), second()]
}

// What every code of six loads begins with.
pub fn unlock_twice() -> [Load; 5]
    ensures { result ≡ unlock_twice }
{
    [first(0xAA), second(), first(0x80), first(0xAA), second()]
}

// The code of protected programming.
pub fn coded() -> [Load; 3]
    ensures { result ≡ coded_code }
{
    [first(0xAA), second(), first(0xA0)]
}

// The code of six loads that ends with this byte.
pub fn six(byte: u8) -> [Load; 6]
    ensures { result ≡ six_code byte }
{
    [
        first(0xAA),
        second(),
        first(0x80),
        first(0xAA),
        second(),
        first(byte),
    ]
}
