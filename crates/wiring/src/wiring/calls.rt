// What a wiring does.
ghost use Rattle.std.specs.Prelude.{◌≡◌, ℕ, ◌<◌, List, map, slice_index};
ghost use Rattle.std.specs.List.{range_with_len};
ghost use Rattle.wiring.specs.Lines.{crossed, reversed, Shows};
ghost use Rattle.wiring.specs.Rewiring.{Rewires};

use crate::lines;
use crate::refusal::WiringRefusal;
use crate::wiring::Wiring;

impl Wiring {
    // Each line shows itself.
    pub fn straight() -> Wiring
        ensures { result.lines ≡ range_with_len 0 8 }
    {
        Wiring {
            lines: [0, 1, 2, 3, 4, 5, 6, 7],
        }
    }

    // The lines below, in the order of the lines that show them.
    pub fn lines(&self) -> &[u8; 8]
        ensures { result.now ≡ self.now.lines }
    {
        &self.lines
    }

    // Takes new lines, or refuses them and stays as it is.
    pub fn set(&mut self, lines: &[u8]) -> Result<(), WiringRefusal>
        ensures { Rewires self.old.lines self.new.lines lines.now result }
    {
        let lines = lines.as_array().ok_or(WiringRefusal::NotOnce)?;
        if !lines::name_each_once(lines) {
            return Err(WiringRefusal::NotOnce);
        }
        self.lines = *lines;
        Ok(())
    }

    // The wiring that shows what each line below carries.
    pub fn reversed(&self) -> Wiring
        ensures lines { result.lines ≡ reversed self.now.lines }
        ensures undone { (bs : List ℕ) → ((i : ℕ) → slice_index bs i < 256) → map (crossed self.now.lines) (map (crossed result.lines) bs) ≡ bs }
    {
        Wiring {
            lines: Wiring::straight()
                .lines
                .map(|line| lines::position(&self.lines, line)),
        }
    }

    // The byte whose bit i is the bit of b that line i names.
    fn cross(&self, b: u8) -> u8
        ensures { result ≡ crossed self.now.lines b }
    {
        self.lines
            .iter()
            .rev()
            .fold(0, |out, line| 2 * out + (b >> *line) % 2)
    }

    // Turns each byte from below into the byte that shows.
    pub fn show(&self, bytes: &mut [u8])
        ensures { Shows self.now.lines bytes.old bytes.new }
    {
        for b in bytes.iter_mut() {
            *b = self.cross(*b);
        }
    }

    // Turns each byte into the one that has to lie below for it to show.
    pub fn lay(&self, bytes: &mut [u8])
        ensures lies { bytes.new ≡ map (crossed (reversed self.now.lines)) bytes.old }
        ensures back { map (crossed self.now.lines) bytes.new ≡ bytes.old }
    {
        self.reversed().show(bytes);
    }
}
