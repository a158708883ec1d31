// Bytes as a support engineer reads them.
use std::fmt;

// Equal neighbours are told together: `128 x 21, 2 x AA`.
#[derive(Clone, Copy)]
pub struct Bytes<'a>(pub &'a [u8]);

impl fmt::Display for Bytes<'_> {
    fn fmt<W: fmt::Write>(&self, f: &mut fmt::Formatter<W>) -> fmt::Result {
        if self.0.is_empty() {
            return write!(f, "0 x 00");
        }
        for (i, run) in self.0.chunk_by(|a, b| a == b).enumerate() {
            if i > 0 {
                write!(f, ", ")?;
            }
            let (length, value) = (run.len(), run[0]);
            write!(f, "{length} x {value:02X}")?;
        }
        Ok(())
    }
}
