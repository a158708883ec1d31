// A store that is lent is a store: each call is passed on in a line, which no form makes plainer.
use crate::refusal::RowRefusal;
use crate::store::Store;

impl<'a, S: Store> Store for &'a mut S {
    ghost meaning = { λ s. S.meaning s.now };

    ghost lawful = { λ s. S.lawful s.now };

    ghost promise = { λ s asked given t. S.promise s.now asked given t.now };

    fn rows(&mut self) -> usize {
        (**self).rows()
    }

    fn read(&mut self, row: usize, place: &mut [u8]) -> Result<(), RowRefusal> {
        (**self).read(row, place)
    }

    fn write(&mut self, row: usize, bytes: &[u8]) -> Result<(), RowRefusal> {
        (**self).write(row, bytes)
    }

    fn is_locked(&mut self, row: usize) -> Result<bool, RowRefusal> {
        (**self).is_locked(row)
    }
}
