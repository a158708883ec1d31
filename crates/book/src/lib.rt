// A book: records of one kind, in memory that the caller lends, and so a slice and a count, without a heap.
#![tactic(auto)]

ghost use Rattle.std.specs.Prelude.{◌≡◌, ◌≤◌, [], length, ◌==◌, nat_le};

// Why a record is not added, by the number under which it is reported.
#[derive(Clone, Copy, PartialEq, Eq, Debug)]
pub enum BookRefusal {
    // No place is free.
    Full = 10,
}

impl BookRefusal {
    ghost use Rattle.book.specs.Records.{number_of};

    pub fn number(self) -> u8
        ensures { result ≡ number_of self }
    {
        self as u8
    }
}

// The records stand in the first places, in the order added.
#[derive(Drop)]
pub struct Book<'a, T> {
    places: &'a mut [T],
    used: usize,
    ghost within: { used ≤ length places.now },
}

impl<'a, T: Drop> Book<'a, T> {
    ghost use Rattle.book.specs.Records.{records, capacity, Added, Found};

    // An empty book over these places: what they hold is no record yet.
    pub fn new(places: &'a mut [T]) -> Book<'a, T>
        ensures empty { records result ≡ [] }
        ensures places { capacity result ≡ length places.old }
    {
        Book { places, used: 0 }
    }

    // One record more, after the others.
    pub fn add(&mut self, record: T) -> Result<(), BookRefusal>
        ensures { Added self.old «record» result self.new }
    {
        if self.is_full() {
            return Err(BookRefusal::Full);
        }
        self.places[self.used] = record;
        self.used += 1;
        Ok(())
    }

    // Frees every place.
    pub fn clear(&mut self)
        ensures empty { records self.new ≡ [] }
        ensures places { capacity self.new ≡ capacity self.old }
    {
        self.used = 0;
    }

    pub fn len(&self) -> usize
        ensures { result ≡ length (records self.now) }
    {
        self.as_slice().len()
    }

    pub fn is_empty(&self) -> bool
        ensures { result ≡ (length (records self.now) == 0) }
    {
        self.used == 0
    }

    pub fn is_full(&self) -> bool
        ensures { result ≡ nat_le (capacity self.now) (length (records self.now)) }
    {
        self.used == self.places.len()
    }

    // All records, in the order added.
    pub fn as_slice(&self) -> &[T]
        ensures { result.now ≡ records self.now }
    {
        &self.places[..self.used]
    }

    // The record that was added after `index` others.
    pub fn get(&self, index: usize) -> Option<&T>
        ensures { Found (records self.now) index result }
    {
        self.as_slice().get(index)
    }
}

#[cfg(test)]
mod tests {
    use super::*;

    // A struct that holds a book among other things, as a bench does.
    #[derive(Drop)]
    struct Log<'a> {
        lines: u64,
        faults: Book<'a, (u64, u8)>,
    }

    impl Log<'_> {
        fn fault(&mut self, number: u8) -> Result<(), BookRefusal> {
            self.lines = self.lines.saturating_add(1);
            self.faults.add((self.lines, number))
        }
    }

    #[test]
    fn keeps_order_and_refuses_when_full(rt: HostRuntime) {
        let mut places = [(0, 0); 2];
        let mut log = Log {
            lines: 0,
            faults: Book::new(&mut places),
        };
        assert!(rt; log.faults.is_empty() && !log.faults.is_full());
        assert_eq!(rt; log.fault(11), Ok(()));
        assert_eq!(rt; log.fault(14), Ok(()));
        assert_eq!(rt; log.fault(12), Err(BookRefusal::Full));
        assert_eq!(rt; log.faults.len(), 2);
        assert_eq!(rt; log.faults.get(0).copied(), Some((1, 11)));
        assert_eq!(rt; log.faults.get(1).copied(), Some((2, 14)));
        assert_eq!(rt; log.faults.get(2).copied(), None);
        log.faults.clear();
        assert_eq!(rt; log.fault(13), Ok(()));
        assert_eq!(rt; log.faults.as_slice(), [(4, 13)].as_slice());
    }

    #[test]
    fn no_places_is_full(rt: HostRuntime) {
        let mut places: [u8; 0] = [];
        let mut book = Book::new(&mut places);
        assert!(rt; book.is_full() && book.is_empty());
        assert_eq!(rt; book.add(1), Err(BookRefusal::Full));
        assert_eq!(rt; BookRefusal::Full.number(), 10);
    }
}
