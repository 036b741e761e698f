//! What will happen, and when.

use resolver_base::Moment;
use std::alloc::{AllocError, Global};
use std::collections::{BTreeMap, VecDeque};

/// When something happens: at a moment, and there in the order in which things were put down.
type Place = (Moment, u64);

/// What will happen, by its moment, and at one moment in the order in which it was put down. A call takes time
/// logarithmic in how much will happen later than at the next moment.
#[derive(Drop)]
pub struct Agenda<T> {
    coming: BTreeMap<Place, T>,
    /// What was put down to happen at once, in order.
    soon: VecDeque<(Place, T)>,
    order: u64,
}

impl<T: Drop> Agenda<T> {
    /// Nothing will happen.
    pub fn new(alloc: Global) -> Agenda<T> {
        Agenda {
            coming: BTreeMap::new(alloc),
            soon: VecDeque::new(alloc),
            order: 0,
        }
    }

    /// This will happen at that moment.
    pub fn put(&mut self, at: Moment, what: T) -> Result<(), AllocError> {
        self.coming.insert((at, self.order), what)?;
        self.order = self.order.saturating_add(1);
        Ok(())
    }

    /// This will happen at once: now, after all that is to happen now already.
    pub fn put_soon(&mut self, now: Moment, what: T) -> Result<(), AllocError> {
        self.soon.push_back(((now, self.order), what))?;
        self.order = self.order.saturating_add(1);
        Ok(())
    }

    /// What happens next, with its moment, if anything will. It is taken off the agenda.
    pub fn take(&mut self) -> Option<(Moment, T)> {
        if self.is_soon_first() {
            let ((at, _), what) = self.soon.pop_front()?;
            return Some((at, what));
        }
        let ((at, _), what) = self.coming.pop_first()?;
        Some((at, what))
    }

    /// Whether what was put down to happen at once is next.
    fn is_soon_first(&self) -> bool {
        match (self.soon.front(), self.coming.first_key_value()) {
            (Some((soon, _)), Some((first, _))) => soon < first,
            (soon, _) => soon.is_some(),
        }
    }
}
