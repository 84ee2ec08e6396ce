ghost use Rattle.std.specs.Prelude.{◌≡◌, ◌↔◌, ◌≤◌, [], ◌∷◌, ◌++◌, length, slice_get, IsTrue, IfOk, OnOk, OnErr, IfErr, MatchOption};
ghost use Rattle.std.specs.Option.{option_copied};

use crate::PieceTaker;
use std::alloc::{AllocError, AllocFailed, Global};
use std::marker::Model;
use std::mem;

/// A list of at most so many items is moved when it is fitted.
const FEW: usize = 32;

/// A `Vec` that contracts see as the list of its elements.
#[derive(Debug, Drop)]
pub struct List<T> {
    items: Vec<T>,
}

impl<T> Model for List<T> {
    ghost use Rattle.std.specs.Prelude.{List as Items};
    ghost use Rattle.std.specs.Coded.{coded_list};

    ghost Value = { Items T };

    ghost coded = { coded_list T.code };

    ghost view = { λ l. l.items.items };
}

impl<T> List<T> {
    /// An empty list, which takes no memory yet.
    pub fn new(alloc: Global) -> List<T>
        ensures { result ≡ [] }
    {
        List {
            items: Vec::new(alloc),
        }
    }

    /// An empty list with room for so many elements.
    pub fn with_room(alloc: Global, room: usize) -> Result<List<T>, AllocError>
        ensures { IfOk result (λ l. l ≡ []) }
    {
        let items = Vec::with_capacity(alloc, room)?;
        Ok(List { items })
    }

    pub fn from_vec(items: Vec<T>) -> List<T>
        ensures { result ≡ items.items }
    {
        List { items }
    }

    pub fn into_vec(self) -> Vec<T>
        ensures { result.items ≡ self }
    {
        self.items
    }

    /// Gives back the memory of which the list has no need, where that can be done.
    pub fn fit(&mut self)
        ensures { self.new ≡ self.old }
    {
        let len = self.items.len();
        if len > FEW {
            self.items.shrink_to_fit();
        } else if len < self.items.capacity() {
            self.move_out();
        }
    }

    // Moves the items to memory of their number. If they shrank in place, what is left over beside
    // each of many small lists would be too small for the next.
    fn move_out(&mut self)
        ensures { self.new ≡ self.old }
    {
        let alloc = *self.items.allocator();
        let Ok(mut fitted) = Vec::with_capacity(alloc, self.items.len()) else {
            return;
        };
        if fitted.append(&mut self.items).is_ok() {
            mem::swap(&mut self.items, &mut fitted);
        }
        fitted.destroy_empty();
    }

    /// Appends the item, or gives it back and changes nothing.
    pub fn push(&mut self, item: T) -> Result<(), AllocFailed<T>>
        ensures ok { OnOk result (self.new ≡ self.old ++ item ∷ []) }
        ensures err { OnErr result (self.new ≡ self.old) }
        ensures back { IfErr result (λ e. e.value ≡ item) }
    {
        self.items.push(item)
    }

    /// Takes the last item off.
    pub fn pop(&mut self) -> Option<T>
        ensures { MatchOption result ((self.old ≡ []) × (self.new ≡ [])) (λ last. self.old ≡ self.new ++ last ∷ []) }
    {
        self.items.pop()
    }

    pub fn get(&self, place: usize) -> Option<&T>
        ensures { option_copied result ≡ slice_get self.now place }
    {
        self.items.get(place)
    }

    pub fn len(&self) -> usize
        ensures { result ≡ length self.now }
    {
        self.items.len()
    }

    pub fn is_empty(&self) -> bool
        ensures { IsTrue result ↔ (self.now ≡ []) }
    {
        self.items.is_empty()
    }

    /// The allocator whose memory the list takes.
    pub fn allocator(&self) -> Global {
        *self.items.allocator()
    }

    pub fn as_slice(&self) -> &[T]
        ensures { result.now ≡ self.now }
    {
        self.items.as_slice()
    }
}

impl<T: Copy> List<T> {
    pub fn from_slice(alloc: Global, items: &[T]) -> Result<List<T>, AllocError>
        ensures { IfOk result (λ l. l ≡ items.now) }
    {
        let items = Vec::from_slice(alloc, items)?;
        Ok(List { items })
    }

    /// Appends each item, or changes nothing.
    pub fn extend_from_slice(&mut self, items: &[T]) -> Result<(), AllocError>
        ensures ok { OnOk result (self.new ≡ self.old ++ items.now) }
        ensures err { OnErr result (self.new ≡ self.old) }
    {
        self.items.extend_from_slice(items)
    }
}

/// Collects the pieces: it has taken its own content and no other text.
impl PieceTaker for List<u8> {
    ghost count = { λ l. length l };

    ghost has_taken = { λ l text. text ≡ l };

    fn take_piece(&mut self, piece: &[u8]) -> Result<(), AllocError> {
        self.extend_from_slice(piece)
    }
}
