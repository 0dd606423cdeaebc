use std::marker::Model;

/// Items in order, seen as their list.
#[derive(Drop)]
pub struct ListOf<T: Drop> {
    items: Vec<T>,
}

impl<T: Drop> Model for ListOf<T> {
    ghost use Rattle.std.specs.Prelude.{List};

    ghost Value = { List T };

    ghost view = { λ l. l.items.items };
}

impl<T: Drop> ListOf<T> {
    ghost use Rattle.std.specs.Prelude.{◌≡◌, length};

    /// These items, in order.
    pub fn new(items: Vec<T>) -> Self
        ensures { result ≡ items.items }
    {
        ListOf { items }
    }

    /// How many there are.
    pub fn count(&self) -> u64
        ensures { result ≡ length self.now }
    {
        self.items.len() as u64
    }

    /// The items, in order.
    pub fn as_slice(&self) -> &[T]
        ensures { result.now ≡ self.now }
    {
        &self.items
    }
}
