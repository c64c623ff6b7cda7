//! A list for fields of public types. Contracts compare it by its items, and not by how its memory was taken.
ghost use Rattle.std.specs.Prelude.{◌≡◌};

use std::marker::Model;

/// A list that is a field of a public type. Contracts see it as the list of its items.
#[derive(Drop)]
pub struct Seq<T> {
    items: Vec<T>,
}

impl<T> Model for Seq<T> {
    ghost use Rattle.std.specs.Prelude.{List};

    ghost Value = { List T };

    ghost view = { λ seq. seq.items.items };
}

impl<T> Seq<T> {
    /// The list of these items.
    pub fn new(items: Vec<T>) -> Seq<T>
        ensures { result ≡ items.items }
    {
        Seq { items }
    }

    /// The items in order.
    pub fn items(&self) -> &[T]
        ensures { result.now ≡ self.now }
    {
        self.items.as_slice()
    }
}
