//! Lists and arguments that are found.

ghost use Rattle.std.specs.Prelude.{◌≡◌, ◌++◌, ◌∷◌, [], IfOk};

use j2k_base::NoMemory;
use java_tree::{JExpr, Position};
use sqlite_items::Items;
use std::alloc::Global;

/// Things, and the commas between them.
#[derive(Drop)]
pub struct ListFound<T> {
    pub items: Items<T>,
    pub commas: Items<Position>,
}

impl<T: Drop> ListFound<T> {
    pub fn none(alloc: Global) -> ListFound<T>
        ensures items { result.items ≡ [] }
        ensures commas { result.commas ≡ [] }
    {
        ListFound {
            items: Items::new(alloc),
            commas: Items::new(alloc),
        }
    }

    pub fn one(alloc: Global, item: T) -> Result<ListFound<T>, NoMemory>
        ensures items { IfOk result (λ x. x.items ≡ item ∷ []) }
        ensures commas { IfOk result (λ x. x.commas ≡ []) }
    {
        let mut found = ListFound::none(alloc);
        found.items.push(item)?;
        Ok(found)
    }

    /// One more, behind the comma at the position.
    pub fn with(mut self, at: Position, item: T) -> Result<ListFound<T>, NoMemory>
        ensures items { IfOk result (λ x. x.items ≡ self.items ++ item ∷ []) }
        ensures commas { IfOk result (λ x. x.commas ≡ self.commas ++ at ∷ []) }
    {
        self.items.push(item)?;
        self.commas.push(at)?;
        Ok(self)
    }
}

/// Arguments, the commas between them, and the `)` behind them.
#[derive(Drop)]
pub struct ArgsFound {
    pub items: Items<JExpr>,
    pub commas: Items<Position>,
    pub close: Position,
}
