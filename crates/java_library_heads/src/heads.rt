// Heads from their rows.
ghost use Rattle.std.specs.Prelude.{◌≡◌, map, IfOk};
ghost use Rattle.java_typed.specs.declared.types.TType.TheVariants as t;
ghost use Rattle.java_library_heads.specs.LibraryHeads as s;
ghost use Rattle.java_library_heads.specs.Rows.{head_of, super_of};

use crate::rows::{Above, HeadRow, head_rows};
use j2k_base::NoMemory;
use java_type_relations::Head;
use java_typed::{ClassRef, TType, TTypes};
use sqlite_items::Items;
use std::alloc::Global;

/// The type parameters of a class at some places.
fn parameters(alloc: Global, own: ClassRef, places: &[u32]) -> Result<TTypes, NoMemory>
    ensures { IfOk result (λ r. r ≡ map (t.Variable own) places.now) }
{
    let mut found = Items::new(alloc);
    for place in places {
        found.push(TType::Variable(own, *place))?;
    }
    Ok(found)
}

/// The bound of the type parameter at a place: none is written in the library (JLS 4.4).
fn bound(alloc: Global, _place: u32) -> TType
    ensures { result ≡ s.bound_at _place }
{
    TType::Class(ClassRef::Library(0), Items::new(alloc))
}

fn bounds(alloc: Global, places: &[u32]) -> Result<TTypes, NoMemory>
    ensures { IfOk result (λ r. r ≡ map s.bound_at places.now) }
{
    let mut found = Items::new(alloc);
    for place in places {
        found.push(bound(alloc, *place))?;
    }
    Ok(found)
}

fn supers(alloc: Global, own: ClassRef, rows: &[Above]) -> Result<TTypes, NoMemory>
    ensures { IfOk result (λ r. r ≡ map (super_of own) rows.now) }
{
    let mut found = Items::new(alloc);
    for row in rows {
        let arguments = parameters(alloc, own, row.places)?;
        found.push(TType::Class(ClassRef::Library(row.class), arguments))?;
    }
    Ok(found)
}

fn head(alloc: Global, row: HeadRow) -> Result<Head, NoMemory>
    ensures { IfOk result (λ r. r ≡ head_of row) }
{
    let bounds = bounds(alloc, row.places)?;
    let supers = supers(alloc, ClassRef::Library(row.number), row.supers)?;
    Ok(Head {
        form: row.form,
        bounds,
        supers,
    })
}

/// The heads of the library's classes in the order of their numbers.
pub fn library_heads(alloc: Global) -> Result<Items<Head>, NoMemory>
    ensures { IfOk result (λ r. r ≡ s.library_heads) }
{
    let mut found = Items::new(alloc);
    for row in head_rows() {
        let head = head(alloc, *row)?;
        found.push(head)?;
    }
    Ok(found)
}
