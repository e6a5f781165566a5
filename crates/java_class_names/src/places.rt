// Where the classes of a project stand.
ghost use Rattle.std.specs.Prelude.{◌≡◌, ◌++◌, IfOk};
ghost use Rattle.java_class_names.specs.Places as s;

use j2k_base::NoMemory;
use java_unit_grammar::{JMember, JUnit};
use sqlite_items::Items;
use std::alloc::Global;

/// Where a class stands: the number of its file, and its place among what the file declares.
#[derive(Clone, Copy)]
pub struct ClassPlace {
    pub unit: usize,
    pub top: usize,
}

#[tactic(auto, unfolding(crate::specs::Places::place_in))]
fn push_place(
    out: &mut Items<ClassPlace>,
    unit: usize,
    top: usize,
    x: &JMember,
) -> Result<(), NoMemory>
    ensures { IfOk result (λ u. out.new ≡ out.old ++ s.place_in unit top x.now) }
{
    match x {
        JMember::Type(..) => {
            out.push(ClassPlace { unit, top })?;
            Ok(())
        }
        _ => Ok(()),
    }
}

fn push_places(out: &mut Items<ClassPlace>, unit: usize, xs: &[JMember]) -> Result<(), NoMemory>
    ensures { IfOk result (λ u. out.new ≡ out.old ++ s.places_from unit 0 xs.now) }
{
    for (top, x) in xs.iter().enumerate() {
        push_place(out, unit, top, x)?;
    }
    Ok(())
}

/// Where each class of the project stands, by its number.
pub fn class_places(alloc: Global, units: &[JUnit]) -> Result<Items<ClassPlace>, NoMemory>
    ensures { IfOk result (λ places. places ≡ s.class_places units.now) }
{
    let mut out = Items::new(alloc);
    for (number, unit) in units.iter().enumerate() {
        push_places(&mut out, number, unit.types.as_slice())?;
    }
    Ok(out)
}
