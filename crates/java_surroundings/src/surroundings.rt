// What stands around a body.
ghost use Rattle.std.specs.Prelude.{◌≡◌, IfOk};
ghost use Rattle.java_surroundings.specs.Surroundings as s;

use crate::answers::{
    field_answer, fields_of, is_open, method_answer, methods_of, seen, super_found, superclass_of,
};
use j2k_base::{Name, NoMemory, Text};
use java_body_names::Context;
use java_declared_names::is_reserved_variable;
use java_member_grammar::JTypeParams;
use java_member_tables::number_of;
use java_members::Class;
use java_scopes::Answer;
use java_supertypes::{Heading, is_parameter};
use java_tree::Position;
use java_type_names::{FileScope, Meant, Place, World, first_type, next_part};
use std::alloc::Global;

/// What stands around a body: the classes and packages of the project, the scope of the file, the headings of the project's
/// classes and the table of all classes, the type parameters of the class, the numbers of the file and of the class, whether there is
/// no object of the class (JLS 8.1.3), and whether `return` may stand there (JLS 14.17).
#[derive(Clone, Copy)]
pub struct Surroundings<'a> {
    pub world: &'a World,
    pub scope: &'a FileScope,
    pub headings: &'a [Heading],
    pub table: &'a [Class],
    pub params: &'a Option<JTypeParams>,
    pub unit: usize,
    pub class: usize,
    pub is_static: bool,
    pub may_return: bool,
}

impl<'a> Context for Surroundings<'a> {
    ghost setting = { s.setting };

    fn unit(&self) -> usize {
        self.unit
    }

    fn is_static(&self) -> bool {
        self.is_static
    }

    fn may_return(&self) -> bool {
        self.may_return
    }

    fn is_reserved(&self, name: &Name) -> bool {
        is_reserved_variable(&self.world.rows, name)
    }

    fn is_type_parameter(&self, name: &Name) -> bool {
        is_parameter(self.params, name)
    }

    fn first_type(&self, alloc: Global, name: &Name, at: Position) -> Result<Place, NoMemory> {
        first_type(alloc, self.world, self.scope, name, at)
    }

    fn next_part(
        &self,
        alloc: Global,
        text: &Text,
        place: Place,
        name: &Name,
        at: Position,
    ) -> Result<Place, NoMemory> {
        next_part(alloc, self.world, &self.scope.home, text, place, name, at)
    }

    fn field(&self, alloc: Global, name: &Name) -> Result<Answer, NoMemory> {
        let found = fields_of(alloc, self.table, name, self.class)?;
        Ok(field_answer(found.as_slice()))
    }

    fn method(&self, alloc: Global, name: &Name) -> Result<Answer, NoMemory> {
        let found = methods_of(alloc, self.table, name, self.class)?;
        Ok(method_answer(found.as_slice()))
    }

    fn super_method(&self, alloc: Global, name: &Name) -> Result<Answer, NoMemory> {
        let above = superclass_of(self.table, self.class);
        let found = super_found(alloc, self.table, name, above)?;
        let found = seen(alloc, self.table, self.class, found.as_slice())?;
        Ok(method_answer(found.as_slice()))
    }

    fn class_field(&self, alloc: Global, class: Meant, name: &Name) -> Result<Answer, NoMemory> {
        if is_open(self.headings, class) {
            return Ok(Answer::Open);
        }
        let number = number_of(self.headings.len(), class);
        let found = fields_of(alloc, self.table, name, number)?;
        let found = seen(alloc, self.table, self.class, found.as_slice())?;
        Ok(field_answer(found.as_slice()))
    }

    fn class_method(&self, alloc: Global, class: Meant, name: &Name) -> Result<Answer, NoMemory> {
        if is_open(self.headings, class) {
            return Ok(Answer::Open);
        }
        let number = number_of(self.headings.len(), class);
        let found = methods_of(alloc, self.table, name, number)?;
        let found = seen(alloc, self.table, self.class, found.as_slice())?;
        Ok(method_answer(found.as_slice()))
    }
}
