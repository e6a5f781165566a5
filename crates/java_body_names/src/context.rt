// What stands around a body.
ghost use Rattle.std.specs.Prelude.{◌≡◌, IfOk};
ghost use Rattle.java_scopes.specs.Scopes.{Setting};

use j2k_base::{Name, NoMemory, Text};
use java_scopes::Answer;
use java_tree::Position;
use java_type_names::{Meant, Place};
use std::alloc::Global;

/// What the class around a body, its file and its project tell of names.
pub trait Context {
    ghost setting: { Self → Setting };

    /// The number of the file.
    fn unit(&self) -> usize
        ensures { result ≡ (setting self.now).unit };

    /// Whether there is no object of the class (JLS 8.1.3, 15.8.3).
    fn is_static(&self) -> bool
        ensures { result ≡ (setting self.now).is_static };

    /// Whether it is a method or a constructor, and no initializer (JLS 14.17).
    fn may_return(&self) -> bool
        ensures { result ≡ (setting self.now).may_return };

    /// Whether a variable may not have the name.
    fn is_reserved(&self, name: &Name) -> bool
        ensures { result ≡ (setting self.now).is_reserved name.now };

    fn is_type_parameter(&self, name: &Name) -> bool
        ensures { result ≡ (setting self.now).is_type_parameter name.now };

    /// What the first identifier of the name of a type or a package means.
    fn first_type(&self, alloc: Global, name: &Name, at: Position) -> Result<Place, NoMemory>
        ensures { IfOk result (λ place. place ≡ (setting self.now).first_type name.now at) };

    /// What one more identifier makes of such a name, of which the text before means a place.
    fn next_part(
        &self,
        alloc: Global,
        text: &Text,
        place: Place,
        name: &Name,
        at: Position,
    ) -> Result<Place, NoMemory>
        ensures { IfOk result (λ next. next ≡ (setting self.now).next_part text.now place name.now at) };

    /// A field of the class (JLS 8.2, 9.2).
    fn field(&self, alloc: Global, name: &Name) -> Result<Answer, NoMemory>
        ensures { IfOk result (λ answer. answer ≡ (setting self.now).field name.now) };

    fn method(&self, alloc: Global, name: &Name) -> Result<Answer, NoMemory>
        ensures { IfOk result (λ answer. answer ≡ (setting self.now).method name.now) };

    /// A method of what stands above the class.
    fn super_method(&self, alloc: Global, name: &Name) -> Result<Answer, NoMemory>
        ensures { IfOk result (λ answer. answer ≡ (setting self.now).super_method name.now) };

    /// A field of another class, where it may be seen from here (JLS 6.6).
    fn class_field(&self, alloc: Global, class: Meant, name: &Name) -> Result<Answer, NoMemory>
        ensures { IfOk result (λ answer. answer ≡ (setting self.now).class_field class name.now) };

    fn class_method(&self, alloc: Global, class: Meant, name: &Name) -> Result<Answer, NoMemory>
        ensures { IfOk result (λ answer. answer ≡ (setting self.now).class_method class name.now) };
}
