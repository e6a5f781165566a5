//! What the list of faults promises: its order, its first fault, and what holds where a rule isn't told.

ghost use Rattle.std.specs.Prelude.{◌≡◌, ◌⊎◌, ℕ, Bool, List, [], Some};
ghost use Rattle.std.specs.declared.cmp.Ordering.TheVariants.{Less};
ghost use Rattle.j2k_base.specs.declared.places.Phase.TheVariants.{P};
ghost use Rattle.j2k_base.specs.declared.places.Fault.{Fault};
ghost use Rattle.judged.specs.Notes.{AreSame, IsAmong, fault_cmp};
ghost use Rattle.java_typed.specs.declared.types.TWritten.{TWritten};
ghost use Rattle.java_typed.specs.declared.members.MemberRef.{MemberRef};
ghost use Rattle.java_typed.specs.declared.units.TUnit.{TUnit};
ghost use Rattle.java_type_relations.specs.declared.heads.Heads.{Heads};
ghost use Rattle.java_facts.specs.Project.{classes_of};
ghost use Rattle.java_profile.specs.Faults.{Rule, number_of};
ghost use Rattle.java_profile.specs.Unset.{AllKept};
ghost use Rattle.java_project_faults.specs.Order.{IsInOrder};
ghost use Rattle.java_project_faults.specs.Project.{IsFirstFault, class_rules, first_fault, flow_told, inner, project_faults, rules_told};
ghost use Rattle.java_project_faults.specs.Kept.{EachClass, HoldsConstants, Lacks, NoneOpen, NotTold};

/// No fault of the list comes before one that stands earlier in it; each of assignment and reachability comes before each of the
/// profile, wherever they stand.
pub fn faults_are_in_order()
    ensures order { (is_accessor : MemberRef → Bool) (heads : Heads) (supers : ℕ → List TWritten) (units : List TUnit) → IsInOrder (project_faults is_accessor heads supers units) }
    ensures flow_first { (is_accessor : MemberRef → Bool) (heads : Heads) (supers : ℕ → List TWritten) (units : List TUnit) (a b : Fault) → IsAmong a (flow_told units) → IsAmong b (rules_told is_accessor heads supers units) → fault_cmp a b ≡ Less }
{}

/// A project has no fault or a first one, never both; two first faults are of one code at one place; and the one that stands first in
/// the list is one.
pub fn one_fault_is_first()
    ensures either { (is_accessor : MemberRef → Bool) (heads : Heads) (supers : ℕ → List TWritten) (units : List TUnit) → (project_faults is_accessor heads supers units ≡ []) ⊎ ((x : Fault) × IsFirstFault is_accessor heads supers units x) }
    ensures never_both { (is_accessor : MemberRef → Bool) (heads : Heads) (supers : ℕ → List TWritten) (units : List TUnit) (x : Fault) → project_faults is_accessor heads supers units ≡ [] → IsFirstFault is_accessor heads supers units x → ⊥ }
    ensures one { (is_accessor : MemberRef → Bool) (heads : Heads) (supers : ℕ → List TWritten) (units : List TUnit) (a b : Fault) → IsFirstFault is_accessor heads supers units a → IsFirstFault is_accessor heads supers units b → AreSame a b }
    ensures first { (is_accessor : MemberRef → Bool) (heads : Heads) (supers : ℕ → List TWritten) (units : List TUnit) (x : Fault) → first_fault is_accessor heads supers units ≡ Some x → IsFirstFault is_accessor heads supers units x }
{}

/// Where no fault of a rule is told, no class breaks it; of fields of interfaces, of unset fields and of unset statics in the words of
/// these rules.
pub fn untold_rules_are_kept()
    ensures each { (is_accessor : MemberRef → Bool) (heads : Heads) (supers : ℕ → List TWritten) (units : List TUnit) (rule : Rule) → NotTold P (number_of rule) (project_faults is_accessor heads supers units) → EachClass (λ number c. Lacks rule (class_rules is_accessor heads supers units number c)) 0 (classes_of units) }
    ensures constants { (is_accessor : MemberRef → Bool) (heads : Heads) (supers : ℕ → List TWritten) (units : List TUnit) → NotTold P 11 (project_faults is_accessor heads supers units) → EachClass HoldsConstants 0 (classes_of units) }
    ensures fields { (is_accessor : MemberRef → Bool) (heads : Heads) (supers : ℕ → List TWritten) (units : List TUnit) → NotTold P 16 (project_faults is_accessor heads supers units) → EachClass (NoneOpen is_accessor units) 0 (classes_of units) }
    ensures statics { (is_accessor : MemberRef → Bool) (heads : Heads) (supers : ℕ → List TWritten) (units : List TUnit) → NotTold P 17 (project_faults is_accessor heads supers units) → AllKept is_accessor (inner units) units 0 (classes_of units) }
{}
