//! What the runs of a file promise.

ghost use Rattle.std.specs.Prelude.{◌≡◌, ℕ, List, [], length, Some};
ghost use Rattle.java_tree.specs.Seen.{Tokens};
ghost use Rattle.java_unit_grammar.specs.Reading as r;
ghost use Rattle.java_brackets.specs.Brackets.{IsFlawed};
ghost use Rattle.java_brackets.specs.declared.flaws.Flaw.{Flaw};
ghost use Rattle.java_fault_grammar.specs.Walk.{State, Form, start, Stands, Lead, IsFault, IsSpelled};
ghost use Rattle.java_fault_grammar.specs.Assembled.{Assembled};

/// Where every run is spelled and no body of a type is left open, the tokens are those of what a file declares, and are read.
pub fn assembled()
    ensures whole { (ts : Tokens) → IsSpelled ts → Assembled ts }
    ensures read { (ts : Tokens) → IsSpelled ts → (d : r.Declared) × (r.unit_read (length ts) ts ≡ Some d) }
{}

/// Where no bracket is at fault and every run is spelled, no body of a type is left open.
pub fn closed()
    ensures { (ts : Tokens) (fs : List Form) (s : State) → ((n : ℕ) (flaw : Flaw) → ¬ IsFlawed ts n flaw) → Lead start ts fs s [] → s.around ≡ [] }
{}

/// At most one form stands at a place, and one thing follows it.
pub fn one_form()
    ensures { (s : State) (f g : Form) (ts rest more : Tokens) → Stands s f ts rest → Stands s g ts more → (f ≡ g) × (rest ≡ more) }
{}

/// At most one run of a file is the first at fault, and none is where every run is spelled.
pub fn one_fault()
    ensures one { (ts : Tokens) (i j : ℕ) → IsFault ts i → IsFault ts j → i ≡ j }
    ensures none { (ts : Tokens) (i : ℕ) → IsFault ts i → IsSpelled ts → ⊥ }
{}
