//! What the rules of brackets promise.

ghost use Rattle.std.specs.Prelude.{◌≡◌, ◌<◌, ℕ, length};
ghost use Rattle.kotlin_brackets.specs.declared.flaws.Flaw.{Flaw};
ghost use Rattle.kotlin_brackets.specs.declared.stack.Form.{Form};
ghost use Rattle.kotlin_brackets.specs.declared.stack.Bracket.TheVariants as b;
ghost use Rattle.kotlin_brackets.specs.Brackets.{Tokens, bracket_at, IsOpening, Pairs, ArePartners, IsFirst};

/// Tokens have at most one first flaw.
pub fn one_first_flaw()
    ensures { (ts : Tokens) (n m : ℕ) (f g : Flaw) → IsFirst ts n f → IsFirst ts m g → (n ≡ m) × (f ≡ g) }
{}

/// Of a pair the opening bracket stands first, and both have one form.
pub fn pairs_match()
    ensures places { (ts : Tokens) (i j : ℕ) → Pairs ts i j → (i < j) × (j < length ts) }
    ensures forms { (ts : Tokens) (i j : ℕ) → Pairs ts i j → (form : Form) × (bracket_at ts i ≡ b.Opens form) × (bracket_at ts j ≡ b.Closes form) }
{}

/// A bracket has at most one partner.
pub fn one_partner()
    ensures { (ts : Tokens) (n i j : ℕ) → ArePartners ts n i → ArePartners ts n j → i ≡ j }
{}

/// What stands between a bracket and its partner pairs within itself: partners stand there too, and
/// each opening bracket there has one.
pub fn pairs_nest()
    ensures partners { (ts : Tokens) (i j k l : ℕ) → Pairs ts i j → i < k → k < j → ArePartners ts k l → (i < l) × (l < j) }
    ensures paired { (ts : Tokens) (i j k : ℕ) → Pairs ts i j → i < k → k < j → IsOpening (bracket_at ts k) → (l : ℕ) × Pairs ts k l }
{}
