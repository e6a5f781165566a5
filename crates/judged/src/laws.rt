//! What judgements and their notes promise.

ghost use Rattle.std.specs.Prelude.{◌≡◌, ◌≢◌, [], ◌∷◌, List, Option};
ghost use Rattle.j2k_base.specs.declared.places.Fault.{Fault};
ghost use Rattle.judged.specs.declared.notes.Note.{Note};
ghost use Rattle.judged.specs.Notes.{AreSame, IsFirst, faults_in};
ghost use Rattle.judged.specs.Judged.{AllWhole, IsWhole, Judged, bad, cons, each, good, good_with, pair, then};

/// Where a fault is noted, there is a first one.
pub fn has_first<P>()
    ensures { (notes : List (Note P)) → (faults_in notes ≢ []) → (fault : Fault) × IsFirst notes fault }
{}

/// Two first faults are of one code at one place.
pub fn one_first<P>()
    ensures { (notes : List (Note P)) (a b : Fault) → IsFirst notes a → IsFirst notes b → AreSame a b }
{}

/// Where no note is a fault there is a result: each way in which judgements are put together keeps that.
pub fn is_whole<P, A, B>()
    ensures good { (a : A) → IsWhole (good {P = P} a) }
    ensures good_with { (a : A) (later : P) → IsWhole (good_with a later) }
    ensures bad { (fault : Fault) → IsWhole (bad {P = P} {A = A} fault) }
    ensures next { (j : Judged P A) (next : A → Judged P B) → IsWhole j → ((a : A) → IsWhole (next a)) → IsWhole (then j next) }
    ensures pair { (j : Judged P A) (k : Judged P B) → IsWhole j → IsWhole k → IsWhole (pair j k) }
    ensures cons { (j : Judged P A) (k : Judged P (List A)) → IsWhole j → IsWhole k → IsWhole (cons j k) }
    ensures each { (js : List (Judged P A)) → AllWhole js → IsWhole (each js) }
{}
