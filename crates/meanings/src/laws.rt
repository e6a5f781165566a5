// Laws of the meanings: each is the contract of a function that does nothing.
ghost use Rattle.std.specs.Prelude.{List};
ghost use Rattle.java_typed.specs.declared.units.TUnit.{TUnit};
ghost use Rattle.meanings.specs.declared.kotlin.KClass.{KClass};
ghost use Rattle.meanings.specs.Values.{Name};
ghost use Rattle.meanings.specs.Taken.{MainClass, AllTaken, PrintlnPrints};
ghost use Rattle.meanings.specs.Convert.{files_of};
ghost use Rattle.meanings.specs.Java.{java_program};
ghost use Rattle.meanings.specs.Kotlin.{kotlin_program};
ghost use Rattle.meanings.specs.World.{World};
ghost use Rattle.meanings.specs.Runs.{Thread};
ghost use Rattle.meanings.specs.SameSteps.{SameSteps, EntriesAreEntered};
ghost use Rattle.meanings.specs.Same.{SameThreadsOf};
ghost use Rattle.meanings.specs.Safety.{NeverTornWhereTyped};
ghost use Rattle.meanings.specs.Laws.{SameIsEqual, SameAtEveryDepth, EqualRuns, MatchingRuns, OnlyStepsChange, ThreadsAgree, OneAnswer, ChangesOnlyWhatItSays, RunsGrow, SpellingIsKept, TypesAreKept};
ghost use Rattle.meanings.specs.KSpells.{SpellsOne, NoKeywordStandsBare};

/// The Kotlin of a project whose units are taken makes exactly the steps of the project, in every run, and Torn never comes.
pub fn same_steps()
    ensures { (units : List TUnit) (configured : List Name) → AllTaken units → SameSteps units configured (files_of units) }
{}

/// Each entry point is found in both programs, and its thread begins with its text.
pub fn entries_are_entered()
    ensures { (units : List TUnit) (configured : List Name) → EntriesAreEntered units configured (files_of units) }
{}

/// A thread is the same with every larger depth, in both languages.
pub fn same_at_every_depth()
    ensures java { (classes : List MainClass) → SameAtEveryDepth (java_program classes) }
    ensures kotlin { (classes : List KClass) → SameAtEveryDepth (kotlin_program classes) }
{}

/// What holds of a world and the threads of a run.
pub trait Invariant {
    ghost holds: { World → List Thread → Type 0 };
}

/// What relates two worlds and the threads of two runs.
pub trait Relation {
    ghost relates: { World → World → List Thread → Type 0 };
}

/// Where the texts of two programs do the same, so do their threads, unless one asks Torn.
pub fn same_threads()
    ensures { SameThreadsOf }
{}

/// Equal threads, under an invariant that each turn keeps, give equal runs for every schedule.
pub fn equal_runs<I: Invariant>()
    ensures { EqualRuns I.holds }
{}

/// Matching turns give equal runs, also from two worlds.
pub fn matching_runs<R: Relation>()
    ensures { MatchingRuns R.relates }
{}

/// No run of a program asks Torn where its texts do what a table of types says of them.
pub fn never_torn()
    ensures { NeverTornWhereTyped }
{}

/// A step has one answer at most, and a turn that is no step, as a blocked one, changes nothing.
pub fn one_answer()
    ensures one { OneAnswer }
    ensures unchanged { OnlyStepsChange }
{}

/// The world and a run number the same threads: each turn keeps that.
pub fn threads_agree()
    ensures { ThreadsAgree }
{}

/// An answer changes nothing but what it says.
pub fn changes_only_what_it_says()
    ensures { ChangesOnlyWhatItSays }
{}

/// The output after a run is what its steps printed, and a class that is ready stays so.
pub fn runs_grow()
    ensures { RunsGrow }
{}

/// The test by which the world tells values apart is their equality.
pub fn same_is_equal()
    ensures { SameIsEqual }
{}

/// The Kotlin of well typed units that are taken is well typed.
pub fn types_are_kept()
    ensures { TypesAreKept }
{}

/// Bytes spell at most one Kotlin file.
pub fn spells_one()
    ensures { SpellsOne }
{}

/// A hard keyword is no text of a name: it stands in backticks.
pub fn no_keyword_stands_bare()
    ensures { NoKeywordStandsBare }
{}

/// The canonical text of the Kotlin of a unit that is taken spells it.
pub fn spelling_is_kept()
    ensures { SpellingIsKept }
{}

/// The row of the library that is taken for `println` prints an int and ends the line.
pub fn println_prints()
    ensures { PrintlnPrints }
{}
