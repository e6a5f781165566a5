//! What follows from the definitions alone.
ghost use Rattle.std.specs.Prelude.{◌≡◌, List, ℕ, map};
ghost use Rattle.j2k_io.specs.Disks.{Files};
ghost use Rattle.j2k_base.specs.declared.series.SourceFile.{SourceFile};
ghost use Rattle.j2k_sources.specs.declared.loading.Loaded.{Loaded};
ghost use Rattle.j2k_sources.specs.Sources.{IsLoaded, HasSources, Differ};

/// A folder holds one thing: sources, a limit that is exceeded, or bad settings.
pub fn one_thing()
    ensures { (src : List ℕ) (files : Files) (loaded other : Loaded) → IsLoaded src files loaded → IsLoaded src files other → loaded ≡ other }
{}

/// The paths of a project's Java files differ.
pub fn paths_differ()
    ensures { (src : List ℕ) (files : Files) (entries : List (List ℕ)) (sources : List SourceFile) → HasSources src files entries sources → Differ (map (λ source. source.path) sources) }
{}
