//! Reports of programs of several modules, computed.

ghost use Rattle.std.specs.Prelude.{◌≡◌, [], ◌∷◌, codes};
ghost use Rattle.report_rules.specs.rows.Builders.{at};
ghost use Rattle.report_rules.specs.rows.Folders.{library, named, frozen, using, places_in, sample_root, sample_after};

/// What a module knows of another: what a frozen table holds, and of any other that it is a table.
pub fn required_modules()
    ensures frozen { places_in (library frozen ∷ using 0 (codes "math.abs") ∷ []) ≡ (1, at 22) ∷ [] }
    ensures string { places_in (library frozen ∷ using 0 (codes "string.lower") ∷ []) ≡ [] }
    ensures plain { places_in (library named ∷ using 0 (codes "math.abs") ∷ []) ≡ [] }
    ensures meant { places_in (library named ∷ library frozen ∷ using 1 (codes "math.abs") ∷ using 0 (codes "math.abs") ∷ []) ≡ (2, at 22) ∷ [] }
{}

/// The sample folder of four modules has two reports.
pub fn sample()
    ensures { places_in (sample_root (codes "math.abs") ∷ sample_after 0 (codes "string.lower") ∷ sample_after 0 (codes "string.lower") ∷ sample_after 1 (codes "math.abs") ∷ [])
        ≡ (0, at 22) ∷ (3, at 22) ∷ [] }
{}
