//! Worked examples of the definitions, good ones and bad ones.

ghost use Rattle.std.specs.Prelude.{◌≡◌, [], ◌∷◌, codes};
ghost use Rattle.mp_recover.specs.declared.recovering.Recovered.{Recovered};
ghost use Rattle.mp_app.specs.Recoveries.{recovered_text};

/// What two kept commits of a row each are printed as, and what a row that was rolled back is. The count of rows is
/// theirs.
pub fn law_recovered_text()
    ensures two { (made : Recovered) → made.base ≡ 2 → made.kept ≡ 2 → made.undone ≡ 0
        → made.rows.items ≡ record { key = 1; value = codes "a" } ∷ record { key = 2; value = codes "b" } ∷ []
        → recovered_text made ≡ codes "recovered base 2 kept 2 undone 0\nrow 1 a\nrow 2 b\nend rows 2\n" }
    ensures undone { (made : Recovered) → made.base ≡ 0 → made.kept ≡ 0 → made.undone ≡ 1 → made.rows.items ≡ []
        → recovered_text made ≡ codes "recovered base 0 kept 0 undone 1\nend rows 0\n" }
    ensures count { (made : Recovered) → made.base ≡ 0 → made.kept ≡ 0 → made.undone ≡ 0 → made.rows.items ≡ []
        → recovered_text made ≡ codes "recovered base 0 kept 0 undone 0\nend rows 1\n" → ⊥ }
{}
