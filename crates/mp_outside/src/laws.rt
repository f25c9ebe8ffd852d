//! What the words of the disk model say of small files.

ghost use Rattle.std.specs.Prelude.{◌≡◌, ◌≢◌, [], ◌∷◌};
ghost use Rattle.mp_outside.specs.Disks.{written, Torn, Cut, Follows};

/// Each word holds of one small file, and fails of another.
pub fn law_disk_examples()
    ensures torn { Torn 1 3 (1 ∷ 2 ∷ 3 ∷ 4 ∷ []) (1 ∷ 9 ∷ 9 ∷ 4 ∷ []) }
    ensures torn_longer { Torn 1 3 (1 ∷ []) (1 ∷ 9 ∷ []) }
    ensures not_torn { Torn 1 3 (1 ∷ 2 ∷ 3 ∷ 4 ∷ []) (9 ∷ 2 ∷ 3 ∷ 4 ∷ []) → ⊥ }
    ensures cut { Cut 1 (1 ∷ 2 ∷ 3 ∷ []) (1 ∷ 2 ∷ []) }
    ensures not_cut { Cut 1 (1 ∷ 2 ∷ 3 ∷ []) [] → ⊥ }
    ensures written { written 5 (7 ∷ []) (1 ∷ 2 ∷ 3 ∷ []) ≡ 1 ∷ 2 ∷ 3 ∷ 0 ∷ 0 ∷ 7 ∷ [] }
    ensures not_written { written 1 (7 ∷ []) (1 ∷ 2 ∷ 3 ∷ []) ≢ 1 ∷ 7 ∷ [] }
    ensures follows { Follows (Torn 0 1) (λ c. c ≡ 1 ∷ 2 ∷ []) (λ c. c ≡ 9 ∷ 2 ∷ []) }
    ensures not_follows { Follows (Torn 0 1) (λ c. c ≡ 1 ∷ 2 ∷ []) (λ c. c ≡ 1 ∷ 9 ∷ []) → ⊥ }
{}
