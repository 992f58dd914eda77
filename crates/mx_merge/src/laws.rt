ghost use Rattle.std.specs.Prelude.{◌≡◌, ◌++◌, List, ℕ, true};
ghost use Rattle.mx_base.specs.declared.entry.Entry.{Entry};
ghost use Rattle.mx_merge.specs.Merged.{shown_on, AreMerged};

/// A new base of what entries show may stand in their place below newer entries.
pub fn what_is_shown_may_be_merged_again()
    ensures { (older newer merged : List Entry) → AreMerged (λ key. true) older merged
        → (key : List ℕ) → shown_on key (merged ++ newer) ≡ shown_on key (older ++ newer) }
{}
