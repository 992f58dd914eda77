ghost use Rattle.std.specs.Prelude.{ℕ, List, None};
ghost use Rattle.std.specs.declared.option.Option.{Option};
ghost use Rattle.mx_store.specs.declared.change.Change.{Change};

use std::marker::Brand;

/// What a top call began with. Each caller picks it.
pub trait Named {
    /// The store's journal, where it is told.
    ghost opening: { Option (List Change) };

    /// The store's count of faults.
    ghost count: { ℕ };

    /// The moment.
    ghost moment: { ℕ };
}

impl Named for Brand {
    ghost opening = { None };

    ghost count = { 0 };

    ghost moment = { 0 };
}
