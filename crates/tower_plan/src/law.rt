//! What holds of the costs. The law is the contract of a function that does nothing.

ghost use Rattle.std.specs.Prelude.{ℕ, ◌≡◌};
ghost use Rattle.hist_plain.specs.declared.event.Keep.{Keep};
ghost use Rattle.tower_core.specs.TreeShape.{TreeShape};
ghost use Rattle.tower_core.specs.Column.{Column};
ghost use Rattle.tower_plan.specs.Sync.{IsSyncCost};

/// A page has one cost of a sync, so that one less is one event less.
pub fn page_has_one_sync_cost()
    ensures { (shape : TreeShape) (col : Column) (from : ℕ) (keep : Keep) (m n : ℕ) →
        IsSyncCost shape col from keep m → IsSyncCost shape col from keep n → m ≡ n }
{}
