//! Laws of generated scripts, for readers. They do no work.

ghost use Rattle.std.specs.Prelude.{◌≡◌, ◌<◌, ◌≤◌, ◌+◌, ◌*◌, ℕ, true};
ghost use Rattle.std.specs.List.{AllByRecursion};
ghost use Rattle.script_gen.specs.declared.shape.Shape.{Shape};
ghost use Rattle.script_gen.specs.Shape.{IsShape};
ghost use Rattle.script_gen.specs.Draw.{state_after};
ghost use Rattle.script_gen.specs.Within.{IsWithin};
ghost use Rattle.script_gen.specs.Made.{client_of, state_before};
ghost use Rattle.script_gen.specs.Laws.{aim_of, is_write, writes_before};

/// Each page is written by one client at most: two calls that write one page of a file are made by
/// one client. So the bytes at the end are the same at each run.
pub fn pages_have_one_writer()
    ensures { (shape : Shape) (seed m n : ℕ) → is_write shape seed m ≡ true → is_write shape seed n ≡ true
        → (aim_of shape seed m).page ≡ (aim_of shape seed n).page → client_of m ≡ client_of n }
{}

/// Each call goes to four bytes within one page of a file of the shape.
pub fn calls_are_within_pages()
    ensures { (shape : Shape) (seed number : ℕ) → IsShape shape → IsWithin shape (aim_of shape seed number) }
{}

/// A call takes three draws, and a write one more.
pub fn calls_take_three_or_four_draws()
    ensures { (shape : Shape) (seed number : ℕ) → state_before shape seed number ≡ state_after seed (3 * number + writes_before shape seed number) }
{}
