//! What holds of calls that are made in turn. Each law is the contract of a function that does nothing.

ghost use Rattle.std.specs.Prelude.{◌≡◌, ◌≢◌, ℕ, List, Err, false};
ghost use Rattle.std.specs.List.{AllByRecursion};
ghost use Rattle.link_lossy.specs.declared.refusal.LinkErr.TheVariants.{Memory};
ghost use Rattle.link_lossy.specs.Links.{every_seen};
ghost use Rattle.link_lossy.specs.Calls.{AnswersIts, Begins, Call, IsCall, Rises, Wire, counts_told, is_link, numbers_served};

use crate::serve::Serve;

/// Of calls that are made one after another on the same ends and link, each number is served at most once, and in rising order; an
/// answer is that of its own number's one service; and no two calls answer the same count of the link.
pub fn calls_in_turn<F: Serve>()
    ensures served { (wire : Wire) (calls : List (Call F)) → Begins wire calls → AllByRecursion (IsCall F.served) calls → Rises (numbers_served calls) }
    ensures own { (c : Call F) → IsCall F.served c → is_link c.result ≡ false → c.result ≢ Err Memory → AnswersIts F.served c }
    ensures counts { (wire : Wire) (calls : List (Call F)) → Begins wire calls → AllByRecursion (IsCall F.served) calls → Rises (counts_told calls) }
{}

/// A link that loses the packets whose number a number divides is told by its test: links of the same test have the same number.
pub fn test_tells_the_number()
    ensures { (n m given other : ℕ) → (every_seen n given).loses ≡ (every_seen m other).loses → n ≡ m }
{}
