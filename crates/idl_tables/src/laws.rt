//! Laws of the tables.

ghost use Rattle.std.specs.Prelude.{◌≡◌, ◌≤◌, ◌<◌, ◌*◌, ◌↔◌, [], List, ℕ, All, get_or, length};
ghost use Rattle.std.specs.List.{AllByRecursion};
ghost use Rattle.idl_reader.specs.Grammar.{AreDecls};
ghost use Rattle.idl_reader.specs.Tree.{DeclTree};
ghost use Rattle.idl_check.specs.FitsTogether.{FitsTogether, Holds, NoneBefore};
ghost use Rattle.idl_tables.specs.Differ.{HaveOwnNames, SharesAt};
ghost use Rattle.idl_tables.specs.Lines.{all_spots, joined_line, lines_of};
ghost use Rattle.idl_tables.specs.Rule.{FollowBases};
ghost use Rattle.idl_tables.specs.Tables.{Operation, tables_of};

use idl_check::UnfitWhy;
use idl_reader::{MAX_DECLS, MAX_MEMBERS};

/// If declarations fit together, each has the operations of its bases in order, each once, and
/// then its own; no other tables are so; and no two operations of one table have one name.
pub fn tables_follow_bases()
    ensures rule { (decls : List DeclTree) → FitsTogether decls → FollowBases decls (tables_of decls) }
    ensures only { (decls : List DeclTree) → FitsTogether decls → (one other : List (List Operation)) → FollowBases decls one → FollowBases decls other → one ≡ other }
    ensures differ { (decls : List DeclTree) → FitsTogether decls → All HaveOwnNames (tables_of decls) }
{}

/// If no reason before a clash holds, there are such tables, and a clash holds exactly if the table
/// of a declaration has two operations of one name that different interfaces declare.
pub fn clashes_show()
    ensures rule { (decls : List DeclTree) → NoneBefore decls UnfitWhy.Clash → FollowBases decls (tables_of decls) }
    ensures clash { (decls : List DeclTree) → NoneBefore decls UnfitWhy.Clash → (tables : List (List Operation)) → FollowBases decls tables → (place : ℕ) → Holds decls UnfitWhy.Clash place ↔ SharesAt decls tables place }
{}

/// A table has no more operations than a text can declare, so 16 bits hold their numbers.
pub fn tables_are_few()
    ensures { (decls : List DeclTree) → AreDecls decls → FitsTogether decls → All (λ table. length table ≤ MAX_DECLS * MAX_MEMBERS) (tables_of decls) }
{}

/// If some numbers fall from each declaration to its bases, and are less than the number of
/// declarations, bases are followed to their end: a line is those of the bases in order, each
/// declaration once, and then the declaration itself.
pub fn lines_and_bases()
    ensures { (rank : ℕ → ℕ) (decls : List DeclTree) → ((i : ℕ) → i < length (all_spots decls) → AllByRecursion (λ b. b < length (all_spots decls) → rank b < rank i) (get_or (all_spots decls) i [])) → (i : ℕ) → i < length (all_spots decls) → rank i < length decls → get_or (lines_of decls) i [] ≡ joined_line (lines_of decls) (get_or (all_spots decls) i []) i }
{}
