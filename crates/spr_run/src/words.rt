//! From words to the command that they ask for.

ghost use Rattle.std.specs.Prelude.{◌≡◌, ◌<◌, List, [], ℕ, map, IfOk, Err, None, Some};
ghost use Rattle.clap.specs.Words.{first_of, found_of, rows_of, subcommand_of, subcommand_rows_of};
ghost use Rattle.clap.specs.Faults.{fault_of};
ghost use Rattle.clap.specs.Words.{kind_of};
ghost use Rattle.spr_run.specs.Line.{line};

use crate::command::line;
use clap::error::ErrorKind;
use clap::{ArgMatches, Error};
use script_gen::{MAX_CALLS, SEED_LIMIT};
use std::alloc::{AllocError, Global};
use value_types::Text;

/// A command of the program, with the names that its words give.
#[derive(Debug, Drop)]
pub enum Asked {
    /// Run a script over the files of a stack.
    Run {
        /// Whether its messages are traced.
        trace: bool,
        /// The number that divides those of the packets which each client's link loses, from 2 to 1,000; none if it loses none.
        loss: Option<u32>,
        /// The name of the text of the interfaces.
        idl: Text,
        /// The name of the stack's text.
        stack: Text,
        /// The name of the script.
        script: Text,
    },
    /// Run a script that is made from a number over the files of a stack, and tell what it came to.
    Gen {
        /// The name of the text of the interfaces.
        idl: Text,
        /// The name of the stack's text.
        stack: Text,
        /// The seed of the script, below [`script_gen::SEED_LIMIT`].
        seed: u32,
        /// How many calls its second phase has, at most [`script_gen::MAX_CALLS`].
        calls: u32,
    },
    /// Tell whether a stack can be mounted, and its tree.
    Check {
        /// The name of the stack's text.
        stack: Text,
    },
    /// Write a fresh image on the store of each file of a stack.
    Format {
        /// The name of the stack's text.
        stack: Text,
    },
    /// Print the pages of the image of a file of a stack.
    Dump {
        /// The name of the stack's text.
        stack: Text,
        /// The name of the file.
        file: Text,
    },
    /// Tell what lies on each disk of each file of a stack.
    Disks {
        /// The name of the stack's text.
        stack: Text,
    },
    /// Print the tables of interfaces.
    Idl {
        /// The name of the text of the interfaces.
        idl: Text,
    },
}

/// Why words gave no command.
#[derive(Clone, Copy, Debug, PartialEq, Eq)]
pub enum WordsErr {
    /// They ask for none of the program's commands.
    Usage,
    /// Memory ran out.
    Memory,
}

impl From<AllocError> for WordsErr {
    ghost use Rattle.std.specs.Prelude.{◌≡◌};
    ghost use Rattle.spr_run.specs.declared.words.WordsErr.TheVariants.{Memory};

    ghost from_gives = { λ _ e. e ≡ Memory };

    fn from(_: AllocError) -> WordsErr {
        WordsErr::Memory
    }
}

ghost use Rattle.spr_run.specs.Asked.{IsWithinLimits, asked, asked_by, asked_in, check_in, disks_in, dump_in, format_in, gen_in, idl_in, is_given, loss_in, number_below, run_in};

/// Lends the words.
fn lend<'a>(alloc: Global, words: &'a [Text]) -> Result<Vec<&'a str>, AllocError>
    ensures { IfOk result (λ lent. map (λ s. s.now) lent.items ≡ words.now) }
{
    let mut lent = Vec::new(alloc);
    for word in words {
        lent.push(word.as_str())?;
    }
    Ok(lent)
}

/// What `clap` finds in the words.
fn parse<'a>(alloc: Global, words: &'a [&'a str]) -> Result<ArgMatches<'a>, WordsErr>
    ensures taken { IfOk result (λ _. fault_of line (map (λ s. s.now) words.now) ≡ []) }
    ensures found { IfOk result (λ m. subcommand_rows_of m ≡ subcommand_of line (map (λ s. s.now) words.now)) }
    ensures usage { result ≡ Err WordsErr.Usage → fault_of line (map (λ s. s.now) words.now) ≡ [] → ⊥ }
{
    let line = line(alloc)?;
    match line.try_get_matches_from(words) {
        Ok(matches) => Ok(matches),
        Err(error) => Err(refused(&error)),
    }
}

/// Why a parse failed.
fn refused(error: &Error) -> WordsErr
    ensures { result ≡ WordsErr.Usage → kind_of error.now ≡ ErrorKind.OutOfMemory → ⊥ }
{
    if error.kind() == ErrorKind::OutOfMemory {
        WordsErr::Memory
    } else {
        WordsErr::Usage
    }
}

/// The name that was found under an id.
fn named(alloc: Global, found: &ArgMatches<'_>, id: &str) -> Result<Text, WordsErr>
    ensures ok { IfOk result (λ t. first_of id.now (rows_of (found_of found.now)) ≡ Some t) }
    ensures usage { result ≡ Err WordsErr.Usage → first_of id.now (rows_of (found_of found.now)) ≡ None }
{
    match found.get_str(id) {
        Some(name) => Ok(Text::of(alloc, name)?),
        None => Err(WordsErr::Usage),
    }
}

/// The whole number below a limit that was found under an id. No clause of `clap` says of a number behind a command's name that it
/// is within its range, so it is compared once more.
fn numbered(found: &ArgMatches<'_>, id: &str, limit: u32) -> Result<u32, WordsErr>
    ensures ok { IfOk result (λ n. number_below limit id.now (rows_of (found_of found.now)) ≡ Some n) }
    ensures usage { result ≡ Err WordsErr.Usage → number_below limit id.now (rows_of (found_of found.now)) ≡ None }
{
    match found.get_one::<u32>(id) {
        Some(number) if number < limit => Ok(number),
        _ => Err(WordsErr::Usage),
    }
}

/// Whether a flag was given under an id.
fn is_given(found: &ArgMatches<'_>, id: &str) -> bool
    ensures { result ≡ is_given id.now (rows_of (found_of found.now)) }
{
    match found.get_str(id) {
        Some(word) => word == "true",
        None => false,
    }
}

/// The number by which the links of a run lose packets, if an option says one. It is compared once more, as `numbered` does.
fn loss_in(found: &ArgMatches<'_>) -> Result<Option<u32>, WordsErr>
    ensures ok { IfOk result (λ loss. loss_in (rows_of (found_of found.now)) ≡ Some loss) }
    ensures usage { result ≡ Err WordsErr.Usage → loss_in (rows_of (found_of found.now)) ≡ None }
{
    let Some(_given) = found.get_str("loss") else {
        return Ok(None);
    };
    match numbered(found, "loss", 1_001) {
        Ok(number) if number >= 2 => Ok(Some(number)),
        Ok(_) => Err(WordsErr::Usage),
        Err(why) => Err(why),
    }
}

/// A run, with its names.
fn run_in(alloc: Global, found: &ArgMatches<'_>) -> Result<Asked, WordsErr>
    ensures ok { IfOk result (λ a. run_in (rows_of (found_of found.now)) ≡ Some a) }
    ensures usage { result ≡ Err WordsErr.Usage → run_in (rows_of (found_of found.now)) ≡ None }
{
    let trace = is_given(found, "trace");
    let loss = loss_in(found)?;
    let idl = named(alloc, found, "idl")?;
    let stack = named(alloc, found, "stack")?;
    let script = named(alloc, found, "script")?;
    Ok(Asked::Run {
        trace,
        loss,
        idl,
        stack,
        script,
    })
}

/// A run of a script that is made from a number, with its names and numbers.
fn gen_in(alloc: Global, found: &ArgMatches<'_>) -> Result<Asked, WordsErr>
    ensures ok { IfOk result (λ a. gen_in (rows_of (found_of found.now)) ≡ Some a) }
    ensures usage { result ≡ Err WordsErr.Usage → gen_in (rows_of (found_of found.now)) ≡ None }
{
    let idl = named(alloc, found, "idl")?;
    let stack = named(alloc, found, "stack")?;
    let seed = numbered(found, "seed", SEED_LIMIT)?;
    let calls = numbered(found, "calls", MAX_CALLS + 1)?;
    Ok(Asked::Gen {
        idl,
        stack,
        seed,
        calls,
    })
}

/// A check, with its name.
fn check_in(alloc: Global, found: &ArgMatches<'_>) -> Result<Asked, WordsErr>
    ensures ok { IfOk result (λ a. check_in (rows_of (found_of found.now)) ≡ Some a) }
    ensures usage { result ≡ Err WordsErr.Usage → check_in (rows_of (found_of found.now)) ≡ None }
{
    let stack = named(alloc, found, "stack")?;
    Ok(Asked::Check { stack })
}

/// A formatting, with its name.
fn format_in(alloc: Global, found: &ArgMatches<'_>) -> Result<Asked, WordsErr>
    ensures ok { IfOk result (λ a. format_in (rows_of (found_of found.now)) ≡ Some a) }
    ensures usage { result ≡ Err WordsErr.Usage → format_in (rows_of (found_of found.now)) ≡ None }
{
    let stack = named(alloc, found, "stack")?;
    Ok(Asked::Format { stack })
}

/// The printing of a file's pages, with its names.
fn dump_in(alloc: Global, found: &ArgMatches<'_>) -> Result<Asked, WordsErr>
    ensures ok { IfOk result (λ a. dump_in (rows_of (found_of found.now)) ≡ Some a) }
    ensures usage { result ≡ Err WordsErr.Usage → dump_in (rows_of (found_of found.now)) ≡ None }
{
    let stack = named(alloc, found, "stack")?;
    let file = named(alloc, found, "file")?;
    Ok(Asked::Dump { stack, file })
}

/// A look at disks, with its name.
fn disks_in(alloc: Global, found: &ArgMatches<'_>) -> Result<Asked, WordsErr>
    ensures ok { IfOk result (λ a. disks_in (rows_of (found_of found.now)) ≡ Some a) }
    ensures usage { result ≡ Err WordsErr.Usage → disks_in (rows_of (found_of found.now)) ≡ None }
{
    let stack = named(alloc, found, "stack")?;
    Ok(Asked::Disks { stack })
}

/// The printing of tables, with its name.
fn idl_in(alloc: Global, found: &ArgMatches<'_>) -> Result<Asked, WordsErr>
    ensures ok { IfOk result (λ a. idl_in (rows_of (found_of found.now)) ≡ Some a) }
    ensures usage { result ≡ Err WordsErr.Usage → idl_in (rows_of (found_of found.now)) ≡ None }
{
    let idl = named(alloc, found, "idl")?;
    Ok(Asked::Idl { idl })
}

/// What the words behind a command's name ask for.
fn asked_by(alloc: Global, name: &str, found: &ArgMatches<'_>) -> Result<Asked, WordsErr>
    ensures ok { IfOk result (λ a. asked_by name.now (rows_of (found_of found.now)) ≡ Some a) }
    ensures usage { result ≡ Err WordsErr.Usage → asked_by name.now (rows_of (found_of found.now)) ≡ None }
{
    match name {
        "run" => run_in(alloc, found),
        "gen" => gen_in(alloc, found),
        "check" => check_in(alloc, found),
        "format" => format_in(alloc, found),
        "dump" => dump_in(alloc, found),
        "disks" => disks_in(alloc, found),
        "idl" => idl_in(alloc, found),
        _ => Err(WordsErr::Usage),
    }
}

/// The command that was found.
fn asked_in(alloc: Global, matches: &ArgMatches<'_>) -> Result<Asked, WordsErr>
    ensures ok { IfOk result (λ a. asked_in (subcommand_rows_of matches.now) ≡ Some a) }
    ensures usage { result ≡ Err WordsErr.Usage → asked_in (subcommand_rows_of matches.now) ≡ None }
    ensures limits { IfOk result IsWithinLimits }
{
    match matches.subcommand() {
        Some((name, found)) => asked_by(alloc, name, found),
        None => Err(WordsErr::Usage),
    }
}

/// The command that the words after the program's name ask for. Usage comes exactly where they ask for none, by what `clap`
/// reads of the program's command line; the other refusal is want of memory. The commands are this project's own.
pub fn read_words(alloc: Global, words: &[Text]) -> Result<Asked, WordsErr>
    ensures ok { IfOk result (λ a. asked words.now ≡ Some a) }
    ensures usage { result ≡ Err WordsErr.Usage → asked words.now ≡ None }
    ensures limits { IfOk result IsWithinLimits }
{
    let lent = lend(alloc, words)?;
    let matches = parse(alloc, &lent)?;
    asked_in(alloc, &matches)
}
