//! Reading a script.

ghost use Rattle.std.specs.Prelude.{◌≡◌, ◌≤◌, length, IfOk, OnOk, MatchResult};
ghost use Rattle.script_text.specs.declared.script.Script.{Script};
ghost use Rattle.script_text.specs.Grammar.{IsScript, spelling};
ghost use Rattle.script_text.specs.Reading.{Parses, script_at, no_memory, refused_at};

use crate::lines::line_of;
use crate::script::Script;
use crate::why::{Refused, ScriptWhy};
use std::alloc::Global;
use text_words::split_line;
use value_types::Items;

/// A refusal of a line; if memory ran out, it names no line.
fn refused(line: u32, why: ScriptWhy) -> Refused
    ensures { result ≡ refused_at line why }
{
    match why {
        ScriptWhy::Memory => Refused { line: 0, why },
        _ => Refused { line, why },
    }
}

/// The script that a text is, or its first bad line.
fn parse(alloc: Global, text: &[u8]) -> Result<Script, Refused>
    ensures { Parses result (script_at text.now) }
{
    let mut script = Script {
        clients: Items::new(alloc),
        phases: Items::new(alloc),
    };
    let mut words = Vec::new(alloc);
    let mut number: u32 = 1;
    let mut rest = text;
    while !rest.is_empty() {
        let (line, after) = split_line(rest);
        script = match line_of(alloc, script, number, line, &mut words) {
            Ok(longer) => longer,
            Err(why) => return Err(refused(number, why)),
        };
        number += 1;
        rest = after;
    }
    Ok(script)
}

/// The script that a text is, or its first bad line and the first reason on that line.
pub fn parse_script(alloc: Global, text: &[u8]) -> Result<Script, Refused>
    // What is read is spelled so.
    ensures found { IfOk result (λ script. IsScript script × (text.now ≡ spelling script)) }
    // What is spelled so is read, unless memory runs out.
    ensures only { (script : Script) → IsScript script → text.now ≡ spelling script → MatchResult result (λ read. read ≡ script) (λ refused. refused ≡ no_memory) }
    // Which line and which reason it is, unless memory runs out.
    ensures exact { Parses result (script_at text.now) }
{
    parse(alloc, text)
}
