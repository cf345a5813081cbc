//! Reading a text: a function for each line of the grammar.

ghost use Rattle.std.specs.Prelude.{◌≡◌, ◌∷◌, ◌++◌, ◌-◌, ◌≤◌, ◌<◌, ◌^◌, IfOk, MatchResult, if◌then◌else◌, ℕ, List, map, length, Option, Some, None, Ok, Err, codes};
ghost use Rattle.std.specs.Option.{option_map};
ghost use Rattle.std.specs.Str.{IsUtf8};
ghost use Rattle.idl_reader.specs.Left.{left, with_left};
ghost use Rattle.idl_reader.specs.Tree.{type_tree, field_tree, param_tree, op_tree, decl_tree, idl_tree, result_tree, DeclTree};
ghost use Rattle.idl_reader.specs.Grammar.{AreDecls, IsTextOf};
ghost use Rattle.idl_reader.specs.Places.{bare};
ghost use Rattle.idl_reader.specs.Spelling.{spelling};
ghost use Rattle.idl_reader.specs.Why.{Gives, no_memory};
ghost use Rattle.idl_reader.specs.Words.{is_plain, is_reserved};
ghost use Rattle.idl_reader.specs.Reading.{refused, after_word, after_sign, sign_at, name_at, word_type, simple_at, sequence_at, type_at, field_at, way_at, param_at, result_at, end_at, begins_with, is_name_word, is_type_word, is_op_word, is_param_word, is_decl_word, after_comma, until_brace, until_end, many_at, onto, names_at, fields_at, some_params_at, params_at, op_at, ops_at, bases_at, struct_at, enum_at, interface_at, decl_at, idl_at};

use crate::idl::{
    Decl, Field, Idl, IdlOp, IdlType, MAX_DECLS, MAX_MEMBERS, MAX_PARAMS, MAX_SEQUENCES, Param,
    Word,
};
use crate::rest::Rest;
use crate::token::{Token, first_token};
use crate::why::{IdlRefused, IdlWhy};
use std::alloc::Global;
use std::boxed::Box;
use value_types::{Items, Text};

/// The refusal at the first token; what begins no token keeps its own reason.
#[tactic(auto, unfolding(crate::specs::Reading::refused))]
fn refusal(rest: Rest<'_>, why: IdlWhy) -> IdlRefused
    ensures { result ≡ refused why (left rest.entry) }
{
    match first_token(rest) {
        Token::Word { place, .. } | Token::Sign { place, .. } | Token::End { place } => {
            IdlRefused { place, why }
        }
        Token::Stray { place } => IdlRefused {
            place,
            why: IdlWhy::Byte,
        },
        Token::Long { place } => IdlRefused {
            place,
            why: IdlWhy::LongName,
        },
    }
}

/// What is left after this word, where it comes first.
#[tactic(auto, unfolding(crate::specs::Reading::after_word))]
fn after_word<'a>(rest: Rest<'a>, own: &[u8]) -> Option<Rest<'a>>
    ensures { option_map left result ≡ after_word own.now (left rest.entry) }
{
    match first_token(rest) {
        Token::Word { word, after, .. } if word == own => Some(after),
        _ => None,
    }
}

/// What is left after this sign, where it comes first.
#[tactic(auto, unfolding(crate::specs::Reading::after_sign))]
fn after_sign<'a>(rest: Rest<'a>, own: u8) -> Option<Rest<'a>>
    ensures { option_map left result ≡ after_sign own (left rest.entry) }
{
    match first_token(rest) {
        Token::Sign { sign, after, .. } if sign == own => Some(after),
        _ => None,
    }
}

#[tactic(auto, using(crate::proofs::Refusals::token_refused), unfolding(crate::specs::Reading::sign_at))]
fn sign_of<'a>(rest: Rest<'a>, sign: u8) -> Result<Rest<'a>, IdlRefused>
    ensures { Gives left result (sign_at sign (left rest.entry)) }
{
    match after_sign(rest, sign) {
        Some(after) => Ok(after),
        None => Err(refusal(rest, IdlWhy::Token)),
    }
}

/// Whether a word is one of the plain types.
fn is_plain(word: &[u8]) -> bool
    ensures { result ≡ is_plain word.now }
{
    word == b"bool".as_slice()
        || word == b"u8".as_slice()
        || word == b"u32".as_slice()
        || word == b"u64".as_slice()
        || word == b"string".as_slice()
        || word == b"bytes".as_slice()
}

/// Whether a word is one of the language's own.
#[tactic(auto, unfolding(crate::specs::Words::is_reserved))]
fn is_reserved(word: &[u8]) -> bool
    ensures { result ≡ is_reserved word.now }
{
    word == b"struct".as_slice()
        || word == b"enum".as_slice()
        || word == b"interface".as_slice()
        || word == b"void".as_slice()
        || word == b"copy".as_slice()
        || word == b"consume".as_slice()
        || word == b"sequence".as_slice()
        || is_plain(word)
}

#[tactic(auto, using(crate::proofs::Refusals::token_refused), unfolding(crate::specs::Reading::name_at))]
fn name_of<'a>(alloc: Global, rest: Rest<'a>) -> Result<(Word, Rest<'a>), IdlRefused>
    ensures { Gives (with_left (λ word. word)) result (name_at (left rest.entry)) }
{
    match first_token(rest) {
        Token::Word { place, word, after } => {
            if is_reserved(word) {
                return Err(IdlRefused {
                    place,
                    why: IdlWhy::Token,
                });
            }
            let text = Text::of_ascii(alloc, word)?;
            Ok((Word { text, place }, after))
        }
        _ => Err(refusal(rest, IdlWhy::Token)),
    }
}

/// The type that one word is.
#[tactic(auto, unfolding(crate::specs::Reading::word_type))]
fn word_type(alloc: Global, place: u32, word: &[u8]) -> Result<IdlType, IdlRefused>
    requires { IsUtf8 word.now }
    ensures { Gives (λ ty. type_tree ty) result (word_type place word.now) }
{
    if word == b"bool".as_slice() {
        Ok(IdlType::Bool)
    } else if word == b"u8".as_slice() {
        Ok(IdlType::U8)
    } else if word == b"u32".as_slice() {
        Ok(IdlType::U32)
    } else if word == b"u64".as_slice() {
        Ok(IdlType::U64)
    } else if word == b"string".as_slice() {
        Ok(IdlType::Str)
    } else if word == b"bytes".as_slice() {
        Ok(IdlType::Bytes)
    } else if is_reserved(word) {
        Err(IdlRefused {
            place,
            why: IdlWhy::Token,
        })
    } else {
        let text = Text::of_ascii(alloc, word)?;
        Ok(IdlType::Named {
            name: Word { text, place },
        })
    }
}

/// A type of one word.
#[tactic(auto, unfolding(crate::specs::Reading::simple_at))]
fn simple_type<'a>(alloc: Global, rest: Rest<'a>) -> Result<(IdlType, Rest<'a>), IdlRefused>
    ensures { Gives (with_left (λ ty. type_tree ty)) result (simple_at (left rest.entry)) }
{
    match first_token(rest) {
        Token::Word { place, word, after } => {
            let ty = word_type(alloc, place, word)?;
            Ok((ty, after))
        }
        _ => Err(refusal(rest, IdlWhy::Token)),
    }
}

/// A type of at most so many sequences.
#[cycle(types)]
fn type_of<'a>(
    alloc: Global,
    rest: Rest<'a>,
    sequences: u32,
) -> Result<(IdlType, Rest<'a>), IdlRefused>
    ensures { Gives (with_left (λ ty. type_tree ty)) result (type_at sequences (left rest.entry)) }
{
    match after_word(rest, b"sequence") {
        None => simple_type(alloc, rest),
        Some(after) => {
            if sequences == 0 {
                return Err(refusal(rest, IdlWhy::Limit));
            }
            sequence(alloc, after, sequences - 1)
        }
    }
}

/// What follows `sequence`, with at most so many sequences in it.
#[cycle(types)]
#[tactic(auto, unfolding(crate::specs::Reading::sequence_at))]
fn sequence<'a>(
    alloc: Global,
    rest: Rest<'a>,
    sequences: u32,
) -> Result<(IdlType, Rest<'a>), IdlRefused>
    ensures { Gives (with_left (λ ty. type_tree ty)) result (sequence_at (λ ts. type_at sequences ts) (left rest.entry)) }
{
    let rest = sign_of(rest, b'<')?;
    let (item, rest) = type_of(alloc, rest, sequences)?;
    let rest = sign_of(rest, b'>')?;
    let of = Box::new(alloc, item)?;
    Ok((IdlType::Sequence { of }, rest))
}

/// field = type name ";"
#[tactic(auto, unfolding(crate::specs::Reading::field_at))]
fn field_of<'a>(alloc: Global, rest: Rest<'a>) -> Result<(Field, Rest<'a>), IdlRefused>
    ensures { Gives (with_left (λ field. field_tree field)) result (field_at (left rest.entry)) }
{
    let (ty, rest) = type_of(alloc, rest, MAX_SEQUENCES)?;
    let (name, rest) = name_of(alloc, rest)?;
    let rest = sign_of(rest, b';')?;
    Ok((Field { ty, name }, rest))
}

/// "copy" | "consume"
#[tactic(auto, using(crate::proofs::Refusals::token_refused), unfolding(crate::specs::Reading::way_at))]
fn way_of<'a>(rest: Rest<'a>) -> Result<(bool, Rest<'a>), IdlRefused>
    ensures { Gives (with_left (λ consume. consume)) result (way_at (left rest.entry)) }
{
    if let Some(after) = after_word(rest, b"copy") {
        return Ok((false, after));
    }
    match after_word(rest, b"consume") {
        Some(after) => Ok((true, after)),
        None => Err(refusal(rest, IdlWhy::Token)),
    }
}

/// param = ( "copy" | "consume" ) type name
#[tactic(auto, unfolding(crate::specs::Reading::param_at))]
fn param_of<'a>(alloc: Global, rest: Rest<'a>) -> Result<(Param, Rest<'a>), IdlRefused>
    ensures { Gives (with_left (λ param. param_tree param)) result (param_at (left rest.entry)) }
{
    let (consume, rest) = way_of(rest)?;
    let (ty, rest) = type_of(alloc, rest, MAX_SEQUENCES)?;
    let (name, rest) = name_of(alloc, rest)?;
    Ok((Param { consume, ty, name }, rest))
}

/// "void" | type
#[tactic(auto, unfolding(crate::specs::Reading::result_at))]
fn result_of<'a>(alloc: Global, rest: Rest<'a>) -> Result<(Option<IdlType>, Rest<'a>), IdlRefused>
    ensures { Gives (with_left (λ ty. result_tree ty)) result (result_at (left rest.entry)) }
{
    if let Some(after) = after_word(rest, b"void") {
        return Ok((None, after));
    }
    let (ty, rest) = type_of(alloc, rest, MAX_SEQUENCES)?;
    Ok((Some(ty), rest))
}

/// "}" ";"
#[tactic(auto, unfolding(crate::specs::Reading::end_at))]
fn end_of<'a>(rest: Rest<'a>) -> Result<Rest<'a>, IdlRefused>
    ensures { Gives left result (end_at (left rest.entry)) }
{
    let rest = sign_of(rest, b'}')?;
    sign_of(rest, b';')
}

/// One more than there may be: refused as that where a word that could begin it comes first.
#[tactic(auto, unfolding(crate::specs::Reading::one_too_many))]
fn one_too_many(rest: Rest<'_>, could_begin: bool) -> IdlRefused
    ensures { result ≡ refused (if could_begin then IdlWhy.Limit else IdlWhy.Token) (left rest.entry) }
{
    if could_begin {
        refusal(rest, IdlWhy::Limit)
    } else {
        refusal(rest, IdlWhy::Token)
    }
}

/// Whether a word is a name.
fn is_name_word(word: &[u8]) -> bool
    ensures { result ≡ is_name_word word.now }
{
    !is_reserved(word)
}

/// Whether a word begins a type.
fn is_type_word(word: &[u8]) -> bool
    ensures { result ≡ is_type_word word.now }
{
    word == b"sequence".as_slice() || is_plain(word) || is_name_word(word)
}

/// Whether a word begins an operation.
fn is_op_word(word: &[u8]) -> bool
    ensures { result ≡ is_op_word word.now }
{
    word == b"void".as_slice() || is_type_word(word)
}

/// Whether a word begins a parameter.
fn is_param_word(word: &[u8]) -> bool
    ensures { result ≡ is_param_word word.now }
{
    word == b"copy".as_slice() || word == b"consume".as_slice()
}

/// Whether a word begins a declaration.
fn is_decl_word(word: &[u8]) -> bool
    ensures { result ≡ is_decl_word word.now }
{
    word == b"struct".as_slice() || word == b"enum".as_slice() || word == b"interface".as_slice()
}

/// Whether a name comes first.
fn begins_name(rest: Rest<'_>) -> bool
    ensures { result ≡ begins_with is_name_word (left rest.entry) }
{
    match first_token(rest) {
        Token::Word { word, .. } => is_name_word(word),
        _ => false,
    }
}

/// Whether a type can begin here.
fn begins_type(rest: Rest<'_>) -> bool
    ensures { result ≡ begins_with is_type_word (left rest.entry) }
{
    match first_token(rest) {
        Token::Word { word, .. } => is_type_word(word),
        _ => false,
    }
}

/// Whether an operation can begin here.
fn begins_op(rest: Rest<'_>) -> bool
    ensures { result ≡ begins_with is_op_word (left rest.entry) }
{
    match first_token(rest) {
        Token::Word { word, .. } => is_op_word(word),
        _ => false,
    }
}

/// Whether a parameter can begin here.
fn begins_param(rest: Rest<'_>) -> bool
    ensures { result ≡ begins_with is_param_word (left rest.entry) }
{
    match first_token(rest) {
        Token::Word { word, .. } => is_param_word(word),
        _ => false,
    }
}

/// Whether a declaration can begin here.
fn begins_decl(rest: Rest<'_>) -> bool
    ensures { result ≡ begins_with is_decl_word (left rest.entry) }
{
    match first_token(rest) {
        Token::Word { word, .. } => is_decl_word(word),
        _ => false,
    }
}

/// The names that follow these, with a comma before each, up to so many in all.
fn more_names<'a>(
    alloc: Global,
    so_far: Vec<Word>,
    start: Rest<'a>,
    most: usize,
) -> Result<(Vec<Word>, Rest<'a>), IdlRefused>
    requires { length so_far.items ≤ most }
    ensures { Gives (with_left (λ names. names.items)) result (onto so_far.items (many_at after_comma is_name_word name_at (most - length so_far.items) (left start.entry))) }
{
    let mut names = so_far;
    let mut rest = start;
    while let Some(next) = after_sign(rest, b',') {
        if names.len() == most {
            return Err(one_too_many(next, begins_name(next)));
        }
        let (name, after) = name_of(alloc, next)?;
        names.push(name)?;
        rest = after;
    }
    Ok((names, rest))
}

/// name { "," name }, at most so many.
#[tactic(auto, unfolding(crate::specs::Reading::names_at))]
fn names_of<'a>(
    alloc: Global,
    rest: Rest<'a>,
    most: usize,
) -> Result<(Items<Word>, Rest<'a>), IdlRefused>
    requires { 1 ≤ most }
    ensures { Gives (with_left (λ names. names)) result (names_at most (left rest.entry)) }
{
    let (first, rest) = name_of(alloc, rest)?;
    let mut names = Vec::new(alloc);
    names.push(first)?;
    let (names, rest) = more_names(alloc, names, rest, most)?;
    Ok((Items::from_vec(names), rest))
}

/// The place of a next item, where no brace ends them.
#[tactic(auto, unfolding(crate::specs::Reading::until_brace))]
fn until_brace<'a>(rest: Rest<'a>) -> Option<Rest<'a>>
    ensures { option_map left result ≡ until_brace (left rest.entry) }
{
    match after_sign(rest, b'}') {
        Some(_) => None,
        None => Some(rest),
    }
}

/// The place of a next declaration, where the text does not end.
#[tactic(auto, unfolding(crate::specs::Reading::until_end))]
fn until_end<'a>(rest: Rest<'a>) -> Option<Rest<'a>>
    ensures { option_map left result ≡ until_end (left rest.entry) }
{
    match first_token(rest) {
        Token::End { .. } => None,
        Token::Word { .. } | Token::Sign { .. } | Token::Stray { .. } | Token::Long { .. } => {
            Some(rest)
        }
    }
}

/// The fields that follow these, up to a brace.
fn more_fields<'a>(
    alloc: Global,
    so_far: Vec<Field>,
    start: Rest<'a>,
) -> Result<(Vec<Field>, Rest<'a>), IdlRefused>
    requires { length so_far.items ≤ MAX_MEMBERS }
    ensures { Gives (with_left (λ fields. map (λ field. field_tree field) fields.items)) result (onto (map (λ field. field_tree field) so_far.items) (many_at until_brace is_type_word field_at (MAX_MEMBERS - length (map (λ field. field_tree field) so_far.items)) (left start.entry))) }
{
    let mut fields = so_far;
    let mut rest = start;
    while let Some(next) = until_brace(rest) {
        if fields.len() == MAX_MEMBERS {
            return Err(one_too_many(next, begins_type(next)));
        }
        let (field, after) = field_of(alloc, next)?;
        fields.push(field)?;
        rest = after;
    }
    Ok((fields, rest))
}

/// field { field }
#[tactic(auto, unfolding(crate::specs::Reading::fields_at))]
fn fields_of<'a>(alloc: Global, rest: Rest<'a>) -> Result<(Items<Field>, Rest<'a>), IdlRefused>
    ensures { Gives (with_left (λ fields. map (λ field. field_tree field) fields)) result (fields_at (left rest.entry)) }
{
    let (first, rest) = field_of(alloc, rest)?;
    let mut fields = Vec::new(alloc);
    fields.push(first)?;
    let (fields, rest) = more_fields(alloc, fields, rest)?;
    Ok((Items::from_vec(fields), rest))
}

/// The parameters that follow these, with a comma before each.
fn more_params<'a>(
    alloc: Global,
    so_far: Vec<Param>,
    start: Rest<'a>,
) -> Result<(Vec<Param>, Rest<'a>), IdlRefused>
    requires { length so_far.items ≤ MAX_PARAMS }
    ensures { Gives (with_left (λ params. map (λ param. param_tree param) params.items)) result (onto (map (λ param. param_tree param) so_far.items) (many_at after_comma is_param_word param_at (MAX_PARAMS - length (map (λ param. param_tree param) so_far.items)) (left start.entry))) }
{
    let mut params = so_far;
    let mut rest = start;
    while let Some(next) = after_sign(rest, b',') {
        if params.len() == MAX_PARAMS {
            return Err(one_too_many(next, begins_param(next)));
        }
        let (param, after) = param_of(alloc, next)?;
        params.push(param)?;
        rest = after;
    }
    Ok((params, rest))
}

/// param { "," param }
#[tactic(auto, unfolding(crate::specs::Reading::some_params_at))]
fn some_params<'a>(alloc: Global, rest: Rest<'a>) -> Result<(Items<Param>, Rest<'a>), IdlRefused>
    ensures { Gives (with_left (λ params. map (λ param. param_tree param) params)) result (some_params_at (left rest.entry)) }
{
    let (first, rest) = param_of(alloc, rest)?;
    let mut params = Vec::new(alloc);
    params.push(first)?;
    let (params, rest) = more_params(alloc, params, rest)?;
    Ok((Items::from_vec(params), rest))
}

/// [ param { "," param } ], where ")" follows.
#[tactic(auto, unfolding(crate::specs::Reading::params_at))]
fn params_of<'a>(alloc: Global, rest: Rest<'a>) -> Result<(Items<Param>, Rest<'a>), IdlRefused>
    ensures { Gives (with_left (λ params. map (λ param. param_tree param) params)) result (params_at (left rest.entry)) }
{
    match after_sign(rest, b')') {
        Some(_) => Ok((Items::new(alloc), rest)),
        None => some_params(alloc, rest),
    }
}

/// op = ( "void" | type ) name "(" [ param { "," param } ] ")" ";"
#[tactic(auto, unfolding(crate::specs::Reading::op_at))]
fn op_of<'a>(alloc: Global, rest: Rest<'a>) -> Result<(IdlOp, Rest<'a>), IdlRefused>
    ensures { Gives (with_left (λ op. op_tree op)) result (op_at (left rest.entry)) }
{
    let (outcome, rest) = result_of(alloc, rest)?;
    let (name, rest) = name_of(alloc, rest)?;
    let rest = sign_of(rest, b'(')?;
    let (params, rest) = params_of(alloc, rest)?;
    let rest = sign_of(rest, b')')?;
    let rest = sign_of(rest, b';')?;
    Ok((
        IdlOp {
            result: outcome,
            name,
            params,
        },
        rest,
    ))
}

/// The operations that follow these, up to a brace.
fn more_ops<'a>(
    alloc: Global,
    so_far: Vec<IdlOp>,
    start: Rest<'a>,
) -> Result<(Vec<IdlOp>, Rest<'a>), IdlRefused>
    requires { length so_far.items ≤ MAX_MEMBERS }
    ensures { Gives (with_left (λ ops. map (λ op. op_tree op) ops.items)) result (onto (map (λ op. op_tree op) so_far.items) (many_at until_brace is_op_word op_at (MAX_MEMBERS - length (map (λ op. op_tree op) so_far.items)) (left start.entry))) }
{
    let mut ops = so_far;
    let mut rest = start;
    while let Some(next) = until_brace(rest) {
        if ops.len() == MAX_MEMBERS {
            return Err(one_too_many(next, begins_op(next)));
        }
        let (op, after) = op_of(alloc, next)?;
        ops.push(op)?;
        rest = after;
    }
    Ok((ops, rest))
}

/// { op }
#[tactic(auto, unfolding(crate::specs::Reading::ops_at))]
fn ops_of<'a>(alloc: Global, rest: Rest<'a>) -> Result<(Items<IdlOp>, Rest<'a>), IdlRefused>
    ensures { Gives (with_left (λ ops. map (λ op. op_tree op) ops)) result (ops_at (left rest.entry)) }
{
    let (ops, rest) = more_ops(alloc, Vec::new(alloc), rest)?;
    Ok((Items::from_vec(ops), rest))
}

/// [ ":" name { "," name } ]
#[tactic(auto, unfolding(crate::specs::Reading::bases_at))]
fn bases_of<'a>(alloc: Global, rest: Rest<'a>) -> Result<(Items<Word>, Rest<'a>), IdlRefused>
    ensures { Gives (with_left (λ bases. bases)) result (bases_at (left rest.entry)) }
{
    match after_sign(rest, b':') {
        // A name takes a byte at least, so this bounds nothing.
        Some(after) => names_of(alloc, after, after.bytes.len() + 1),
        None => Ok((Items::new(alloc), rest)),
    }
}

/// What follows "struct": name "{" type name ";" { type name ";" } "}" ";"
#[tactic(auto, unfolding(crate::specs::Reading::struct_at))]
fn struct_of<'a>(alloc: Global, rest: Rest<'a>) -> Result<(Decl, Rest<'a>), IdlRefused>
    ensures { Gives (with_left (λ decl. decl_tree decl)) result (struct_at (left rest.entry)) }
{
    let (name, rest) = name_of(alloc, rest)?;
    let rest = sign_of(rest, b'{')?;
    let (fields, rest) = fields_of(alloc, rest)?;
    let rest = end_of(rest)?;
    Ok((Decl::Struct { name, fields }, rest))
}

/// What follows "enum": name "{" name { "," name } "}" ";"
#[tactic(auto, unfolding(crate::specs::Reading::enum_at))]
fn enum_of<'a>(alloc: Global, rest: Rest<'a>) -> Result<(Decl, Rest<'a>), IdlRefused>
    ensures { Gives (with_left (λ decl. decl_tree decl)) result (enum_at (left rest.entry)) }
{
    let (name, rest) = name_of(alloc, rest)?;
    let rest = sign_of(rest, b'{')?;
    let (names, rest) = names_of(alloc, rest, MAX_MEMBERS)?;
    let rest = end_of(rest)?;
    Ok((Decl::Enum { name, names }, rest))
}

/// What follows "interface": name [ ":" name { "," name } ] "{" { op } "}" ";"
#[tactic(auto, unfolding(crate::specs::Reading::interface_at))]
fn interface_of<'a>(alloc: Global, rest: Rest<'a>) -> Result<(Decl, Rest<'a>), IdlRefused>
    ensures { Gives (with_left (λ decl. decl_tree decl)) result (interface_at (left rest.entry)) }
{
    let (name, rest) = name_of(alloc, rest)?;
    let (bases, rest) = bases_of(alloc, rest)?;
    let rest = sign_of(rest, b'{')?;
    let (ops, rest) = ops_of(alloc, rest)?;
    let rest = end_of(rest)?;
    Ok((Decl::Interface { name, bases, ops }, rest))
}

/// struct | enum | interface
#[tactic(auto, using(crate::proofs::Refusals::token_refused), unfolding(crate::specs::Reading::decl_at))]
fn decl_of<'a>(alloc: Global, rest: Rest<'a>) -> Result<(Decl, Rest<'a>), IdlRefused>
    ensures { Gives (with_left (λ decl. decl_tree decl)) result (decl_at (left rest.entry)) }
{
    if let Some(after) = after_word(rest, b"struct") {
        return struct_of(alloc, after);
    }
    if let Some(after) = after_word(rest, b"enum") {
        return enum_of(alloc, after);
    }
    match after_word(rest, b"interface") {
        Some(after) => interface_of(alloc, after),
        None => Err(refusal(rest, IdlWhy::Token)),
    }
}

/// The declarations that follow these, up to the end of the text.
fn more_decls<'a>(
    alloc: Global,
    so_far: Vec<Decl>,
    start: Rest<'a>,
) -> Result<(Vec<Decl>, Rest<'a>), IdlRefused>
    requires { length so_far.items ≤ MAX_DECLS }
    ensures { Gives (with_left (λ decls. map (λ decl. decl_tree decl) decls.items)) result (onto (map (λ decl. decl_tree decl) so_far.items) (many_at until_end is_decl_word decl_at (MAX_DECLS - length (map (λ decl. decl_tree decl) so_far.items)) (left start.entry))) }
{
    let mut decls = so_far;
    let mut rest = start;
    while let Some(next) = until_end(rest) {
        if decls.len() == MAX_DECLS {
            return Err(one_too_many(next, begins_decl(next)));
        }
        let (decl, after) = decl_of(alloc, next)?;
        decls.push(decl)?;
        rest = after;
    }
    Ok((decls, rest))
}

/// Reads the whole text.
#[tactic(auto, unfolding(crate::specs::Reading::idl_at))]
fn read_all(alloc: Global, text: &[u8]) -> Result<Idl, IdlRefused>
    requires { length text.now < 2 ^ 32 }
    ensures { Gives (λ idl. idl_tree idl) result (idl_at text.now) }
{
    let rest = Rest {
        place: 0,
        bytes: text,
    };
    let (decls, _) = more_decls(alloc, Vec::new(alloc), rest)?;
    Ok(Idl {
        decls: Items::from_vec(decls),
    })
}

/// What a text of the interface definition language declares; the language and its limits are this
/// project's own. Fails exactly if the text is not in the language, at the first place that is
/// wrong, or if memory runs out.
pub fn read_idl(alloc: Global, text: &[u8]) -> Result<Idl, IdlRefused>
    requires { length text.now < 2 ^ 32 }
    // What is read is declared there.
    ensures found { IfOk result (λ idl. IsTextOf text.now (idl_tree idl)) }
    // What is declared there is read, unless memory runs out.
    ensures only { (decls : List DeclTree) → IsTextOf text.now decls → MatchResult result (λ idl. idl_tree idl ≡ decls) (λ refused. refused ≡ no_memory) }
    // The first place that is wrong, and why.
    ensures exact { Gives (λ idl. idl_tree idl) result (idl_at text.now) }
{
    read_all(alloc, text)
}

/// Each text declares one thing at most; and what a printed text declares is what was printed,
/// apart from the places of its words.
pub fn texts_and_declarations()
    ensures one { (text : List ℕ) (some other : List DeclTree) → IsTextOf text some → IsTextOf text other → some ≡ other }
    ensures printed { (decls : List DeclTree) → AreDecls decls → (again : List DeclTree) × (idl_at (spelling decls) ≡ Ok again) × (bare again ≡ bare decls) }
{}
