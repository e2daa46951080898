//! Writes the line of a refusal to the error stream.
ghost use Rattle.std.specs.Prelude.{◌≡◌, ◌≤◌, ◌++◌, codes, MatchBool};
ghost use Rattle.std.specs.Fmt.{decimal};
ghost use Rattle.rw_io.specs.Causes.{Rose};
ghost use Rattle.rw_io.specs.Known.{GrowsBy, PrefixGrew};
ghost use Rattle.rw_commands.specs.Command.{command_said};
ghost use Rattle.rw_io.specs.Outside.{change};
ghost use Rattle.rw_commands.specs.Written.{TellsLine};
ghost use Rattle.rw_commands.specs.Lines.{block_line, code_line, edits_line, grammar_line, inputs_line, refusal_line, model_line, told_path, types_line, memory_line, traces_line, words_line};

use crate::command::Command;
use crate::fault_words::{
    build_words, calendar_words, input_words, table_words, type_words, verify_words,
};
use crate::{File, Refusal};
use itoa::Buffer;
use rpl_code::CodeFault;
use rpl_parse::ParseFault;
use rpl_types::TypeKind;
use rpl_verify::VerifyKind;
use rw_inputs::InputKind;
use rw_io::{Sink, write_all};
use rw_model_toml::ModelFault;

// Writes a part of a line, and says whether all of it was taken.
fn tell_part<E: Sink>(err: &mut E, part: &str) -> bool
    ensures later { (E.seen err.old).faults ≤ (E.seen err.new).faults }
    ensures told { MatchBool result
        (GrowsBy (E.seen err.old).contents (E.seen err.new).contents part.now)
        (PrefixGrew (E.seen err.old).contents (E.seen err.new).contents part.now
        × Rose (E.seen err.old).faults (E.seen err.new).faults) }
{
    write_all(err, part.as_bytes()).is_ok()
}

// The same, of two parts one after the other.
fn tell_two<E: Sink>(err: &mut E, first: &str, second: &str) -> bool
    ensures later { (E.seen err.old).faults ≤ (E.seen err.new).faults }
    ensures told { MatchBool result
        (GrowsBy (E.seen err.old).contents (E.seen err.new).contents (first.now ++ second.now))
        (PrefixGrew (E.seen err.old).contents (E.seen err.new).contents (first.now ++ second.now)
        × Rose (E.seen err.old).faults (E.seen err.new).faults) }
{
    if tell_part(err, first) {
        tell_part(err, second)
    } else {
        false
    }
}

// Writes a line of two parts, as far as the sink takes it.
fn tell_line<E: Sink>(err: &mut E, first: &str, second: &str)
    ensures { TellsLine (change (E.seen err.old) (E.seen err.new))
        ((first.now ++ second.now) ++ codes "\n") }
{
    if !tell_two(err, first, second) {
        return;
    }
    let _ = tell_part(err, "\n");
}

// Writes a line of a path and what is wrong there.
fn tell_wrong<E: Sink>(err: &mut E, first: &str, path: &str, wrong: &str)
    ensures { TellsLine (change (E.seen err.old) (E.seen err.new))
        ((first.now ++ path.now) ++ ((codes ": " ++ wrong.now) ++ codes "\n")) }
{
    if tell_two(err, first, path) {
        tell_line(err, ": ", wrong);
    }
}

fn tell_model<E: Sink>(err: &mut E, fault: &ModelFault)
    ensures { TellsLine (change (E.seen err.old) (E.seen err.new)) (model_line fault.now) }
{
    match fault {
        ModelFault::NotToml => tell_line(err, "basin: model: not TOML", ""),
        ModelFault::Missing(path) => tell_line(err, "basin: model: missing ", path.as_str()),
        ModelFault::WrongKind(path) => tell_line(err, "basin: model: wrong kind ", path.as_str()),
        ModelFault::UnknownKey(path) => tell_line(err, "basin: model: unknown key ", path.as_str()),
        ModelFault::UnknownKind(path) => {
            tell_line(err, "basin: model: unknown kind ", path.as_str())
        }
        ModelFault::Build(path, fault) => {
            tell_wrong(
                err,
                "basin: model: build ",
                path.as_str(),
                build_words(*fault),
            )
        }
        ModelFault::Table(path, fault) => {
            tell_wrong(
                err,
                "basin: model: table ",
                path.as_str(),
                table_words(*fault),
            )
        }
        ModelFault::Calendar(fault) => {
            tell_line(err, "basin: model: calendar: ", calendar_words(*fault))
        }
        ModelFault::NoMemory => tell_line(err, "basin: model: no memory", ""),
    }
}

// Writes a line of a number and what is wrong there.
fn tell_number<E: Sink>(err: &mut E, first: &str, n: u32, wrong: &str)
    ensures { TellsLine (change (E.seen err.old) (E.seen err.new))
        ((first.now ++ decimal n) ++ ((codes ": " ++ wrong.now) ++ codes "\n")) }
{
    let mut buffer = Buffer::new();
    tell_wrong(err, first, buffer.format(n), wrong);
}

// Writes a line of two numbers and what is wrong there.
fn tell_place<E: Sink>(err: &mut E, first: &str, n: u32, second: &str, m: u32, wrong: &str)
    ensures { TellsLine (change (E.seen err.old) (E.seen err.new))
        ((first.now ++ decimal n)
        ++ ((second.now ++ decimal m) ++ ((codes ": " ++ wrong.now) ++ codes "\n"))) }
{
    let mut buffer = Buffer::new();
    if tell_two(err, first, buffer.format(n)) {
        tell_number(err, second, m, wrong);
    }
}

fn tell_grammar<E: Sink>(err: &mut E, fault: &ParseFault)
    ensures { TellsLine (change (E.seen err.old) (E.seen err.new)) (grammar_line fault.now) }
{
    match fault {
        ParseFault::BadToken(line) => {
            tell_number(err, "basin: rules: line ", *line, "bad token");
        }
        ParseFault::BadDeclaration { declaration, line } => {
            tell_place(
                err,
                "basin: rules: declaration ",
                *declaration,
                " line ",
                *line,
                "bad declaration",
            );
        }
        ParseFault::TooMany(declaration) => {
            tell_number(err, "basin: rules: declaration ", *declaration, "too many");
        }
        ParseFault::NoMemory => tell_line(err, "basin: rules: no memory", ""),
    }
}

fn tell_types<E: Sink>(err: &mut E, kind: TypeKind, declaration: u32, node: u32)
    ensures { TellsLine (change (E.seen err.old) (E.seen err.new))
        (types_line kind declaration node) }
{
    tell_place(
        err,
        "basin: rules: declaration ",
        declaration,
        " node ",
        node,
        type_words(kind),
    );
}

fn tell_code<E: Sink>(err: &mut E, fault: &CodeFault)
    ensures { TellsLine (change (E.seen err.old) (E.seen err.new)) (code_line fault.now) }
{
    match fault {
        CodeFault::BadLine(line) => tell_number(err, "basin: code: line ", *line, "bad line"),
        CodeFault::Truncated => tell_line(err, "basin: code: truncated", ""),
        CodeFault::NoMemory => tell_line(err, "basin: code: no memory", ""),
    }
}

fn tell_block<E: Sink>(err: &mut E, kind: VerifyKind, block: u32, place: u32)
    ensures { TellsLine (change (E.seen err.old) (E.seen err.new)) (block_line kind block place) }
{
    tell_place(
        err,
        "basin: code: block ",
        block,
        " place ",
        place,
        verify_words(kind),
    );
}

fn tell_inputs<E: Sink>(err: &mut E, kind: InputKind, row: u32, column: u8)
    ensures { TellsLine (change (E.seen err.old) (E.seen err.new)) (inputs_line kind row column) }
{
    tell_place(
        err,
        "basin: inputs: row ",
        row,
        " column ",
        u32::from(column),
        input_words(kind),
    );
}

fn tell_edits<E: Sink>(err: &mut E, kind: InputKind, row: u32, column: u8)
    ensures { TellsLine (change (E.seen err.old) (E.seen err.new)) (edits_line kind row column) }
{
    tell_place(
        err,
        "basin: edits: row ",
        row,
        " column ",
        u32::from(column),
        input_words(kind),
    );
}

fn tell_traces<E: Sink>(err: &mut E, kind: InputKind, row: u32, column: u8)
    ensures { TellsLine (change (E.seen err.old) (E.seen err.new)) (traces_line kind row column) }
{
    tell_place(
        err,
        "basin: traces: row ",
        row,
        " column ",
        u32::from(column),
        input_words(kind),
    );
}

// The path of a file as a line has it.
fn told_path<'w>(command: &Command<'w>, file: File) -> &'w str
    ensures { result.now ≡ told_path (command_said command.now) file }
{
    match command.path(file) {
        Some(path) => path,
        None => "",
    }
}

/// Writes the line on words that ask for nothing, as far as the sink takes it. It takes no memory.
pub(crate) fn tell_words<E: Sink>(err: &mut E)
    ensures { TellsLine (change (E.seen err.old) (E.seen err.new)) words_line }
{
    tell_line(err, "basin: words refused", "");
}

/// Writes the line on want of memory, as far as the sink takes it. It takes no memory.
pub(crate) fn tell_memory<E: Sink>(err: &mut E)
    ensures { TellsLine (change (E.seen err.old) (E.seen err.new)) memory_line }
{
    tell_line(err, "basin: want of memory", "");
}

/// Writes the line on a refusal of the command, as far as the sink takes it. It takes no memory.
pub(crate) fn tell<E: Sink>(err: &mut E, command: &Command<'_>, refusal: &Refusal)
    ensures { TellsLine (change (E.seen err.old) (E.seen err.new))
        (refusal_line (command_said command.now) refusal.now) }
{
    match refusal {
        Refusal::Words => tell_words(err),
        Refusal::CannotRead(file) => tell_line(
            err,
            "basin: cannot read ",
            told_path(command, *file),
        ),
        Refusal::CannotWrite => tell_line(err, "basin: cannot write", ""),
        Refusal::NoMemory => tell_memory(err),
        Refusal::Model(fault) => tell_model(err, fault),
        Refusal::Grammar(fault) => tell_grammar(err, fault),
        Refusal::Types(kind, declaration, node) => tell_types(err, *kind, *declaration, *node),
        Refusal::Code(fault) => tell_code(err, fault),
        Refusal::Block(kind, block, place) => tell_block(err, *kind, *block, *place),
        Refusal::Inputs(kind, row, column) => tell_inputs(err, *kind, *row, *column),
        Refusal::Edits(kind, row, column) => tell_edits(err, *kind, *row, *column),
        Refusal::Traces(kind, row, column) => tell_traces(err, *kind, *row, *column),
        Refusal::NoCell => tell_line(err, "basin: why: no such cell", ""),
        Refusal::TooLong(file) => tell_line(err, "basin: too long ", told_path(command, *file)),
    }
}
