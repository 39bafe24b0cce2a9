//! Commands on two columns as text: read, run and printed.
ghost use Rattle.std.specs.Prelude.{◌≡◌, ◌∷◌, [], ◌++◌, List, ℕ, IfOk, IfErr, None, OnOk, Some, string_bytes};
ghost use Rattle.std.specs.List.{join_by};
ghost use Rattle.hibitset_run.specs.declared.store.Side.{Side};
ghost use Rattle.hibitset_run.specs.declared.store.StoreCommand.{StoreCommand};
ghost use Rattle.hibitset_run.specs.Program.{StoreEnds};
ghost use Rattle.hibitset_run.specs.ScriptParser.{IsLineFault};
ghost use Rattle.hibitset_run.specs.Store.{answer_of, columns_of};
ghost use Rattle.hibitset_run.specs.StoreParser.{ReadsOf, text_of_name};
ghost use Rattle.hibitset_run.specs.StoreText.{IsLine, letter_of, pair_text, reply_text};
ghost use Rattle.hibitset_run.specs.Text.{Reads, Say, lines_of};

use super::{Column, Side, StoreCommand, StoreReply, run};
use crate::script::{Ended, Printed, cut, id_of, print};
use hibitset::Index;
use std::alloc::{AllocError, Global};
use std::io::Write;

// The name of a command.
#[derive(Clone, Copy)]
enum Name {
    Put,
    Get,
    Take,
    Join,
}

// Runs the lines after the first one, on two empty columns, and writes one line a reply.
pub(crate) fn run_lines<W: Write>(alloc: Global, lines: &[u8], writer: &mut W) -> Ended
    ensures { StoreEnds (lines_of lines.now) result (W.contents writer.old)
        (W.contents writer.new) }
{
    let commands = match commands_of(alloc, lines) {
        Ok(commands) => commands,
        Err(fault) => return fault,
    };
    let mut columns = no_columns(alloc);
    let Ok(replies) = run(alloc, &mut columns, &commands) else {
        return Ended::NoMemory;
    };
    match print(alloc, writer, &replies) {
        Ok(()) => Ended::Done,
        Err(fault) => fault,
    }
}

// Two empty columns.
fn no_columns(alloc: Global) -> [Column<u32>; 2]
    ensures { (side : Side) (i : ℕ) → columns_of result side i ≡ None }
{
    [Column::new(alloc), Column::new(alloc)]
}

// The commands, one a line. The first line that is none ends them, as `BadLine`, whose number counts the line before
// all of these too.
fn commands_of(alloc: Global, lines: &[u8]) -> Result<Vec<StoreCommand>, Ended>
    ensures ok { IfOk result (λ commands. Say IsLine commands.items (lines_of lines.now)) }
    ensures err { IfErr result (IsLineFault IsLine (lines_of lines.now) 1) }
{
    let mut commands = Vec::new(alloc);
    let mut rest = lines;
    while !rest.is_empty() {
        let (line, more) = cut(rest, b'\n');
        let Some(command) = command_of(line) else {
            return Err(Ended::BadLine(commands.len() + 2));
        };
        if commands.push(command).is_err() {
            return Err(Ended::NoMemory);
        }
        rest = more.unwrap_or(&[]);
    }
    Ok(commands)
}

// The command that a line says, where it says one. Words are parted by exactly one space.
fn command_of(line: &[u8]) -> Option<StoreCommand>
    ensures { Reads IsLine line.now result }
{
    let (name, rest) = cut(line, b' ');
    let (column, last) = cut(rest?, b' ');
    let (third, fourth) = cut(last?, b' ');
    let name = name_of(name)?;
    let column = side_of(column)?;
    match fourth {
        None => with_third(name, column, third),
        Some(fourth) => with_fourth(name, column, third, fourth),
    }
}

// No line says two commands.
pub(crate) fn one_command()
    ensures { (c d : StoreCommand) (line : List ℕ) → IsLine c line → IsLine d line → c ≡ d }
{}

// The command with this name, this column, a third word and no fourth.
fn with_third(name: Name, column: Side, third: &[u8]) -> Option<StoreCommand>
    ensures { ReadsOf name column third.now None result }
{
    match name {
        Name::Put => None,
        Name::Get => Some(StoreCommand::Get {
            column,
            id: id_of(third)?,
        }),
        Name::Take => Some(StoreCommand::Take {
            column,
            id: id_of(third)?,
        }),
        Name::Join => Some(StoreCommand::Join {
            column,
            other: side_of(third)?,
        }),
    }
}

// The command with this name, this column, a third and a fourth word.
fn with_fourth(name: Name, column: Side, third: &[u8], fourth: &[u8]) -> Option<StoreCommand>
    ensures { ReadsOf name column third.now (Some fourth.now) result }
{
    match name {
        Name::Put => Some(StoreCommand::Put {
            column,
            id: id_of(third)?,
            value: id_of(fourth)?,
        }),
        _ => None,
    }
}

// The name that a word is.
fn name_of(word: &[u8]) -> Option<Name>
    ensures { Reads (λ name bytes. bytes ≡ text_of_name name) word.now result }
{
    match word {
        b"put" => Some(Name::Put),
        b"get" => Some(Name::Get),
        b"take" => Some(Name::Take),
        b"join" => Some(Name::Join),
        _ => None,
    }
}

// The column that a word names: `p` or `q`.
fn side_of(word: &[u8]) -> Option<Side>
    ensures { Reads (λ side bytes. bytes ≡ letter_of side) word.now result }
{
    match word {
        b"p" => Some(Side::P),
        b"q" => Some(Side::Q),
        _ => None,
    }
}

impl Printed for StoreReply {
    ghost shown = { λ reply. reply_text (answer_of reply) };

    fn put_line(&self, text: &mut String) -> Result<(), AllocError> {
        match self {
            StoreReply::Value(Some(value)) => writeln!(text, "{value}"),
            StoreReply::Value(None) => text.push_str("none\n"),
            StoreReply::Joined(list) => put_pairs(text, list),
            StoreReply::OutOfRange => text.push_str("out of range\n"),
            StoreReply::NoMemory => text.push_str("no memory\n"),
        }
    }
}

// Indices with their two values in decimal, parted by one space.
fn put_pairs(text: &mut String, list: &[(Index, u32, u32)]) -> Result<(), AllocError>
    ensures { OnOk result (string_bytes text.new
        ≡ string_bytes text.old ++ (join_by pair_text (32 ∷ []) list.now ++ 10 ∷ [])) }
{
    let mut space = "";
    for (id, first, second) in list {
        write!(text, "{space}{id}:{first}:{second}")?;
        space = " ";
    }
    text.push_str("\n")
}
