//! From the text of a script to its commands.
ghost use Rattle.hibitset_run.specs.declared.script.Command.{Command};
ghost use Rattle.std.specs.Prelude.{◌≡◌, ℕ, List, IfOk, IfErr, None, Some};
ghost use Rattle.std.specs.Option.{option_map};
ghost use Rattle.hibitset_run.specs.Text.{IsLine, IsNumber, Reads, Say, digit_of, letter_of, lines_of};
ghost use Rattle.hibitset_run.specs.ScriptParser.{IsCut, IsLineFault, ReadsOf, text_of_name};

use super::{Command, Ended, Layers, Slot};
use hibitset::Index;
use std::alloc::Global;

// The name of a command.
#[derive(Clone, Copy)]
enum Name {
    Add,
    Remove,
    Has,
    List,
    Count,
    And,
    Or,
    Xor,
    Clear,
    Same,
    Within,
    Split,
}

// The commands of a script, one a line. The first line that is none ends it, as `BadLine`.
pub(crate) fn commands_of(alloc: Global, input: &[u8]) -> Result<Vec<Command>, Ended>
    ensures ok { IfOk result (λ commands. Say IsLine commands.items (lines_of input.now)) }
    ensures err { IfErr result (IsLineFault IsLine (lines_of input.now) 0) }
{
    let mut commands = Vec::new(alloc);
    let mut rest = input;
    while !rest.is_empty() {
        let (line, more) = cut(rest, b'\n');
        let Some(command) = command_of(line) else {
            return Err(Ended::BadLine(commands.len() + 1));
        };
        if commands.push(command).is_err() {
            return Err(Ended::NoMemory);
        }
        rest = more.unwrap_or(&[]);
    }
    Ok(commands)
}

// The command that a line says, where it says one. Words are parted by exactly one space.
pub(crate) fn command_of(line: &[u8]) -> Option<Command>
    ensures { Reads IsLine line.now result }
{
    let (name, rest) = cut(line, b' ');
    let (set, third) = cut(rest?, b' ');
    let name = name_of(name)?;
    let set = slot_of(set)?;
    match third {
        None => alone(name, set),
        Some(third) => with_third(name, set, third),
    }
}

// No line says two commands.
pub(crate) fn one_command()
    ensures { (c d : Command) (line : List ℕ) → IsLine c line → IsLine d line → c ≡ d }
{}

// The bytes before the first place of a byte, and those behind it, where it has one.
pub(crate) fn cut(bytes: &[u8], byte: u8) -> (&[u8], Option<&[u8]>)
    ensures { IsCut byte bytes.now result.0.now (option_map (λ rest. rest.now) result.1) }
{
    match bytes.iter().position(|b| *b == byte) {
        Some(at) => (&bytes[..at], Some(&bytes[at + 1..])),
        None => (bytes, None),
    }
}

// The command with this name, this set and no third word.
fn alone(name: Name, set: Slot) -> Option<Command>
    ensures { ReadsOf name set None result }
{
    match name {
        Name::List => Some(Command::List { set }),
        Name::Count => Some(Command::Count { set }),
        Name::Clear => Some(Command::Clear { set }),
        _ => None,
    }
}

// The command with this name, this set and a third word.
fn with_third(name: Name, set: Slot, third: &[u8]) -> Option<Command>
    ensures { ReadsOf name set (Some third.now) result }
{
    match name {
        Name::Add => Some(Command::Add {
            set,
            id: id_of(third)?,
        }),
        Name::Remove => Some(Command::Remove {
            set,
            id: id_of(third)?,
        }),
        Name::Has => Some(Command::Has {
            set,
            id: id_of(third)?,
        }),
        Name::And => Some(Command::And {
            set,
            other: slot_of(third)?,
        }),
        Name::Or => Some(Command::Or {
            set,
            other: slot_of(third)?,
        }),
        Name::Xor => Some(Command::Xor {
            set,
            other: slot_of(third)?,
        }),
        Name::Same => Some(Command::Same {
            set,
            other: slot_of(third)?,
        }),
        Name::Within => Some(Command::Within {
            set,
            other: slot_of(third)?,
        }),
        Name::Split => Some(Command::Split {
            set,
            layers: layers_of(third)?,
        }),
        _ => None,
    }
}

// The name that a word is.
fn name_of(word: &[u8]) -> Option<Name>
    ensures { Reads (λ name bytes. bytes ≡ text_of_name name) word.now result }
{
    match word {
        b"add" => Some(Name::Add),
        b"remove" => Some(Name::Remove),
        b"has" => Some(Name::Has),
        b"list" => Some(Name::List),
        b"count" => Some(Name::Count),
        b"and" => Some(Name::And),
        b"or" => Some(Name::Or),
        b"xor" => Some(Name::Xor),
        b"clear" => Some(Name::Clear),
        b"same" => Some(Name::Same),
        b"within" => Some(Name::Within),
        b"split" => Some(Name::Split),
        _ => None,
    }
}

// The set that a word names: one letter from `a` to `h`.
fn slot_of(word: &[u8]) -> Option<Slot>
    ensures { Reads (λ slot bytes. bytes ≡ letter_of slot) word.now result }
{
    match word {
        b"a" => Some(Slot::A),
        b"b" => Some(Slot::B),
        b"c" => Some(Slot::C),
        b"d" => Some(Slot::D),
        b"e" => Some(Slot::E),
        b"f" => Some(Slot::F),
        b"g" => Some(Slot::G),
        b"h" => Some(Slot::H),
        _ => None,
    }
}

// The number of layers that a word writes: one digit from `1` to `4`.
fn layers_of(word: &[u8]) -> Option<Layers>
    ensures { Reads (λ layers bytes. bytes ≡ digit_of layers) word.now result }
{
    match word {
        b"1" => Some(Layers::One),
        b"2" => Some(Layers::Two),
        b"3" => Some(Layers::Three),
        b"4" => Some(Layers::Four),
        _ => None,
    }
}

// The number that a word writes in decimal, with no sign and no leading zero, where it fits.
pub(crate) fn id_of(word: &[u8]) -> Option<Index>
    ensures { Reads IsNumber word.now result }
{
    if word == b"0".as_slice() {
        return Some(0);
    }
    if word.starts_with(b"0") || word.starts_with(b"+") {
        return None;
    }
    str::from_utf8(word).ok()?.parse().ok()
}
